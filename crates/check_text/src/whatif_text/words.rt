//! The words of the lines.

ghost use Rattle.std.specs.Prelude.{◌≡◌};
ghost use Rattle.start_model.specs.Lines.{set_word};
ghost use Rattle.check_text.specs.whatif_text.Lines.{state_word, need_word, judgement_word};

use boot_phases::error_control::Judgement;
use failure_effects::{EntryState, NeedWord};

pub(crate) fn state_word(state: EntryState) -> &'static [u8]
    ensures { result.now ≡ state_word state }
{
    match state {
        EntryState::Started => b"started",
        EntryState::Unmet => b"unmet",
        EntryState::Untaken => b"untaken",
        EntryState::NoEntry => b"no-entry",
    }
}

pub(crate) fn need_word(need: NeedWord) -> &'static [u8]
    ensures { result.now ≡ need_word need }
{
    match need {
        NeedWord::Service => b"service",
        NeedWord::Group => b"group",
    }
}

pub(crate) fn judgement_word(judgement: Judgement) -> &'static [u8]
    ensures { result.now ≡ judgement_word judgement }
{
    match judgement {
        Judgement::Ignore => b"ignored",
        Judgement::Log => b"logged",
        Judgement::FallBack => b"fall-back",
        Judgement::Stop => b"stop",
    }
}

pub(crate) fn set_word(on_good: bool) -> &'static [u8]
    ensures { result.now ≡ set_word on_good }
{
    if on_good {
        b"last-known-good"
    } else {
        b"default"
    }
}
