//! Words of the report and numbers of phases.

ghost use Rattle.std.specs.Prelude.{◌≡◌};
ghost use Rattle.boot_machine.specs.boot_machine.Views.{tried_in};
ghost use Rattle.boot_machine.specs.boot_machine.Codes.{phase_number};
ghost use Rattle.boot_phases.specs.boot_phases.Phases.{phase_in};
ghost use Rattle.report_words.specs.declared.words.TryWord.TheVariants as tries;
ghost use Rattle.start_model.specs.Starter.{failed_word};
ghost use Rattle.std.specs.Prelude.{if◌then◌else◌};

use boot_machine::boot_machine::Tried;
use boot_phases::boot_phases::Phase;
use boot_phases::error_control::Judgement;
use report_text::boot_report::TryWord;

/// How an attempt went.
pub(crate) fn try_word(tried: &Tried) -> TryWord
    ensures { result ≡ (if tried.now.ok then tries.Ok else failed_word (tried_in tried.now).judgement) }
{
    if tried.ok {
        return TryWord::Ok;
    }
    match tried.judgement {
        Judgement::Ignore => TryWord::Ignored,
        Judgement::Log => TryWord::Logged,
        Judgement::FallBack => TryWord::FallBack,
        Judgement::Stop => TryWord::Stop,
    }
}

/// How many phases come before this one.
pub(crate) fn phase_number(phase: Phase) -> usize
    ensures { result ≡ phase_number (phase_in phase) }
{
    match phase {
        Phase::Boot => 0,
        Phase::System => 1,
        Phase::Automatic => 2,
        Phase::Done => 3,
    }
}
