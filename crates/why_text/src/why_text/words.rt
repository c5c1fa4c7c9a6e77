//! Words of the lines.

ghost use Rattle.std.specs.Prelude.{◌≡◌};
ghost use Rattle.start_model.specs.Lines.{set_word};
ghost use Rattle.why_text.specs.why_text.Lines.{phase_word, kind_word, order_word, judgement_word, reason_word, need_word, group_word, line_word};

use answer_lines::why_lines::{EntryKind, NeedState, OrderWord, Reason, WhyLine};
use boot_phases::boot_phases::Phase;
use boot_phases::error_control::Judgement;

pub(crate) fn phase_word(phase: Phase) -> &'static [u8]
    ensures { result.now ≡ phase_word phase }
{
    match phase {
        Phase::Boot => b"boot",
        Phase::System => b"system",
        Phase::Automatic => b"automatic",
        Phase::Done => b"done",
    }
}

pub(crate) fn kind_word(kind: EntryKind) -> &'static [u8]
    ensures { result.now ≡ kind_word kind }
{
    match kind {
        EntryKind::Driver => b"driver",
        EntryKind::Service => b"service",
        EntryKind::Other => b"other",
    }
}

pub(crate) fn order_word(order: OrderWord) -> &'static [u8]
    ensures { result.now ≡ order_word order }
{
    match order {
        OrderWord::Group => b"group",
        OrderWord::Tag => b"tag",
        OrderWord::Registry => b"registry",
    }
}

pub(crate) fn judgement_word(judgement: Judgement) -> &'static [u8]
    ensures { result.now ≡ judgement_word judgement }
{
    match judgement {
        Judgement::Ignore => b"ignored",
        Judgement::Log => b"logged",
        Judgement::FallBack => b"fall-back",
        Judgement::Stop => b"stop",
    }
}

pub(crate) fn reason_word(reason: Reason) -> &'static [u8]
    ensures { result.now ≡ reason_word reason }
{
    match reason {
        Reason::NoKey => b"no-key",
        Reason::NoStart => b"no-start",
        Reason::NoType => b"no-type",
        Reason::Kind => b"kind",
        Reason::Disabled => b"disabled",
        Reason::Beyond => b"beyond",
        Reason::TooEarly => b"too-early",
        Reason::Demand => b"demand",
    }
}

pub(crate) fn need_word(state: NeedState) -> &'static [u8]
    ensures { result.now ≡ need_word state }
{
    match state {
        NeedState::Started => b"started",
        NeedState::Failed => b"failed",
        NeedState::Unmet => b"unmet",
        NeedState::Later => b"later",
        NeedState::Late => b"late",
        NeedState::NotTaken(reason) => reason_word(reason),
    }
}

pub(crate) fn group_word(has_members: bool) -> &'static [u8]
    ensures { result.now ≡ group_word has_members }
{
    if has_members {
        b"not-started"
    } else {
        b"no-member"
    }
}

pub(crate) fn set_word(on_good: bool) -> &'static [u8]
    ensures { result.now ≡ set_word on_good }
{
    if on_good {
        b"last-known-good"
    } else {
        b"default"
    }
}

pub(crate) fn line_word(line: &WhyLine) -> &'static [u8]
    ensures { result.now ≡ line_word line.now }
{
    match line {
        WhyLine::NoBoot => b"no-boot",
        WhyLine::Start { number: _ } => b"start",
        WhyLine::Set {
            number: _,
            on_good: _,
        } => b"set",
        WhyLine::Verdict(_) => b"verdict",
        WhyLine::EndedBy(_) => b"ended-by",
        WhyLine::Vital(_) => b"vital",
        WhyLine::Name(_) => b"name",
        WhyLine::Entry {
            kind: _,
            start: _,
            number: _,
            control: _,
        } => b"entry",
        WhyLine::Place {
            phase: _,
            place: _,
            of: _,
        } => b"place",
        WhyLine::Group { place: _, name: _ } => b"group",
        WhyLine::NoGroup => b"group",
        WhyLine::Tag { tag: _, place: _ } => b"tag",
        WhyLine::NoTag => b"tag",
        WhyLine::Registry { place: _ } => b"registry",
        WhyLine::After { by: _, name: _ } => b"after",
        WhyLine::Before { by: _, name: _ } => b"before",
        WhyLine::Pulled(_) => b"pulled",
        WhyLine::ReadyAtOnce => b"ready",
        WhyLine::ReadyAfter(_) => b"ready",
        WhyLine::State(_) => b"state",
        WhyLine::Unmet { phase: _, name: _ } => b"unmet",
        WhyLine::LackService { state: _, name: _ } => b"lack",
        WhyLine::LackGroup {
            has_members: _,
            name: _,
        } => b"lack",
        WhyLine::Member { state: _, name: _ } => b"member",
        WhyLine::Cycle(_) => b"cycle",
        WhyLine::End => b"end",
    }
}
