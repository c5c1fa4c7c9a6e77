//! The words of the report for what the machine, the tree and the script say.

ghost use Rattle.std.specs.Prelude.{◌≡◌, option_map};
ghost use Rattle.boot_machine.specs.boot_machine.Views.{event_in, word_of_refusal, tried_in};
ghost use Rattle.reg_tree.specs.Makes.{refusal_of};
ghost use Rattle.start_model.specs.Commit.{select_line};
ghost use Rattle.start_model.specs.Starter.{try_line};
ghost use Rattle.start_model.specs.EventActs.{event_word_of, reason_of};
ghost use Rattle.report_words.specs.declared.line.Line.TheVariants.{Try as TryLine};
ghost use Rattle.boot_run.specs.Ends.{EndsAs, missing};

use boot_machine::boot_machine::{EventRefusal, Tried};
use boot_phases::error_control::Judgement;
use boot_script::boot_script::Event;
use reg_tree::EditStop;
use report_text::boot_report::{EventWord, Line, RefusedWord, TryWord, Verdict};
use select_keys::SelectNumbers;

/// The first word of the event's line.
pub(crate) fn event_word(event: &Event) -> EventWord
    ensures { result ≡ event_word_of (event_in event.now) }
{
    match event {
        Event::Boot { .. } => EventWord::Boot,
        Event::Go { .. } => EventWord::Go,
        Event::Fail { .. } => EventWord::Fail,
        Event::Vital { .. } => EventWord::Vital,
        Event::Set { .. } => EventWord::Set,
        Event::Delete { .. } => EventWord::Delete,
        Event::Make { .. } => EventWord::Make,
        Event::Remove { .. } => EventWord::Remove,
        Event::Flush => EventWord::Flush,
        Event::Logon => EventWord::Logon,
        Event::Off => EventWord::Off,
        Event::CutNow { .. } | Event::ArmCut { .. } => EventWord::Cut,
        Event::ArmFault { .. } => EventWord::Fault,
    }
}

pub(crate) fn refused_word(refusal: EventRefusal) -> RefusedWord
    ensures { result ≡ word_of_refusal refusal }
{
    match refusal {
        EventRefusal::Off => RefusedWord::Off,
        EventRefusal::Running => RefusedWord::Running,
        EventRefusal::Early => RefusedWord::Early,
        EventRefusal::Again => RefusedWord::Again,
        EventRefusal::Idle => RefusedWord::Idle,
        EventRefusal::Protected => RefusedWord::Protected,
    }
}

/// The word of an edit's refusal; none for lack of memory.
pub(crate) fn edit_word(stop: EditStop) -> Option<RefusedWord>
    ensures { result ≡ option_map reason_of (refusal_of stop) }
{
    match stop {
        EditStop::NoKey => Some(RefusedWord::NoKey),
        EditStop::NoValue => Some(RefusedWord::NoValue),
        EditStop::BadName | EditStop::Exists => Some(RefusedWord::BadName),
        EditStop::NameTooLong => Some(RefusedWord::NameTooLong),
        EditStop::TooDeep => Some(RefusedWord::TooDeep),
        EditStop::DataTooLong => Some(RefusedWord::DataTooLong),
        EditStop::Full => Some(RefusedWord::Full),
        EditStop::Memory => None,
    }
}

/// How an attempt went.
pub(crate) fn try_word(tried: &Tried) -> TryWord
    ensures { TryLine tried.now.name result ≡ try_line (tried_in tried.now) }
{
    if tried.ok {
        return TryWord::Ok;
    }
    match tried.judgement {
        Judgement::Ignore => TryWord::Ignored,
        Judgement::Log => TryWord::Logged,
        Judgement::FallBack => TryWord::FallBack,
        Judgement::Stop => TryWord::Stop,
    }
}

/// The verdict with which an attempt ends its start, if it does.
pub(crate) fn verdict_after(tried: &Tried) -> Option<Verdict>
    ensures { EndsAs result tried.now.judgement }
{
    match tried.judgement {
        Judgement::Ignore | Judgement::Log => None,
        Judgement::FallBack => Some(Verdict::FallBack),
        Judgement::Stop => Some(Verdict::Stopped),
    }
}

/// The verdict where no set is there to be taken.
pub(crate) fn missing(on_good: bool) -> Verdict
    ensures { result ≡ missing on_good }
{
    if on_good {
        Verdict::NoLastKnownGood
    } else {
        Verdict::NoControlSet
    }
}

/// The line of the four numbers.
pub(crate) fn select_line(numbers: SelectNumbers) -> Line
    ensures { result ≡ select_line numbers }
{
    Line::Select {
        current: numbers.current,
        default: numbers.default,
        failed: numbers.failed,
        good: numbers.good,
    }
}
