//! Each word as it is printed.

ghost use Rattle.std.specs.Prelude.{◌≡◌};
ghost use Rattle.start_model.specs.Lines.{commit_word, phase_word, try_word, event_word, refused_word, verdict_word, load_word, set_word, save_word};

use report_words::{CommitWord, EventWord, PhaseWord, RefusedWord, TryWord, Verdict};

/// The word for what a commit wrote.
pub fn commit_text(what: CommitWord) -> &'static str
    ensures { result.now ≡ commit_word what }
{
    match what {
        CommitWord::Begin => "begin",
        CommitWord::Save => "save",
        CommitWord::Flush => "flush",
        CommitWord::Off => "off",
    }
}

/// The word of a phase.
pub fn phase_text(phase: PhaseWord) -> &'static str
    ensures { result.now ≡ phase_word phase }
{
    match phase {
        PhaseWord::Boot => "boot",
        PhaseWord::System => "system",
        PhaseWord::Automatic => "automatic",
        PhaseWord::Done => "done",
    }
}

/// The words for how an attempt went.
pub(crate) fn outcome_text(outcome: TryWord) -> &'static str
    ensures { result.now ≡ try_word outcome }
{
    match outcome {
        TryWord::Ok => "ok",
        TryWord::Ignored => "failed ignored",
        TryWord::Logged => "failed logged",
        TryWord::FallBack => "failed fall-back",
        TryWord::Stop => "failed stop",
    }
}

/// The first word of a script's line.
pub fn event_text(event: EventWord) -> &'static str
    ensures { result.now ≡ event_word event }
{
    match event {
        EventWord::Boot => "boot",
        EventWord::Go => "go",
        EventWord::Fail => "fail",
        EventWord::Vital => "vital",
        EventWord::Set => "set",
        EventWord::Delete => "delete",
        EventWord::Make => "make",
        EventWord::Remove => "remove",
        EventWord::Flush => "flush",
        EventWord::Logon => "logon",
        EventWord::Off => "off",
        EventWord::Cut => "cut",
        EventWord::Fault => "fault",
    }
}

/// The word for why an event was refused.
pub fn reason_text(why: RefusedWord) -> &'static str
    ensures { result.now ≡ refused_word why }
{
    match why {
        RefusedWord::Off => "off",
        RefusedWord::Running => "running",
        RefusedWord::Early => "early",
        RefusedWord::Again => "again",
        RefusedWord::Idle => "idle",
        RefusedWord::Protected => "protected",
        RefusedWord::NoKey => "no-key",
        RefusedWord::NoValue => "no-value",
        RefusedWord::BadName => "bad-name",
        RefusedWord::NameTooLong => "name-too-long",
        RefusedWord::TooDeep => "too-deep",
        RefusedWord::DataTooLong => "data-too-long",
        RefusedWord::Full => "full",
    }
}

/// The word of a verdict.
pub fn verdict_text(verdict: Verdict) -> &'static str
    ensures { result.now ≡ verdict_word verdict }
{
    match verdict {
        Verdict::Good => "good",
        Verdict::GoodUnsaved => "good-unsaved",
        Verdict::Running => "running",
        Verdict::FallBack => "fall-back",
        Verdict::Stopped => "stopped",
        Verdict::Cut => "cut",
        Verdict::Device => "device",
        Verdict::Full => "full",
        Verdict::NoNumber => "no-number",
        Verdict::NoEntry => "no-entry",
        Verdict::OtherLoader => "other-loader",
        Verdict::NoSystem => "no-system",
        Verdict::NoControlSet => "no-control-set",
        Verdict::NoLastKnownGood => "no-last-known-good",
    }
}

/// `recovered` where the log had to be taken, else `clean`.
pub fn load_text(recovered: bool) -> &'static str
    ensures { result.now ≡ load_word recovered }
{
    if recovered { "recovered" } else { "clean" }
}

/// `last-known-good` where the start is on it, else `default`.
pub fn set_text(last_known_good: bool) -> &'static str
    ensures { result.now ≡ set_word last_known_good }
{
    if last_known_good {
        "last-known-good"
    } else {
        "default"
    }
}

/// `full` where the hive would be too large, else `no-number`.
pub fn save_text(full: bool) -> &'static str
    ensures { result.now ≡ save_word full }
{
    if full { "full" } else { "no-number" }
}
