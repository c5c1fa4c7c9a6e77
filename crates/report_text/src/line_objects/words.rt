//! How an attempt went, as an object has it: without the word `failed`.

ghost use Rattle.std.specs.Prelude.{◌≡◌};
ghost use Rattle.report_text.specs.line_objects.Objects.{outcome_word};

use crate::boot_report::TryWord;

/// The word for how an attempt went.
pub(crate) fn outcome_text(outcome: TryWord) -> &'static str
    ensures { result.now ≡ outcome_word outcome }
{
    match outcome {
        TryWord::Ok => "ok",
        TryWord::Ignored => "ignored",
        TryWord::Logged => "logged",
        TryWord::FallBack => "fall-back",
        TryWord::Stop => "stop",
    }
}
