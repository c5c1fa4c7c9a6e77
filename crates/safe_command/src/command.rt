//! The command: files in, a report or the first obstacle out.

ghost use Rattle.std.specs.Prelude.{◌≡◌, Err};
ghost use Rattle.command_words.specs.Views.{safe_seen};
ghost use Rattle.command_parts.specs.command_parts.Inputs.{AsksSoMany};
ghost use Rattle.command_parts.specs.command_parts.Leaves.{IsBadUsage};
ghost use Rattle.command_parts.specs.command_parts.OnHive.{AnswersOnHive, DecidesOnHive, SeeksAnswer};
ghost use Rattle.command_parts.specs.command_parts.Refusals.{IsToldAs};
ghost use Rattle.safe_command.specs.Answer.{question_in, question_on};
ghost use Rattle.command_parts.specs.input_search.Search.{AsksFor};
ghost use Rattle.safe_command.specs.Inputs.{arguments_in, asks_safe, safe_search};

use crate::inputs::{SafeInputs, inputs_in};
use crate::report::report_text;
use command_parts::command_parts::{Obstacle, Refusal, Status, Told, answer, no_memory, read};
use command_words::SafeWords;
use nt_bytes::{HiveVersion, ReadStop};
use nt_edge::Host;
use reg_tree::Key;
use report_text::line_text::ReportForm;
use std::alloc::Global;

/// The report, or the hive's first fault.
fn report_on(alloc: Global, inputs: &SafeInputs, form: ReportForm) -> Result<Told, Obstacle>
    ensures { AnswersOnHive (question_on form inputs.now) result }
{
    match read(alloc, &inputs.hive) {
        Ok((root, _, _)) => match report_text(alloc, inputs, form, &root) {
            Ok(text) => Ok(Told::done(text)),
            Err(_) => Err(no_memory()),
        },
        Err(ReadStop::Fault(fault)) => Err(Obstacle::Refused(Refusal::HiveFault(fault))),
        Err(ReadStop::Memory) => Err(no_memory()),
    }
}

/// Gets what the command line names, and makes the report. Nothing is printed.
fn seek<H: Host>(
    alloc: Global,
    words: SafeWords<'_>,
    form: ReportForm,
    host: &mut H,
) -> Result<Told, Obstacle>
    ensures seeks { SeeksAnswer (question_in form (safe_seen words.entry) (H.state host.old).files) result (H.state host.old) (H.state host.new) }
    ensures asks { AsksFor (safe_search (safe_seen words.entry)) result (H.state host.old) (H.state host.new) }
    ensures usage { result ≡ Err (Obstacle.Refused Refusal.Usage) → arguments_in (safe_seen words.entry) ≡ Err Refusal.Usage }
    ensures refused { arguments_in (safe_seen words.entry) ≡ Err Refusal.Usage → IsBadUsage result }
{
    match inputs_in(alloc, words, host) {
        Ok(inputs) => report_on(alloc, &inputs, form),
        Err(obstacle) => Err(obstacle),
    }
}

/// Gets what the command line names, and prints what a start in safe mode would attempt, in one of the two forms; or prints the first
/// obstacle. Nothing is written.
pub fn safe<H: Host>(alloc: Global, words: SafeWords<'_>, form: ReportForm, host: &mut H) -> Status
    ensures decides { DecidesOnHive (question_in form (safe_seen words.entry) (H.state host.old).files) result (H.state host.old) (H.state host.new) }
    ensures asked { AsksSoMany (asks_safe (safe_seen words.entry)) result (H.state host.old) (H.state host.new) }
    ensures usage { result ≡ Status.Usage → arguments_in (safe_seen words.entry) ≡ Err Refusal.Usage }
    ensures refused { arguments_in (safe_seen words.entry) ≡ Err Refusal.Usage → IsToldAs Status.Usage result }
{
    let told = seek(alloc, words, form, host);
    answer(alloc, host, told)
}
