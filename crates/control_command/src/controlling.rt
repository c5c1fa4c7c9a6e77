//! `control`: services started and stopped after the boot.

ghost use Rattle.std.specs.Prelude.{◌≡◌, Err};
ghost use Rattle.command_words.specs.Views.{control_seen};
ghost use Rattle.command_parts.specs.command_parts.Inputs.{AsksSoMany};
ghost use Rattle.command_parts.specs.command_parts.OnHive.{AnswersOnHive, DecidesOnHive, SeeksAnswer};
ghost use Rattle.command_parts.specs.input_search.Search.{AsksFor};
ghost use Rattle.control_command.specs.Inputs.{asks_control, control_search};
ghost use Rattle.control_command.specs.Answer.{question_in, question_on};

use crate::answering::report;
use crate::inputs::{ControlInputs, inputs_in};
use command_parts::command_parts::{Obstacle, Refusal, Status, Told, answer, no_memory, read};
use command_words::ControlWords;
use nt_bytes::{HiveVersion, ReadStop};
use nt_edge::Host;
use reg_tree::Key;
use report_text::line_text::ReportForm;
use std::alloc::Global;

/// The report on the hive's tree, or the hive's first fault.
fn report_on(alloc: Global, inputs: &ControlInputs, form: ReportForm) -> Result<Told, Obstacle>
    ensures { AnswersOnHive (question_on form inputs.now) result }
{
    match read(alloc, &inputs.hive) {
        Ok((root, _sequence, _version)) => {
            match report(alloc, form, &root, inputs.commands.as_slice()) {
                Ok(text) => Ok(Told::done(text)),
                Err(_) => Err(no_memory()),
            }
        }
        Err(ReadStop::Fault(fault)) => Err(Obstacle::Refused(Refusal::HiveFault(fault))),
        Err(ReadStop::Memory) => Err(no_memory()),
    }
}

/// Gets what the command line names, and makes the report. Nothing is printed.
fn seek<H: Host>(
    alloc: Global,
    words: ControlWords<'_>,
    form: ReportForm,
    host: &mut H,
) -> Result<Told, Obstacle>
    ensures seeks { SeeksAnswer (question_in form (control_seen words.entry) (H.state host.old).files) result (H.state host.old) (H.state host.new) }
    ensures asks { AsksFor (control_search (control_seen words.entry)) result (H.state host.old) (H.state host.new) }
    ensures kept { result ≡ Err (Obstacle.Refused Refusal.Usage) → ⊥ }
{
    match inputs_in(alloc, words, host) {
        Ok(inputs) => report_on(alloc, &inputs, form),
        Err(obstacle) => Err(obstacle),
    }
}

/// Gets the commands and the hive that the command line names, and prints what comes of the commands in one of the two forms; or
/// prints the first obstacle. No call of a disk is made.
pub fn control<H: Host>(
    alloc: Global,
    words: ControlWords<'_>,
    form: ReportForm,
    host: &mut H,
) -> Status
    ensures decides { DecidesOnHive (question_in form (control_seen words.entry) (H.state host.old).files) result (H.state host.old) (H.state host.new) }
    ensures asked { AsksSoMany (asks_control (control_seen words.entry)) result (H.state host.old) (H.state host.new) }
    ensures kept { result ≡ Status.Usage → ⊥ }
{
    let told = seek(alloc, words, form, host);
    answer(alloc, host, told)
}
