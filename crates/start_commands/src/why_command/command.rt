//! The command: files in, the lines of an entry or the first obstacle out.

ghost use Rattle.std.specs.Prelude.{◌≡◌, Err, IfOk};
ghost use Rattle.hive_model.specs.Valid.{IsValid};
ghost use Rattle.command_parts.specs.command_parts.Inputs.{AsksSoMany};
ghost use Rattle.command_parts.specs.command_parts.Leaves.{IsBadUsage};
ghost use Rattle.command_parts.specs.command_parts.OnHive.{AnswersOnHive, DecidesOnHive, SeeksAnswer};
ghost use Rattle.command_parts.specs.command_parts.Refusals.{IsToldAs};
ghost use Rattle.command_words.specs.Views.{why_seen};
ghost use Rattle.start_commands.specs.start_inputs.Inputs.{arguments_in, files_seen, AsksStart};
ghost use Rattle.start_commands.specs.why_command.Answer.{question_in, question_on, start_asked, text_of};
ghost use Rattle.start_commands.specs.why_command.Inputs.{arguments_in as why_arguments_in, asks_why};

use crate::start_inputs::{StartFiles, StartInputs, start_inputs};
use command_parts::command_parts::{Obstacle, Refusal, Status, Told, answer, no_memory, read};
use command_words::WhyWords;
use nt_bytes::{Bytes, HiveVersion, ReadStop};
use nt_edge::Host;
use nt_names::written_name::written_name;
use quiet_run::quiet_run;
use reg_tree::Key;
use report_text::line_text::ReportForm;
use std::alloc::{AllocError, Global};
use why_answer::why_answer::why_lines;
use why_text::why_text::lines_text;

/// The files that the command line names.
fn files_of<'a>(words: &WhyWords<'a>) -> StartFiles<'a>
    ensures { files_seen result ≡ start_asked (why_seen words.now) }
{
    StartFiles {
        hive: words.hive,
        log: words.log,
        boot_ini: words.boot_ini,
        system: words.system,
        script: words.script,
    }
}

/// The lines on the tree of a hive, in a form.
fn text_on(
    alloc: Global,
    inputs: &StartInputs,
    form: ReportForm,
    name: &str,
    root: Key,
    version: HiveVersion,
) -> Result<Bytes, AllocError>
    requires { IsValid root }
    ensures { IfOk result (λ text. text ≡ text_of form inputs.now name.now version root) }
{
    let name = written_name(alloc, name)?;
    let script = inputs.script.as_slice();
    let run = quiet_run(alloc, &inputs.ini, &inputs.system, script, root, version)?;
    let lines = why_lines(alloc, run, name.as_slice())?;
    lines_text(alloc, form, lines.as_slice())
}

/// The lines on the hive, or its first fault.
fn report_on(
    alloc: Global,
    inputs: &StartInputs,
    words: WhyWords<'_>,
    form: ReportForm,
) -> Result<Told, Obstacle>
    ensures { AnswersOnHive (question_on form (why_seen words.entry) inputs.now) result }
{
    match read(alloc, &inputs.hive) {
        Ok((root, _, version)) => match text_on(alloc, inputs, form, words.name, root, version) {
            Ok(text) => Ok(Told::done(text)),
            Err(_) => Err(no_memory()),
        },
        Err(ReadStop::Fault(fault)) => Err(Obstacle::Refused(Refusal::HiveFault(fault))),
        Err(ReadStop::Memory) => Err(no_memory()),
    }
}

/// Gets what the command line names, and makes the lines. Nothing is printed.
fn seek<H: Host>(
    alloc: Global,
    words: WhyWords<'_>,
    form: ReportForm,
    host: &mut H,
) -> Result<Told, Obstacle>
    ensures seeks { SeeksAnswer (question_in form (why_seen words.entry) (H.state host.old).files) result (H.state host.old) (H.state host.new) }
    ensures asks { AsksStart (start_asked (why_seen words.entry)) result (H.state host.old) (H.state host.new) }
    ensures usage { result ≡ Err (Obstacle.Refused Refusal.Usage) → arguments_in (start_asked (why_seen words.entry)) ≡ Err Refusal.Usage }
    ensures refused { arguments_in (start_asked (why_seen words.entry)) ≡ Err Refusal.Usage → IsBadUsage result }
{
    match start_inputs(alloc, files_of(&words), host) {
        Ok(inputs) => report_on(alloc, &inputs, words, form),
        Err(obstacle) => Err(obstacle),
    }
}

/// Gets what the command line names, and prints in one of the two forms the entry's place in the last start of the script, what became of
/// it, and what it lacked; or prints the first obstacle. Nothing is written.
pub fn why<H: Host>(alloc: Global, words: WhyWords<'_>, form: ReportForm, host: &mut H) -> Status
    ensures decides { DecidesOnHive (question_in form (why_seen words.entry) (H.state host.old).files) result (H.state host.old) (H.state host.new) }
    ensures asked { AsksSoMany (asks_why (why_seen words.entry)) result (H.state host.old) (H.state host.new) }
    ensures usage { result ≡ Status.Usage → why_arguments_in (why_seen words.entry) ≡ Err Refusal.Usage }
    ensures refused { why_arguments_in (why_seen words.entry) ≡ Err Refusal.Usage → IsToldAs Status.Usage result }
{
    let told = seek(alloc, words, form, host);
    answer(alloc, host, told)
}
