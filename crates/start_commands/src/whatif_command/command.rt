//! The command: files in, the lines of single failures or the first obstacle out.

ghost use Rattle.std.specs.Prelude.{◌≡◌, Err, IfOk};
ghost use Rattle.std.specs.Option.{option_copied};
ghost use Rattle.hive_model.specs.Valid.{IsValid};
ghost use Rattle.command_parts.specs.command_parts.Inputs.{AsksSoMany};
ghost use Rattle.command_parts.specs.command_parts.Leaves.{IsBadUsage};
ghost use Rattle.command_parts.specs.command_parts.OnHive.{AnswersOnHive, SeeksAnswer, DecidesOnHive};
ghost use Rattle.command_parts.specs.command_parts.Refusals.{IsToldAs};
ghost use Rattle.command_words.specs.Views.{whatif_seen};
ghost use Rattle.failure_effects.specs.Effects.{effects_of};
ghost use Rattle.check_text.specs.whatif_text.Lines.{printed_lines};
ghost use Rattle.start_commands.specs.whatif_command.Answer.{choice_in, question_at, question_on, question_in};
ghost use Rattle.command_parts.specs.input_search.Search.{AsksFor};
ghost use Rattle.start_commands.specs.whatif_command.Inputs.{arguments_in, asks_whatif, whatif_search};

use crate::whatif_command::choice::choice_in;
use crate::whatif_command::inputs::{WhatifInputs, inputs_in};
use check_text::whatif_text::print_lines;
use command_parts::command_parts::{Obstacle, Refusal, Status, Told, answer, no_memory, read};
use command_words::WhatifWords;
use failure_effects::effects;
use nt_bytes::{Bytes, HiveVersion, ReadStop, Units};
use nt_edge::Host;
use nt_names::written_name::written_name_if;
use reg_tree::Key;
use report_text::line_text::ReportForm;
use std::alloc::{AllocError, Global};

/// The lines on the tree of a hive, in a form.
fn text_on(
    alloc: Global,
    inputs: &WhatifInputs,
    form: ReportForm,
    of: Option<&Units>,
    root: Key,
    version: HiveVersion,
) -> Result<Bytes, AllocError>
    requires { IsValid root }
    ensures { IfOk result (λ text. text ≡ printed_lines form (effects_of version root (choice_in inputs.now) (option_copied of.entry))) }
{
    let choice = choice_in(alloc, inputs)?;
    let lines = effects(alloc, root, version, choice, of)?;
    print_lines(alloc, form, lines)
}

/// The lines on the hive, or its first fault.
fn report_at(
    alloc: Global,
    inputs: &WhatifInputs,
    form: ReportForm,
    of: Option<&Units>,
) -> Result<Told, Obstacle>
    ensures { AnswersOnHive (question_at form (option_copied of.entry) inputs.now) result }
{
    match read(alloc, &inputs.hive) {
        Ok((root, _, version)) => match text_on(alloc, inputs, form, of, root, version) {
            Ok(text) => Ok(Told::done(text)),
            Err(_) => Err(no_memory()),
        },
        Err(ReadStop::Fault(fault)) => Err(Obstacle::Refused(Refusal::HiveFault(fault))),
        Err(ReadStop::Memory) => Err(no_memory()),
    }
}

/// The lines that the command line asks for, or the hive's first fault.
fn report_on(
    alloc: Global,
    inputs: &WhatifInputs,
    words: WhatifWords<'_>,
    form: ReportForm,
) -> Result<Told, Obstacle>
    ensures { AnswersOnHive (question_on form (whatif_seen words.entry) inputs.now) result }
{
    match written_name_if(alloc, words.of) {
        Ok(name) => report_at(alloc, inputs, form, name.as_ref()),
        Err(_) => Err(no_memory()),
    }
}

/// Gets what the command line names, and makes the lines. Nothing is printed.
fn seek<H: Host>(
    alloc: Global,
    words: WhatifWords<'_>,
    form: ReportForm,
    host: &mut H,
) -> Result<Told, Obstacle>
    ensures seeks { SeeksAnswer (question_in form (whatif_seen words.entry) (H.state host.old).files) result (H.state host.old) (H.state host.new) }
    ensures asks { AsksFor (whatif_search (whatif_seen words.entry)) result (H.state host.old) (H.state host.new) }
    ensures usage { result ≡ Err (Obstacle.Refused Refusal.Usage) → arguments_in (whatif_seen words.entry) ≡ Err Refusal.Usage }
    ensures refused { arguments_in (whatif_seen words.entry) ≡ Err Refusal.Usage → IsBadUsage result }
{
    match inputs_in(alloc, words, host) {
        Ok(inputs) => report_on(alloc, &inputs, words, form),
        Err(obstacle) => Err(obstacle),
    }
}

/// Gets what the command line names, and prints in one of the two forms what single failures do to the plain start; or prints the
/// first obstacle. Nothing is written.
pub fn whatif<H: Host>(
    alloc: Global,
    words: WhatifWords<'_>,
    form: ReportForm,
    host: &mut H,
) -> Status
    ensures decides { DecidesOnHive (question_in form (whatif_seen words.entry) (H.state host.old).files) result (H.state host.old) (H.state host.new) }
    ensures asked { AsksSoMany (asks_whatif (whatif_seen words.entry)) result (H.state host.old) (H.state host.new) }
    ensures usage { result ≡ Status.Usage → arguments_in (whatif_seen words.entry) ≡ Err Refusal.Usage }
    ensures refused { arguments_in (whatif_seen words.entry) ≡ Err Refusal.Usage → IsToldAs Status.Usage result }
{
    let told = seek(alloc, words, form, host);
    answer(alloc, host, told)
}
