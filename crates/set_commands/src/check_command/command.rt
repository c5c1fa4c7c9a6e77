//! The command: a hive in, what is suspicious about its services or the first obstacle out.

ghost use Rattle.std.specs.Prelude.{◌≡◌, ◌∷◌, [], Err, IfOk};
ghost use Rattle.hive_model.specs.Valid.{HoldsKeys};
ghost use Rattle.set_commands.specs.hive_sets.Shows.{ShowsHive};
ghost use Rattle.command_parts.specs.command_parts.Inputs.{AsksHive, AsksSoMany};
ghost use Rattle.command_parts.specs.command_parts.OnHive.{AnswersOnHive, SeeksAnswer, DecidesOnHive, told_answer};
ghost use Rattle.command_words.specs.Views.{check_seen};
ghost use Rattle.set_commands.specs.check_command.Answer.{tree_answer, question_at, question_in, asks_check};
ghost use Rattle.set_commands.specs.check_command.Read.{checked_number};

use crate::hive_sets::{part, select_numbers};
use check_text::check_text::lines_text;
use command_parts::command_parts::{
    HiveFiles, Obstacle, Refusal, Status, Told, answer, hive_in, judge_cells, no_memory,
};
use command_words::CheckWords;
use hive_edit::HiveBytes;
use nt_bytes::ReadStop;
use nt_edge::Host;
use reg_tree::Key;
use report_text::line_text::ReportForm;
use std::alloc::{AllocError, Global};

/// The lines of a check of a tree.
#[tactic(auto, unfolding(service_check::specs::Check::check_lines))]
fn told_by(
    alloc: Global,
    form: ReportForm,
    root: &Key,
    set: Option<u32>,
    order: bool,
) -> Result<Told, AllocError>
    requires { HoldsKeys root.now }
    ensures { IfOk result (λ told. told_answer told ≡ tree_answer form set order root.now) }
{
    let checked = service_check::check(alloc, root, set, order)?;
    let text = lines_text(alloc, form, checked.lines.as_slice())?;
    Ok(Told {
        text,
        found: checked.found != 0,
    })
}

/// The number of the set that is checked.
fn checked_number(alloc: Global, hive: &HiveBytes, set: Option<u32>) -> Result<u32, AllocError>
    ensures { IfOk result (λ n. n ≡ checked_number set hive.now.tree) }
{
    match set {
        Some(number) => Ok(number),
        None => Ok(select_numbers(alloc, hive)?.default),
    }
}

/// The part of a hive's tree that the check needs.
fn checked_part(alloc: Global, hive: &HiveBytes, set: Option<u32>) -> Result<Key, AllocError>
    ensures { IfOk result (ShowsHive (checked_number set hive.now.tree ∷ []) hive.now.tree) }
{
    let number = checked_number(alloc, hive, set)?;
    part(alloc, hive, &[number])
}

/// The lines of a check of a hive. Of its tree only the part that they need is made.
fn told_of(
    alloc: Global,
    form: ReportForm,
    hive: &HiveBytes,
    set: Option<u32>,
    order: bool,
) -> Result<Told, AllocError>
    ensures { IfOk result (λ told. told_answer told ≡ tree_answer form set order hive.now.tree) }
{
    let root = checked_part(alloc, hive, set)?;
    told_by(alloc, form, &root, set, order)
}

/// The lines of a check of a hive, or its first fault.
fn report_at(
    alloc: Global,
    files: &HiveFiles,
    form: ReportForm,
    set: Option<u32>,
    order: bool,
) -> Result<Told, Obstacle>
    ensures { AnswersOnHive (question_at form set order files.now) result }
{
    match judge_cells(alloc, files) {
        Ok((hive, _, _)) => match told_of(alloc, form, &hive, set, order) {
            Ok(told) => Ok(told),
            Err(_) => Err(no_memory()),
        },
        Err(ReadStop::Fault(fault)) => Err(Obstacle::Refused(Refusal::HiveFault(fault))),
        Err(ReadStop::Memory) => Err(no_memory()),
    }
}

/// Gets the hive that the command line names, and makes the lines. Nothing is printed.
fn seek<H: Host>(
    alloc: Global,
    words: CheckWords<'_>,
    form: ReportForm,
    host: &mut H,
) -> Result<Told, Obstacle>
    ensures seeks { SeeksAnswer (question_in form (check_seen words.entry) (H.state host.old).files) result (H.state host.old) (H.state host.new) }
    ensures asks { AsksHive (check_seen words.entry).hive (check_seen words.entry).log result (H.state host.old) (H.state host.new) }
    ensures kept { result ≡ Err (Obstacle.Refused Refusal.Usage) → ⊥ }
{
    match hive_in(alloc, host, words.hive, words.log) {
        Ok(files) => report_at(alloc, &files, form, words.set, words.order),
        Err(obstacle) => Err(obstacle),
    }
}

/// Gets the hive that the command line names, and prints what is suspicious about its services in one of the two forms, with a
/// status that says whether something is; or prints the first obstacle. Nothing is written.
pub fn check<H: Host>(
    alloc: Global,
    words: CheckWords<'_>,
    form: ReportForm,
    host: &mut H,
) -> Status
    ensures decides { DecidesOnHive (question_in form (check_seen words.entry) (H.state host.old).files) result (H.state host.old) (H.state host.new) }
    ensures asked { AsksSoMany (asks_check (check_seen words.entry)) result (H.state host.old) (H.state host.new) }
    ensures kept { result ≡ Status.Usage → ⊥ }
{
    let told = seek(alloc, words, form, host);
    answer(alloc, host, told)
}
