//! The command: a hive in, what is told of the devices of a control set or the first obstacle out.

ghost use Rattle.std.specs.Prelude.{◌≡◌, Err, IfOk};
ghost use Rattle.command_parts.specs.command_parts.Inputs.{AsksHive, AsksSoMany};
ghost use Rattle.command_parts.specs.command_parts.OnHive.{AnswersOnHive, SeeksAnswer, DecidesOnHive, told_answer};
ghost use Rattle.command_words.specs.Views.{devices_seen};
ghost use Rattle.device_rule.specs.Report.{told_number};
ghost use Rattle.device_command.specs.Answer.{set_answer, tree_answer, selected, question_at, question_on, question_in, asks_devices};

use crate::keys::keys_of;
use crate::printing::lines_text;
use command_parts::command_parts::{
    HiveFiles, Obstacle, Refusal, Status, Told, answer, hive_in, judge_cells, no_memory,
};
use command_words::DevicesWords;
use device_rule::{Selection, device_report};
use hive_edit::HiveBytes;
use nt_bytes::ReadStop;
use nt_edge::Host;
use nt_names::written_name::written_name_if;
use report_text::line_text::ReportForm;
use set_commands::hive_sets::select_numbers;
use std::alloc::{AllocError, Global};

/// The number of the set that is told of.
fn told_number(alloc: Global, hive: &HiveBytes, set: Option<u32>) -> Result<u32, AllocError>
    ensures { IfOk result (λ n. n ≡ told_number set hive.now.tree) }
{
    match set {
        Some(number) => Ok(number),
        None => Ok(select_numbers(alloc, hive)?.default),
    }
}

/// What is told of the set of a number. Of the hive's tree only the four keys of the set are made.
fn told_of(
    alloc: Global,
    form: ReportForm,
    hive: &HiveBytes,
    number: u32,
    only: &Selection,
) -> Result<Told, AllocError>
    ensures { IfOk result (λ told. told_answer told ≡ set_answer form number only.now hive.now.tree) }
{
    let keys = keys_of(alloc, hive, number)?;
    let report = device_report(alloc, number, keys, only)?;
    let text = lines_text(alloc, form, report.lines.as_slice())?;
    Ok(Told {
        text,
        found: report.found != 0,
    })
}

/// What is told of the set that is asked for, or else of the Default that a start takes.
fn told_on(
    alloc: Global,
    form: ReportForm,
    hive: &HiveBytes,
    set: Option<u32>,
    only: &Selection,
) -> Result<Told, AllocError>
    ensures { IfOk result (λ told. told_answer told ≡ tree_answer form set only.now hive.now.tree) }
{
    let number = told_number(alloc, hive, set)?;
    told_of(alloc, form, hive, number, only)
}

/// What is told of a hive, or its first fault.
fn report_at(
    alloc: Global,
    files: &HiveFiles,
    form: ReportForm,
    set: Option<u32>,
    only: &Selection,
) -> Result<Told, Obstacle>
    ensures { AnswersOnHive (question_at form set only.now files.now) result }
{
    match judge_cells(alloc, files) {
        Ok((hive, _, _)) => match told_on(alloc, form, &hive, set, only) {
            Ok(told) => Ok(told),
            Err(_) => Err(no_memory()),
        },
        Err(ReadStop::Fault(fault)) => Err(Obstacle::Refused(Refusal::HiveFault(fault))),
        Err(ReadStop::Memory) => Err(no_memory()),
    }
}

/// What the command line selects.
fn selected(alloc: Global, words: &DevicesWords<'_>) -> Result<Selection, AllocError>
    ensures { IfOk result (λ only. only ≡ selected (devices_seen words.now)) }
{
    Ok(Selection {
        of: written_name_if(alloc, words.of)?,
        findings: words.findings,
        ids: words.ids,
        critical: words.critical,
    })
}

/// What the command line asks of a hive, or the hive's first fault.
fn report_on(
    alloc: Global,
    files: &HiveFiles,
    words: DevicesWords<'_>,
    form: ReportForm,
) -> Result<Told, Obstacle>
    ensures { AnswersOnHive (question_on form (devices_seen words.entry) files.now) result }
{
    match selected(alloc, &words) {
        Ok(only) => report_at(alloc, files, form, words.set, &only),
        Err(_) => Err(no_memory()),
    }
}

/// Gets the hive that the command line names, and makes the lines. Nothing is printed.
fn seek<H: Host>(
    alloc: Global,
    words: DevicesWords<'_>,
    form: ReportForm,
    host: &mut H,
) -> Result<Told, Obstacle>
    ensures seeks { SeeksAnswer (question_in form (devices_seen words.entry) (H.state host.old).files) result (H.state host.old) (H.state host.new) }
    ensures asks { AsksHive (devices_seen words.entry).hive (devices_seen words.entry).log result (H.state host.old) (H.state host.new) }
    ensures kept { result ≡ Err (Obstacle.Refused Refusal.Usage) → ⊥ }
{
    match hive_in(alloc, host, words.hive, words.log) {
        Ok(files) => report_on(alloc, &files, words, form),
        Err(obstacle) => Err(obstacle),
    }
}

/// Gets the hive that the command line names, and prints in one of the two forms which drivers Plug and Play loads for each device of a
/// control set and what prevents it, with a status that says whether there are findings; or prints the first obstacle. Nothing is
/// written.
pub fn devices<H: Host>(
    alloc: Global,
    words: DevicesWords<'_>,
    form: ReportForm,
    host: &mut H,
) -> Status
    ensures decides { DecidesOnHive (question_in form (devices_seen words.entry) (H.state host.old).files) result (H.state host.old) (H.state host.new) }
    ensures asked { AsksSoMany (asks_devices (devices_seen words.entry)) result (H.state host.old) (H.state host.new) }
    ensures kept { result ≡ Status.Usage → ⊥ }
{
    let told = seek(alloc, words, form, host);
    answer(alloc, host, told)
}
