//! The command: a hive and its logs in, a report and a clean hive or the first obstacle out.

ghost use Rattle.std.specs.Prelude.{◌≡◌, Err};
ghost use Rattle.command_parts.specs.command_parts.Inputs.{AsksSoMany};
ghost use Rattle.command_parts.specs.command_parts.Leaves.{Looks, Reads};
ghost use Rattle.command_parts.specs.command_parts.Reporting.{DecidesReport};
ghost use Rattle.command_words.specs.Views.{replay_seen};
ghost use Rattle.command_parts.specs.input_search.Search.{AsksFor};
ghost use Rattle.log_replay.specs.Replay.{replay_of};
ghost use Rattle.repair_commands.specs.replay_command.Inputs.{logs_in, asks_replay, replay_search};
ghost use Rattle.repair_commands.specs.replay_command.Answer.{file_report, report_by, report_in};

use crate::replay_command::inputs::{ReplayInputs, inputs_in, logs_in};
use crate::replay_text::{Report, replay_report};
use command_parts::command_parts::{FileReport, Obstacle, Refusal, Status, no_memory, report};
use command_words::ReplayWords;
use log_replay::LogFile;
use nt_bytes::{Bytes, ReadStop, Row};
use nt_edge::Host;
use report_text::line_text::ReportForm;
use std::alloc::Global;

/// The same as a report with a file.
fn file_report(report: Report) -> FileReport
    ensures { result ≡ file_report report }
{
    let Report {
        text,
        found,
        saved,
        file,
    } = report;
    FileReport {
        text,
        found,
        saved,
        file,
    }
}

/// The report on what these logs make of a hive, or the hive's fault.
fn report_by(
    alloc: Global,
    form: ReportForm,
    asked: bool,
    hive: Bytes,
    files: Row<LogFile>,
) -> Result<FileReport, Obstacle>
    ensures read { Reads (report_by form asked (replay_of hive files)) result }
    ensures kept { result ≡ Err (Obstacle.Refused Refusal.Usage) → ⊥ }
{
    match log_replay::replay(alloc, hive, files) {
        Ok(outcome) => match replay_report(alloc, form, asked, outcome) {
            Ok(report) => Ok(file_report(report)),
            Err(_) => Err(no_memory()),
        },
        Err(ReadStop::Fault(fault)) => Err(Obstacle::Refused(Refusal::HiveFault(fault))),
        Err(ReadStop::Memory) => Err(no_memory()),
    }
}

/// The same of what was read.
fn report_on(
    alloc: Global,
    form: ReportForm,
    asked: bool,
    inputs: ReplayInputs,
) -> Result<FileReport, Obstacle>
    ensures read { Reads (report_by form asked (replay_of inputs.hive (logs_in inputs))) result }
    ensures kept { result ≡ Err (Obstacle.Refused Refusal.Usage) → ⊥ }
{
    let ReplayInputs {
        hive,
        log,
        log1,
        log2,
    } = inputs;
    match logs_in(alloc, log, log1, log2) {
        Ok(files) => report_by(alloc, form, asked, hive, files),
        Err(_) => Err(no_memory()),
    }
}

/// Gets what the command line names, and makes the report. Nothing is printed.
fn seek<H: Host>(
    alloc: Global,
    words: ReplayWords<'_>,
    form: ReportForm,
    host: &mut H,
) -> Result<FileReport, Obstacle>
    ensures looks { Looks (report_in form (replay_seen words.entry) (H.state host.old).files) result (H.state host.old) (H.state host.new) }
    ensures asks { AsksFor (replay_search (replay_seen words.entry)) result (H.state host.old) (H.state host.new) }
    ensures kept { result ≡ Err (Obstacle.Refused Refusal.Usage) → ⊥ }
{
    match inputs_in(alloc, words, host) {
        Ok(inputs) => report_on(alloc, form, words.save_hive.is_some(), inputs),
        Err(obstacle) => Err(obstacle),
    }
}

/// Gets the hive and the logs that the command line names, prints what the logs make of the hive, and saves the result where the command line asks
/// for that and it is clean; or prints the first obstacle.
pub fn replay<H: Host>(
    alloc: Global,
    words: ReplayWords<'_>,
    form: ReportForm,
    host: &mut H,
) -> Status
    ensures decides { DecidesReport (report_in form (replay_seen words.entry) (H.state host.old).files) (replay_seen words.entry).save_hive result
        (H.state host.old) (H.state host.new) }
    ensures asked { AsksSoMany (asks_replay (replay_seen words.entry)) result (H.state host.old) (H.state host.new) }
    ensures kept { result ≡ Status.Usage → ⊥ }
{
    let found = seek(alloc, words, form, host);
    report(alloc, host, words.save_hive, found)
}
