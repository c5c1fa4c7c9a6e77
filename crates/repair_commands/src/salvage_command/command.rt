//! The command: a hive and its log in, a report and a sound hive or the first obstacle out.

ghost use Rattle.std.specs.Prelude.{◌≡◌, Ok, Err, IfOk};
ghost use Rattle.command_parts.specs.command_parts.Inputs.{AsksHive, AsksSoMany};
ghost use Rattle.command_parts.specs.command_parts.Leaves.{Looks, Reads};
ghost use Rattle.command_parts.specs.command_parts.Reporting.{DecidesReport};
ghost use Rattle.command_words.specs.Views.{salvage_seen};
ghost use Rattle.repair_commands.specs.salvage_command.Answer.{asks_salvage, file_report, log_bytes, report_in, report_on};

use command_parts::command_parts::{
    FileReport, HiveFiles, Obstacle, Refusal, Status, hive_in, no_memory, report,
};
use command_words::SalvageWords;
use nt_bytes::Bytes;
use nt_edge::Host;
use report_text::line_text::ReportForm;
use salvage_file::salvage_file;
use salvage_text::{Report, salvage_report};
use std::alloc::{AllocError, Global};

/// The same as a report with a file.
fn file_report(report: Report) -> FileReport
    ensures { result ≡ file_report report }
{
    let Report {
        text,
        found,
        saved,
        file,
    } = report;
    FileReport {
        text,
        found,
        saved,
        file,
    }
}

fn log_bytes(alloc: Global, log: Option<Bytes>) -> Bytes
    ensures { result ≡ log_bytes log }
{
    match log {
        Some(bytes) => bytes,
        None => Bytes::new(alloc),
    }
}

/// The report on a hive and its log.
fn report_of(
    alloc: Global,
    words: SalvageWords<'_>,
    form: ReportForm,
    files: HiveFiles,
) -> Result<FileReport, AllocError>
    ensures { IfOk result (λ r. r ≡ report_on form (salvage_seen words.entry) files) }
{
    let HiveFiles { primary, log } = files;
    let log = log_bytes(alloc, log);
    let hive = salvage_file(
        alloc,
        words.by_parent,
        words.save_hive.is_some(),
        primary,
        log,
    )?;
    Ok(file_report(salvage_report(alloc, form, hive)?))
}

/// The same, as the answer of a search.
fn report_on(
    alloc: Global,
    words: SalvageWords<'_>,
    form: ReportForm,
    files: HiveFiles,
) -> Result<FileReport, Obstacle>
    ensures read { Reads (Ok (report_on form (salvage_seen words.entry) files)) result }
    ensures kept { result ≡ Err (Obstacle.Refused Refusal.Usage) → ⊥ }
{
    match report_of(alloc, words, form, files) {
        Ok(report) => Ok(report),
        Err(_) => Err(no_memory()),
    }
}

/// Gets what the command line names, and makes the report. Nothing is printed.
fn seek<H: Host>(
    alloc: Global,
    words: SalvageWords<'_>,
    form: ReportForm,
    host: &mut H,
) -> Result<FileReport, Obstacle>
    ensures looks { Looks (report_in form (salvage_seen words.entry) (H.state host.old).files) result (H.state host.old) (H.state host.new) }
    ensures asks { AsksHive (salvage_seen words.entry).hive (salvage_seen words.entry).log result (H.state host.old) (H.state host.new) }
    ensures kept { result ≡ Err (Obstacle.Refused Refusal.Usage) → ⊥ }
{
    match hive_in(alloc, host, words.hive, words.log) {
        Ok(files) => report_on(alloc, words, form, files),
        Err(obstacle) => Err(obstacle),
    }
}

/// Gets the hive and the log that the command line names, prints what can still be read of the hive, and saves a sound hive of
/// that where the command line asks for it; or prints the first obstacle.
pub fn salvage<H: Host>(
    alloc: Global,
    words: SalvageWords<'_>,
    form: ReportForm,
    host: &mut H,
) -> Status
    ensures decides { DecidesReport (report_in form (salvage_seen words.entry) (H.state host.old).files) (salvage_seen words.entry).save_hive result
        (H.state host.old) (H.state host.new) }
    ensures asked { AsksSoMany (asks_salvage (salvage_seen words.entry)) result (H.state host.old) (H.state host.new) }
    ensures kept { result ≡ Status.Usage → ⊥ }
{
    let found = seek(alloc, words, form, host);
    report(alloc, host, words.save_hive, found)
}
