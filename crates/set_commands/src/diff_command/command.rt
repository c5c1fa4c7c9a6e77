//! The command: one or two hives in, what differs or the first obstacle out.

ghost use Rattle.std.specs.Prelude.{◌≡◌, ◌++◌, Err, IfOk, codes};
ghost use Rattle.std.specs.Fmt.{decimal};
ghost use Rattle.command_parts.specs.command_parts.Placed.{image_in};
ghost use Rattle.command_words.specs.Views.{diff_seen};
ghost use Rattle.set_commands.specs.diff_command.Answer.{hive_fault, with_fault, IsWithFault, IsOnImage, IsSame, IsOther, IsSecond, IsAnswer, DecidesDiff, FindsBy, SeeksBy};
ghost use Rattle.set_commands.specs.diff_command.Asks.{AsksAfter, AsksSearch, AsksDiff, AsksWith};

use crate::diff_command::comparing::{found_alone, found_between};
use command_parts::command_parts::{
    HiveFiles, Obstacle, Refusal, Status, hive_in, hive_kind, judge_cells, no_memory, refuse,
    stopped, tell,
};
use command_words::DiffWords;
use hive_edit::HiveBytes;
use nt_bytes::{Bytes, HiveFault, ReadStop};
use nt_edge::Host;
use report_text::line_text::ReportForm;
use std::alloc::{AllocError, Global};

/// A text that is printed, and the status after it.
#[derive(Debug, Drop)]
pub struct Finding {
    pub text: Bytes,
    pub status: Status,
}

fn with_line(alloc: Global, kind: &str, at: u32) -> Result<Vec<u8>, AllocError>
    ensures { IfOk result (λ l. l.items ≡ codes "with fault " ++ kind.now ++ codes " at " ++ decimal at ++ codes "\n") }
{
    Ok(format!(in alloc; "with fault {kind} at {at}\n")?.into_bytes())
}

/// The answer on a fault of the second hive.
fn with_fault(alloc: Global, fault: HiveFault) -> Result<Finding, Obstacle>
    ensures { FindsBy (IsWithFault fault) result }
{
    match with_line(alloc, hive_kind(fault.kind), fault.at) {
        Ok(line) => Ok(Finding {
            text: Bytes::from_vec(line),
            status: Status::HiveFault,
        }),
        Err(_) => Err(no_memory()),
    }
}

/// What is found of two sets of the first hive.
fn alone(
    alloc: Global,
    form: ReportForm,
    words: DiffWords<'_>,
    hive: &HiveBytes,
) -> Result<Finding, Obstacle>
    ensures { FindsBy (IsSame form (diff_seen words.entry) hive.now.tree) result }
{
    match found_alone(alloc, form, words, hive) {
        Ok(finding) => Ok(finding),
        Err(_) => Err(no_memory()),
    }
}

/// What is found of sets of two hives.
fn between(
    alloc: Global,
    form: ReportForm,
    words: DiffWords<'_>,
    first: &HiveBytes,
    second: &HiveBytes,
) -> Result<Finding, Obstacle>
    ensures { FindsBy (IsOther form (diff_seen words.entry) first.now.tree second.now.tree) result }
{
    match found_between(alloc, form, words, first, second) {
        Ok(finding) => Ok(finding),
        Err(_) => Err(no_memory()),
    }
}

/// The same, or the second hive's first fault.
fn with_files(
    alloc: Global,
    form: ReportForm,
    words: DiffWords<'_>,
    first: &HiveBytes,
    files: &HiveFiles,
) -> Result<Finding, Obstacle>
    ensures { FindsBy (IsOnImage (image_in files.now) with_fault (IsOther form (diff_seen words.entry) first.now.tree)) result }
{
    match judge_cells(alloc, files) {
        Ok((second, _, _)) => between(alloc, form, words, first, &second),
        Err(ReadStop::Fault(fault)) => with_fault(alloc, fault),
        Err(ReadStop::Memory) => Err(no_memory()),
    }
}

/// Gets the second hive, where the command line names one, and compares.
fn seek_second<H: Host>(
    alloc: Global,
    form: ReportForm,
    words: DiffWords<'_>,
    first: &HiveBytes,
    host: &mut H,
) -> Result<Finding, Obstacle>
    ensures seeks { SeeksBy (λ files. IsSecond form (diff_seen words.entry) files first.now.tree) result (H.state host.old) (H.state host.new) }
    ensures asks { AsksWith (diff_seen words.entry) result (H.state host.old) (H.state host.new) }
    ensures kept { result ≡ Err (Obstacle.Refused Refusal.Usage) → ⊥ }
{
    let Some(name) = words.with else {
        return alone(alloc, form, words, first);
    };
    match hive_in(alloc, host, name, words.with_log) {
        Ok(files) => with_files(alloc, form, words, first, &files),
        Err(obstacle) => Err(obstacle),
    }
}

/// The first hive's first fault, or what follows it.
fn seek_on<H: Host>(
    alloc: Global,
    form: ReportForm,
    words: DiffWords<'_>,
    files: &HiveFiles,
    host: &mut H,
) -> Result<Finding, Obstacle>
    ensures seeks { SeeksBy (λ held. IsOnImage (image_in files.now) hive_fault (IsSecond form (diff_seen words.entry) held)) result (H.state host.old) (H.state host.new) }
    ensures asks { AsksAfter files.now (diff_seen words.entry) result (H.state host.old) (H.state host.new) }
    ensures kept { result ≡ Err (Obstacle.Refused Refusal.Usage) → ⊥ }
{
    match judge_cells(alloc, files) {
        Ok((first, _, _)) => seek_second(alloc, form, words, &first, host),
        Err(ReadStop::Fault(fault)) => Err(Obstacle::Refused(Refusal::HiveFault(fault))),
        Err(ReadStop::Memory) => Err(no_memory()),
    }
}

/// Gets what the command line names, and compares. Nothing is printed.
fn seek<H: Host>(
    alloc: Global,
    words: DiffWords<'_>,
    form: ReportForm,
    host: &mut H,
) -> Result<Finding, Obstacle>
    ensures seeks { SeeksBy (IsAnswer form (diff_seen words.entry)) result (H.state host.old) (H.state host.new) }
    ensures asks { AsksSearch (diff_seen words.entry) result (H.state host.old) (H.state host.new) }
    ensures kept { result ≡ Err (Obstacle.Refused Refusal.Usage) → ⊥ }
{
    match hive_in(alloc, host, words.hive, words.log) {
        Ok(files) => seek_on(alloc, form, words, &files, host),
        Err(obstacle) => Err(obstacle),
    }
}

/// Gets the hive that the command line names, and the second one, and prints what differs between two of their sets in one of the two
/// forms, with a status that says whether something does; or prints the first obstacle. Nothing is written.
pub fn diff<H: Host>(alloc: Global, words: DiffWords<'_>, form: ReportForm, host: &mut H) -> Status
    ensures decides { DecidesDiff form (diff_seen words.entry) result (H.state host.old) (H.state host.new) }
    ensures asked { AsksDiff (diff_seen words.entry) result (H.state host.old) (H.state host.new) }
    ensures kept { result ≡ Status.Usage → ⊥ }
{
    match seek(alloc, words, form, host) {
        Ok(finding) => tell(host, finding.text.as_slice(), finding.status),
        Err(Obstacle::Refused(why)) => refuse(alloc, host, &why),
        Err(Obstacle::Stopped(stop)) => stopped(stop),
    }
}
