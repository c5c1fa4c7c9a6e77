//! Lines in one of the two forms.

ghost use Rattle.std.specs.Prelude.{◌≡◌, ◌++◌, OnOk};
ghost use Rattle.std.specs.List.{flat_map};
ghost use Rattle.salvage_text.specs.Lines.{SequenceLine, VersionLine, BaseLine, LogLine, BytesLine, WalkedLine, FoundLine, SalvagedLine, SavedLine, RefusedLine, EndLine, printed, printed_lines};
ghost use Rattle.salvage_text.specs.Report.{log_lines, parent_line};

use crate::walk_text::push_walk_text;
use crate::{json, text, walk_text};
use nt_bytes::{HiveFault, HiveVersion, Units};
use report_text::line_text::ReportForm;
use salvage_bins::BrokenBin;
use salvage_file::{FileState, LogStop};
use salvage_parents::ParentLine;
use salvage_walk::WalkLine;
use std::alloc::{AllocError, Global};

pub(crate) fn push_sequence(
    out: &mut Vec<u8>,
    form: ReportForm,
    first: u32,
    second: u32,
    state: FileState,
) -> Result<(), AllocError>
    ensures { OnOk result (out.new.items ≡ out.old.items ++ printed form (SequenceLine first second state)) }
{
    match form {
        ReportForm::Text => text::push_sequence(out, first, second, state),
        ReportForm::Json => json::push_sequence(out, first, second, state),
    }
}

pub(crate) fn push_version(
    out: &mut Vec<u8>,
    form: ReportForm,
    version: HiveVersion,
) -> Result<(), AllocError>
    ensures { OnOk result (out.new.items ≡ out.old.items ++ printed form (VersionLine version)) }
{
    match form {
        ReportForm::Text => text::push_version(out, version),
        ReportForm::Json => json::push_version(out, version),
    }
}

fn push_base(out: &mut Vec<u8>, form: ReportForm, fault: HiveFault) -> Result<(), AllocError>
    ensures { OnOk result (out.new.items ≡ out.old.items ++ printed form (BaseLine fault)) }
{
    match form {
        ReportForm::Text => text::push_base(out, fault),
        ReportForm::Json => json::push_base(out, fault),
    }
}

/// Appends the lines of the base block's faults.
pub(crate) fn push_bases(
    out: &mut Vec<u8>,
    form: ReportForm,
    faults: &[HiveFault],
) -> Result<(), AllocError>
    ensures { OnOk result (out.new.items ≡ out.old.items ++ flat_map (λ fault. printed form (BaseLine fault)) faults.now) }
{
    for fault in faults {
        push_base(out, form, *fault)?;
    }
    Ok(())
}

fn push_log_line(out: &mut Vec<u8>, form: ReportForm, stop: LogStop) -> Result<(), AllocError>
    ensures { OnOk result (out.new.items ≡ out.old.items ++ printed form (LogLine stop)) }
{
    match form {
        ReportForm::Text => text::push_log(out, stop),
        ReportForm::Json => json::push_log(out, stop),
    }
}

/// Appends the line of the log's fault, where it has one.
pub(crate) fn push_log(
    out: &mut Vec<u8>,
    form: ReportForm,
    stop: Option<LogStop>,
) -> Result<(), AllocError>
    ensures { OnOk result (out.new.items ≡ out.old.items ++ printed_lines form (log_lines stop)) }
{
    match stop {
        Some(stop) => push_log_line(out, form, stop),
        None => Ok(()),
    }
}

fn push_bin(out: &mut Vec<u8>, form: ReportForm, broken: BrokenBin) -> Result<(), AllocError>
    ensures { OnOk result (out.new.items ≡ out.old.items ++ printed form (BytesLine broken)) }
{
    match form {
        ReportForm::Text => text::push_bytes(out, broken),
        ReportForm::Json => json::push_bytes(out, broken),
    }
}

/// Appends the lines of the bins that are not whole.
pub(crate) fn push_bins(
    out: &mut Vec<u8>,
    form: ReportForm,
    broken: &[BrokenBin],
) -> Result<(), AllocError>
    ensures { OnOk result (out.new.items ≡ out.old.items ++ flat_map (λ bin. printed form (BytesLine bin)) broken.now) }
{
    for bin in broken {
        push_bin(out, form, *bin)?;
    }
    Ok(())
}

fn push_walked(
    alloc: Global,
    out: &mut Vec<u8>,
    form: ReportForm,
    line: &WalkLine,
) -> Result<(), AllocError>
    ensures { OnOk result (out.new.items ≡ out.old.items ++ printed form (WalkedLine line.now)) }
{
    match form {
        ReportForm::Text => push_walk_text(alloc, out, line),
        ReportForm::Json => json::push_walk(out, line),
    }
}

/// Appends the lines of the walk.
pub(crate) fn push_walk(
    alloc: Global,
    out: &mut Vec<u8>,
    form: ReportForm,
    lines: &[WalkLine],
) -> Result<(), AllocError>
    ensures { OnOk result (out.new.items ≡ out.old.items ++ flat_map (λ line. printed form (WalkedLine line)) lines.now) }
{
    for line in lines {
        push_walked(alloc, out, form, line)?;
    }
    Ok(())
}

fn push_found(
    alloc: Global,
    out: &mut Vec<u8>,
    form: ReportForm,
    count: usize,
    path: &[Units],
) -> Result<(), AllocError>
    ensures { OnOk result (out.new.items ≡ out.old.items ++ printed form (FoundLine count path.now)) }
{
    match form {
        ReportForm::Text => walk_text::push_found(alloc, out, count, path),
        ReportForm::Json => json::push_found(out, count, path),
    }
}

fn push_parent(
    alloc: Global,
    out: &mut Vec<u8>,
    form: ReportForm,
    line: &ParentLine,
) -> Result<(), AllocError>
    ensures { OnOk result (out.new.items ≡ out.old.items ++ printed form (parent_line line.now)) }
{
    match line {
        ParentLine::Walked(line) => push_walked(alloc, out, form, line),
        ParentLine::Found(count, path) => push_found(alloc, out, form, *count, path.as_slice()),
    }
}

/// Appends the lines that are printed while keys are looked for by their parents.
pub(crate) fn push_said(
    alloc: Global,
    out: &mut Vec<u8>,
    form: ReportForm,
    lines: &[ParentLine],
) -> Result<(), AllocError>
    ensures { OnOk result (out.new.items ≡ out.old.items ++ flat_map (λ line. printed form (parent_line line)) lines.now) }
{
    for line in lines {
        push_parent(alloc, out, form, line)?;
    }
    Ok(())
}

pub(crate) fn push_salvaged(
    out: &mut Vec<u8>,
    form: ReportForm,
    keys: u64,
    values: u64,
    lost: u64,
) -> Result<(), AllocError>
    ensures { OnOk result (out.new.items ≡ out.old.items ++ printed form (SalvagedLine keys values lost)) }
{
    match form {
        ReportForm::Text => text::push_salvaged(out, keys, values, lost),
        ReportForm::Json => json::push_salvaged(out, keys, values, lost),
    }
}

pub(crate) fn push_saved(
    out: &mut Vec<u8>,
    form: ReportForm,
    number: u32,
    bytes: usize,
) -> Result<(), AllocError>
    ensures { OnOk result (out.new.items ≡ out.old.items ++ printed form (SavedLine number bytes)) }
{
    match form {
        ReportForm::Text => text::push_saved(out, number, bytes),
        ReportForm::Json => json::push_saved(out, number, bytes),
    }
}

pub(crate) fn push_refused(
    out: &mut Vec<u8>,
    form: ReportForm,
    word: &[u8],
) -> Result<(), AllocError>
    ensures { OnOk result (out.new.items ≡ out.old.items ++ printed form (RefusedLine word.now)) }
{
    match form {
        ReportForm::Text => text::push_refused(out, word),
        ReportForm::Json => json::push_refused(out, word),
    }
}

pub(crate) fn push_end(out: &mut Vec<u8>, form: ReportForm) -> Result<(), AllocError>
    ensures { OnOk result (out.new.items ≡ out.old.items ++ printed form EndLine) }
{
    match form {
        ReportForm::Text => out.extend_from_slice(b"end\n"),
        ReportForm::Json => json::push_end(out),
    }
}
