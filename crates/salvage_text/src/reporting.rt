//! The report on a damaged hive.

ghost use Rattle.std.specs.Prelude.{◌≡◌, ◌++◌, Some, OnOk, IfOk};
ghost use Rattle.salvage_text.specs.Lines.{printed, printed_lines};
ghost use Rattle.salvage_text.specs.Report.{file_in, file_lines, is_found, is_refused, is_saved, lines_of, report_of, rest_lines, salvaged_line, saving_lines};

use crate::counting::{has_fault, has_said_fault, keys_in, losses, values_in};
use crate::printing::{
    push_bases, push_bins, push_end, push_log, push_refused, push_said, push_salvaged, push_saved,
    push_sequence, push_version, push_walk,
};
use nt_bytes::Bytes;
use report_text::line_text::ReportForm;
use salvage_file::{SalvagedHive, Saving};
use std::alloc::{AllocError, Global};

/// A report, whether something was found, and the file with whether it is saved.
#[derive(Drop)]
pub struct Report {
    pub text: Bytes,
    pub found: bool,
    pub saved: bool,
    pub file: Bytes,
}

fn push_some_saving(out: &mut Vec<u8>, form: ReportForm, saving: &Saving) -> Result<(), AllocError>
    ensures { OnOk result (out.new.items ≡ out.old.items ++ printed_lines form (saving_lines (Some saving.now))) }
{
    match saving {
        Saving::NoRoot => push_refused(out, form, b"no-root"),
        Saving::Full => push_refused(out, form, b"full"),
        Saving::Saved(number, file) => push_saved(out, form, *number, file.len()),
    }
}

fn push_saving(
    out: &mut Vec<u8>,
    form: ReportForm,
    saving: &Option<Saving>,
) -> Result<(), AllocError>
    ensures { OnOk result (out.new.items ≡ out.old.items ++ printed_lines form (saving_lines saving.now)) }
{
    match saving {
        Some(saving) => push_some_saving(out, form, saving),
        None => Ok(()),
    }
}

fn push_counts(out: &mut Vec<u8>, form: ReportForm, hive: &SalvagedHive) -> Result<(), AllocError>
    ensures { OnOk result (out.new.items ≡ out.old.items ++ printed form (salvaged_line hive.now)) }
{
    let keys = keys_in(&hive.tree);
    let values = values_in(&hive.tree);
    let lost = losses(hive.lines.as_slice(), hive.said.as_slice());
    push_salvaged(out, form, keys, values, lost)
}

// The lines on the file.
fn push_file(out: &mut Vec<u8>, form: ReportForm, hive: &SalvagedHive) -> Result<(), AllocError>
    ensures { OnOk result (out.new.items ≡ out.old.items ++ printed_lines form (file_lines hive.now)) }
{
    push_sequence(out, form, hive.first, hive.second, hive.state)?;
    push_version(out, form, hive.version)?;
    push_bases(out, form, hive.faults.as_slice())?;
    push_log(out, form, hive.log)?;
    push_bins(out, form, hive.broken.as_slice())
}

// The lines after those on the file.
fn push_rest(
    alloc: Global,
    out: &mut Vec<u8>,
    form: ReportForm,
    hive: &SalvagedHive,
) -> Result<(), AllocError>
    ensures { OnOk result (out.new.items ≡ out.old.items ++ printed_lines form (rest_lines hive.now)) }
{
    push_walk(alloc, out, form, hive.lines.as_slice())?;
    push_said(alloc, out, form, hive.said.as_slice())?;
    push_counts(out, form, hive)?;
    push_saving(out, form, &hive.saving)?;
    push_end(out, form)
}

fn text_of(alloc: Global, form: ReportForm, hive: &SalvagedHive) -> Result<Bytes, AllocError>
    ensures { IfOk result (λ text. text ≡ printed_lines form (lines_of hive.now)) }
{
    let mut text = Vec::new(alloc);
    push_file(&mut text, form, hive)?;
    push_rest(alloc, &mut text, form, hive)?;
    Ok(Bytes::from_vec(text))
}

fn is_refused(saving: &Option<Saving>) -> bool
    ensures { result ≡ is_refused saving.now }
{
    match saving {
        None => false,
        Some(Saving::NoRoot) => true,
        Some(Saving::Full) => true,
        Some(Saving::Saved(_, _)) => false,
    }
}

fn is_saved(saving: &Option<Saving>) -> bool
    ensures { result ≡ is_saved saving.now }
{
    match saving {
        None => false,
        Some(Saving::NoRoot) => false,
        Some(Saving::Full) => false,
        Some(Saving::Saved(_, _)) => true,
    }
}

fn file_in(alloc: Global, saving: Option<Saving>) -> Bytes
    ensures { result ≡ file_in saving }
{
    match saving {
        None => Bytes::new(alloc),
        Some(Saving::NoRoot) => Bytes::new(alloc),
        Some(Saving::Full) => Bytes::new(alloc),
        Some(Saving::Saved(_, file)) => file,
    }
}

fn is_found(hive: &SalvagedHive) -> bool
    ensures { result ≡ is_found hive.now }
{
    !hive.faults.is_empty()
        || hive.log.is_some()
        || !hive.broken.is_empty()
        || has_fault(hive.lines.as_slice())
        || has_said_fault(hive.said.as_slice())
        || is_refused(&hive.saving)
}

/// The report on a damaged hive, in a form, and the file to save.
pub fn salvage_report(
    alloc: Global,
    form: ReportForm,
    hive: SalvagedHive,
) -> Result<Report, AllocError>
    ensures { IfOk result (λ report. report ≡ report_of form hive) }
{
    let text = text_of(alloc, form, &hive)?;
    let found = is_found(&hive);
    let saved = is_saved(&hive.saving);
    let file = file_in(alloc, hive.saving);
    Ok(Report {
        text,
        found,
        saved,
        file,
    })
}
