//! The report of `safe`, line by line.

ghost use Rattle.std.specs.Prelude.{◌≡◌, ◌++◌, [], false, map, None, IfOk, OnOk};
ghost use Rattle.hive_model.specs.Valid.{HoldsKeys};
ghost use Rattle.boot_ini.specs.boot_ini.Choice.{path_at};
ghost use Rattle.report_text.specs.line_objects.Objects.{line_json, printed, printed_lines};
ghost use Rattle.safe_boot.specs.Lines as safe;
ghost use Rattle.report_words.specs.declared.line.Line.TheVariants.{Entry as EntryLine, Set as SetLine, Verdict as VerdictLine, End as EndLine};
ghost use Rattle.start_model.specs.Lines.{line_text};
ghost use Rattle.safe_command.specs.Report.{mode_at, mode_word, mode_text, verdict_lines, set_lines, default_lines, system_text, other_text, report_of};

use crate::inputs::SafeInputs;
use boot_ini::boot_ini::{BootIni, Chosen, choose};
use boot_machine::boot_machine::phase_word;
use nt_bytes::Bytes;
use reg_tree::Key;
use report_text::boot_report::{Line, TryWord, Verdict, line_bytes};
use report_text::line_objects::{
    push_end_object, push_entry_object, push_ok_object, push_phase_object, push_set_object,
    push_unmet_object, push_verdict_object, push_word_object,
};
use report_text::line_text::ReportForm;
use safe_boot::{SafeLine, SafeMode, safe_mode, safe_start_by};
use select_keys::{select_numbers, set_of};
use std::alloc::{AllocError, Global};

/// The report on a system, its boot.ini and the tree of its hive, of which each key must be one that a hive can hold.
pub(crate) fn report_text(
    alloc: Global,
    inputs: &SafeInputs,
    form: ReportForm,
    root: &Key,
) -> Result<Bytes, AllocError>
    requires { HoldsKeys root.now }
    ensures { IfOk result (λ text. text ≡ report_of form inputs.now.mode inputs.now.images inputs.now.ini inputs.now.system root.now) }
{
    let ini = &inputs.ini;
    match choose(alloc, ini, None, &inputs.system)? {
        Chosen::Entry(number) => {
            system_text(alloc, form, inputs.mode, inputs.images, ini, number, root)
        }
        Chosen::NoEntry => verdict_text(alloc, form, Verdict::NoEntry),
        Chosen::OtherLoader(number) => other_text(alloc, form, ini, number, Verdict::OtherLoader),
        Chosen::NoSystem(number) => other_text(alloc, form, ini, number, Verdict::NoSystem),
    }
}

// ---- by what the start takes

/// The entry, the mode and the start.
fn system_text(
    alloc: Global,
    form: ReportForm,
    named: Option<SafeMode>,
    images: bool,
    ini: &BootIni,
    number: u32,
    root: &Key,
) -> Result<Bytes, AllocError>
    requires { HoldsKeys root.now }
    ensures { IfOk result (λ text. text ≡ system_text form named images ini.now number root.now) }
{
    let mode = mode_of(named, ini, number);
    let mut text = Vec::new(alloc);
    put_entry(alloc, &mut text, form, ini, number)?;
    put_mode(&mut text, form, mode)?;
    put_default(alloc, &mut text, form, root, mode, images)?;
    Ok(Bytes::from_vec(text))
}

/// The entry, and the verdict that the start ends with.
fn other_text(
    alloc: Global,
    form: ReportForm,
    ini: &BootIni,
    number: u32,
    verdict: Verdict,
) -> Result<Bytes, AllocError>
    ensures { IfOk result (λ text. text ≡ other_text form ini.now number verdict) }
{
    let mut text = Vec::new(alloc);
    put_entry(alloc, &mut text, form, ini, number)?;
    put_verdict(alloc, &mut text, form, verdict)?;
    Ok(Bytes::from_vec(text))
}

/// The verdict alone.
fn verdict_text(alloc: Global, form: ReportForm, verdict: Verdict) -> Result<Bytes, AllocError>
    ensures { IfOk result (λ text. text ≡ printed_lines form (verdict_lines verdict)) }
{
    let mut text = Vec::new(alloc);
    put_verdict(alloc, &mut text, form, verdict)?;
    Ok(Bytes::from_vec(text))
}

// ---- the entry

/// The path of the entry of this number.
fn path_of(ini: &BootIni, number: u32) -> &[u8]
    ensures { result.now ≡ path_at ini.now number }
{
    match ini.entry(number) {
        Some(entry) => entry.path.as_slice(),
        None => &[],
    }
}

/// The safe mode that is named, else the one that the switches of the entry ask for.
fn mode_of(named: Option<SafeMode>, ini: &BootIni, number: u32) -> Option<SafeMode>
    ensures { result ≡ mode_at named ini.now number }
{
    match named {
        Some(mode) => Some(mode),
        None => asked_mode(ini, number),
    }
}

/// The safe mode that the switches of the entry ask for.
fn asked_mode(ini: &BootIni, number: u32) -> Option<SafeMode>
    ensures { result ≡ mode_at None ini.now number }
{
    match ini.entry(number) {
        Some(entry) => safe_mode(&entry.switches),
        None => None,
    }
}

fn mode_word(mode: Option<SafeMode>) -> &'static [u8]
    ensures { result.now ≡ mode_word mode }
{
    match mode {
        Some(SafeMode::Minimal) => b"minimal",
        Some(SafeMode::Network) => b"network",
        None => b"none",
    }
}

// ---- lines

/// Puts a line as a text.
fn put_line(alloc: Global, text: &mut Vec<u8>, line: Line) -> Result<(), AllocError>
    ensures { OnOk result (text.new.items ≡ text.old.items ++ line_text line) }
{
    let bytes = line_bytes(alloc, &line)?;
    text.extend_from_slice(bytes.as_slice())
}

fn put_entry_text(
    alloc: Global,
    text: &mut Vec<u8>,
    number: u32,
    path: &[u8],
) -> Result<(), AllocError>
    ensures { OnOk result (text.new.items ≡ text.old.items ++ line_text (EntryLine number path.now)) }
{
    let path = Bytes::from_slice(alloc, path)?;
    put_line(alloc, text, Line::Entry { number, path })
}

fn put_entry(
    alloc: Global,
    text: &mut Vec<u8>,
    form: ReportForm,
    ini: &BootIni,
    number: u32,
) -> Result<(), AllocError>
    ensures { OnOk result (text.new.items ≡ text.old.items ++ printed form (EntryLine number (path_at ini.now number))) }
{
    match form {
        ReportForm::Text => put_entry_text(alloc, text, number, path_of(ini, number)),
        ReportForm::Json => push_entry_object(text, number, path_of(ini, number)),
    }
}

fn put_mode(text: &mut Vec<u8>, form: ReportForm, mode: Option<SafeMode>) -> Result<(), AllocError>
    ensures { OnOk result (text.new.items ≡ text.old.items ++ mode_text form mode) }
{
    match form {
        ReportForm::Text => {
            text.extend_from_slice(b"mode ")?;
            text.extend_from_slice(mode_word(mode))?;
            text.extend_from_slice(b"\n")
        }
        ReportForm::Json => push_word_object(text, b"mode", b"word", mode_word(mode)),
    }
}

fn put_set(
    alloc: Global,
    text: &mut Vec<u8>,
    form: ReportForm,
    number: u32,
) -> Result<(), AllocError>
    ensures { OnOk result (text.new.items ≡ text.old.items ++ printed form (SetLine number false)) }
{
    match form {
        ReportForm::Text => put_line(
            alloc,
            text,
            Line::Set {
                number,
                last_known_good: false,
            },
        ),
        ReportForm::Json => push_set_object(text, number),
    }
}

fn put_verdict_line(
    alloc: Global,
    text: &mut Vec<u8>,
    form: ReportForm,
    verdict: Verdict,
) -> Result<(), AllocError>
    ensures { OnOk result (text.new.items ≡ text.old.items ++ printed form (VerdictLine verdict)) }
{
    match form {
        ReportForm::Text => put_line(alloc, text, Line::Verdict { word: verdict }),
        ReportForm::Json => push_verdict_object(text, verdict),
    }
}

fn put_end(alloc: Global, text: &mut Vec<u8>, form: ReportForm) -> Result<(), AllocError>
    ensures { OnOk result (text.new.items ≡ text.old.items ++ printed form EndLine) }
{
    match form {
        ReportForm::Text => put_line(alloc, text, Line::End),
        ReportForm::Json => push_end_object(text),
    }
}

fn put_verdict(
    alloc: Global,
    text: &mut Vec<u8>,
    form: ReportForm,
    verdict: Verdict,
) -> Result<(), AllocError>
    ensures { OnOk result (text.new.items ≡ text.old.items ++ printed_lines form (verdict_lines verdict)) }
{
    put_verdict_line(alloc, text, form, verdict)?;
    put_end(alloc, text, form)
}

/// The start on the set that Default names, or the verdict that there is none.
fn put_default(
    alloc: Global,
    text: &mut Vec<u8>,
    form: ReportForm,
    root: &Key,
    mode: Option<SafeMode>,
    images: bool,
) -> Result<(), AllocError>
    requires { HoldsKeys root.now }
    ensures { OnOk result (text.new.items ≡ text.old.items ++ printed_lines form (default_lines root.now mode images)) }
{
    let number = select_numbers(root).default;
    match set_of(root, number) {
        Some(set) => put_start(alloc, text, form, number, set, mode, images),
        None => put_verdict(alloc, text, form, Verdict::NoControlSet),
    }
}

/// The start on a set of this number.
fn put_start(
    alloc: Global,
    text: &mut Vec<u8>,
    form: ReportForm,
    number: u32,
    set: &Key,
    mode: Option<SafeMode>,
    images: bool,
) -> Result<(), AllocError>
    requires { HoldsKeys set.now }
    ensures { OnOk result (text.new.items ≡ text.old.items ++ printed_lines form (set_lines number mode images set.now)) }
{
    let lines = safe_start_by(alloc, set, mode, images)?;
    put_set(alloc, text, form, number)?;
    put_lines(alloc, text, form, lines.as_slice())?;
    put_end(alloc, text, form)
}

fn put_lines(
    alloc: Global,
    text: &mut Vec<u8>,
    form: ReportForm,
    lines: &[SafeLine],
) -> Result<(), AllocError>
    ensures { OnOk result (text.new.items ≡ text.old.items ++ printed_lines form (map safe.line_of lines.now)) }
{
    for line in lines {
        put_safe_line(alloc, text, form, line)?;
    }
    Ok(())
}

fn put_safe_line(
    alloc: Global,
    text: &mut Vec<u8>,
    form: ReportForm,
    line: &SafeLine,
) -> Result<(), AllocError>
    ensures { OnOk result (text.new.items ≡ text.old.items ++ printed form (safe.line_of line.now)) }
{
    match form {
        ReportForm::Text => put_safe_text(alloc, text, line),
        ReportForm::Json => put_safe_object(text, line),
    }
}

fn put_safe_text(alloc: Global, text: &mut Vec<u8>, line: &SafeLine) -> Result<(), AllocError>
    ensures { OnOk result (text.new.items ≡ text.old.items ++ line_text (safe.line_of line.now)) }
{
    put_line(alloc, text, reported(alloc, line)?)
}

fn put_safe_object(text: &mut Vec<u8>, line: &SafeLine) -> Result<(), AllocError>
    ensures { OnOk result (text.new.items ≡ text.old.items ++ line_json (safe.line_of line.now)) }
{
    match line {
        SafeLine::Phase(phase) => push_phase_object(text, phase_word(*phase)),
        SafeLine::Started(name) => push_ok_object(text, name.as_slice()),
        SafeLine::Unmet(name) => push_unmet_object(text, name.as_slice()),
    }
}

/// The line of the report that a line of a start is.
fn reported(alloc: Global, line: &SafeLine) -> Result<Line, AllocError>
    ensures { IfOk result (λ l. l ≡ safe.line_of line.now) }
{
    match line {
        SafeLine::Phase(phase) => Ok(Line::Phase {
            word: phase_word(*phase),
        }),
        SafeLine::Started(name) => Ok(Line::Try {
            name: name.copy(alloc)?,
            outcome: TryWord::Ok,
        }),
        SafeLine::Unmet(name) => Ok(Line::Unmet {
            name: name.copy(alloc)?,
        }),
    }
}
