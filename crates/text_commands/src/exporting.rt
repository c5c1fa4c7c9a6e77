//! `export`: the registry text of a key, put into a file, and a line on it in one of the two forms.

ghost use Rattle.std.specs.Prelude.{◌≡◌, ◌++◌, [], ◌∷◌, codes, option_map, IfOk, OnOk};
ghost use Rattle.std.specs.Fmt.{decimal};
ghost use Rattle.command_words.specs.Views.{export_seen};
ghost use Rattle.command_parts.specs.command_parts.Inputs.{AsksSoMany};
ghost use Rattle.command_parts.specs.command_parts.Leaves.{stop_in};
ghost use Rattle.command_parts.specs.command_parts.Placed.{image_in};
ghost use Rattle.key_text.specs.Words.{path_in};
ghost use Rattle.report_text.specs.line_text.Objects.{Number, fields_text, object_text};
ghost use Rattle.text_commands.specs.Exported.{exported_text, exported_json, exported_in, no_key_fields, no_key_in, export_of, found_export, text_export, asks_export, DecidesExport};
ghost use Rattle.text_commands.specs.Exports.{export_with, TreeExports, ExportsAs, PutsExport, DecidesHive};

use crate::counts::{item_count, key_count};
use crate::fault::fault_line;
use command_parts::command_parts::{
    HiveFiles, Obstacle, Refusal, Status, hive_in, judge_cells, no_memory, read, refuse, stopped,
    tell,
};
use command_words::ExportWords;
use hive_edit::HiveBytes;
use key_text::path_in;
use nt_bytes::{Bytes, Names, ReadStop};
use nt_edge::Host;
use reg_text::{RegFault, RegStop, reg_text};
use reg_tree::Key;
use report_text::line_text::{
    ReportForm, close_object, open_object, push_number_field, push_word_field,
};
use std::alloc::{AllocError, Global};

/// What is put into the file, if anything, and what is printed with which status.
#[derive(Drop)]
pub struct Outcome {
    pub put: Option<Bytes>,
    pub line: Bytes,
    pub status: Status,
}

/// The line on what was exported, as text.
fn exported_line(alloc: Global, keys: u64, values: u64) -> Result<Vec<u8>, AllocError>
    ensures { IfOk result (λ l. l.items ≡ codes "exported " ++ decimal keys ++ codes " keys " ++ decimal values ++ codes " values\n") }
{
    Ok(format!(in alloc; "exported {keys} keys {values} values\n")?.into_bytes())
}

#[tactic(auto, unfolding(crate::specs::Exported::exported_text))]
fn exported_text(alloc: Global, key: &Key) -> Result<Vec<u8>, AllocError>
    ensures { IfOk result (λ l. l.items ≡ exported_text key.now) }
{
    exported_line(alloc, key_count(key), item_count(key))
}

fn push_counts(out: &mut Vec<u8>, keys: u64, values: u64) -> Result<(), AllocError>
    ensures { OnOk result (out.new.items ≡ out.old.items ++ fields_text ((codes "keys", Number keys) ∷ (codes "values", Number values) ∷ [])) }
{
    push_number_field(out, b"keys", keys)?;
    push_number_field(out, b"values", values)
}

fn push_exported(out: &mut Vec<u8>, keys: u64, values: u64) -> Result<(), AllocError>
    ensures { OnOk result (out.new.items ≡ out.old.items
        ++ object_text (codes "exported") ((codes "keys", Number keys) ∷ (codes "values", Number values) ∷ [])) }
{
    open_object(out, b"exported")?;
    push_counts(out, keys, values)?;
    close_object(out)
}

/// The same line as an object.
#[tactic(auto, unfolding(crate::specs::Exported::exported_json))]
fn exported_object(alloc: Global, key: &Key) -> Result<Vec<u8>, AllocError>
    ensures { IfOk result (λ l. l.items ≡ exported_json key.now) }
{
    let mut out = Vec::new(alloc);
    push_exported(&mut out, key_count(key), item_count(key))?;
    Ok(out)
}

fn exported_in(alloc: Global, form: ReportForm, key: &Key) -> Result<Vec<u8>, AllocError>
    ensures { IfOk result (λ l. l.items ≡ exported_in form key.now) }
{
    match form {
        ReportForm::Text => exported_text(alloc, key),
        ReportForm::Json => exported_object(alloc, key),
    }
}

/// A key that has a text.
fn with_text(alloc: Global, form: ReportForm, key: &Key, text: Bytes) -> Result<Outcome, AllocError>
    ensures { IfOk result (λ e. export_with e.put e.status e.line ≡ text_export form key.now (Ok text)) }
{
    let line = exported_in(alloc, form, key)?;
    Ok(Outcome {
        put: Some(text),
        line: Bytes::from_vec(line),
        status: Status::Done,
    })
}

/// A key that has none. The fault is text in either form.
fn with_fault(
    alloc: Global,
    form: ReportForm,
    key: &Key,
    fault: RegFault,
) -> Result<Outcome, AllocError>
    ensures { IfOk result (λ e. export_with e.put e.status e.line ≡ text_export form key.now (Err fault)) }
{
    let line = fault_line(alloc, fault)?;
    Ok(Outcome {
        put: None,
        line: Bytes::from_vec(line),
        status: Status::RegFault,
    })
}

/// The export of a key, which is at the path.
fn key_export(
    alloc: Global,
    form: ReportForm,
    path: &Names,
    key: &Key,
) -> Result<Outcome, AllocError>
    ensures { IfOk result (λ e. export_with e.put e.status e.line ≡ found_export form path.now (Some key.now)) }
{
    match reg_text(alloc, key, path) {
        Ok(text) => with_text(alloc, form, key, text),
        Err(RegStop::Fault(fault)) => with_fault(alloc, form, key, fault),
        Err(RegStop::Memory) => Err(AllocError),
    }
}

fn push_no_key_fields(out: &mut Vec<u8>) -> Result<(), AllocError>
    ensures { OnOk result (out.new.items ≡ out.old.items ++ fields_text no_key_fields) }
{
    push_word_field(out, b"command", b"export")?;
    push_word_field(out, b"word", b"no-key")
}

fn push_no_key_object(out: &mut Vec<u8>) -> Result<(), AllocError>
    ensures { OnOk result (out.new.items ≡ out.old.items ++ object_text (codes "refused") no_key_fields) }
{
    open_object(out, b"refused")?;
    push_no_key_fields(out)?;
    close_object(out)
}

fn push_no_key(out: &mut Vec<u8>, form: ReportForm) -> Result<(), AllocError>
    ensures { OnOk result (out.new.items ≡ out.old.items ++ no_key_in form) }
{
    match form {
        ReportForm::Text => out.extend_from_slice(b"export refused no-key\n"),
        ReportForm::Json => push_no_key_object(out),
    }
}

/// The export where the path leads to no key.
fn no_key(alloc: Global, form: ReportForm) -> Result<Outcome, AllocError>
    ensures { IfOk result (λ e. export_with e.put e.status e.line ≡ found_export form [] None) }
{
    let mut line = Vec::new(alloc);
    push_no_key(&mut line, form)?;
    Ok(Outcome {
        put: None,
        line: Bytes::from_vec(line),
        status: Status::Done,
    })
}

/// The export of a tree.
fn export_of(
    alloc: Global,
    form: ReportForm,
    path: &Names,
    root: &Key,
) -> Result<Outcome, AllocError>
    ensures { IfOk result (λ e. export_with e.put e.status e.line ≡ export_of form path.now root.now) }
{
    match root.find(path) {
        Some(key) => key_export(alloc, form, path, key),
        None => no_key(alloc, form),
    }
}

/// The export of a tree that was read.
fn tree_export(
    alloc: Global,
    form: ReportForm,
    path: &Names,
    root: &Key,
) -> Result<Outcome, Obstacle>
    ensures { TreeExports form path.now root.now result }
{
    match export_of(alloc, form, path, root) {
        Ok(export) => Ok(export),
        Err(_) => Err(no_memory()),
    }
}

/// The export of the tree in a hive's files, or the hive's first fault.
fn export_tree(
    alloc: Global,
    form: ReportForm,
    path: &Names,
    files: &HiveFiles,
) -> Result<Outcome, Obstacle>
    ensures { ExportsAs form (image_in files.now) path.now result }
{
    match read(alloc, files) {
        Ok((root, _, _)) => tree_export(alloc, form, path, &root),
        Err(ReadStop::Fault(fault)) => Err(Obstacle::Refused(Refusal::HiveFault(fault))),
        Err(ReadStop::Memory) => Err(no_memory()),
    }
}

/// The export of the key that was found, if any.
fn found_export(
    alloc: Global,
    form: ReportForm,
    path: &Names,
    key: Option<Key>,
) -> Result<Outcome, AllocError>
    ensures { IfOk result (λ e. export_with e.put e.status e.line ≡ found_export form path.now key) }
{
    match key {
        Some(key) => key_export(alloc, form, path, &key),
        None => no_key(alloc, form),
    }
}

/// The export of the key at a path. No other key is read.
fn export_under(
    alloc: Global,
    form: ReportForm,
    path: &Names,
    cells: &HiveBytes,
) -> Result<Outcome, AllocError>
    ensures { IfOk result (λ e. export_with e.put e.status e.line ≡ export_of form path.now cells.now.tree) }
{
    let key = cells.subtree(alloc, path)?;
    found_export(alloc, form, path, key)
}

/// The same of the cells of a hive that was judged.
fn cells_export(
    alloc: Global,
    form: ReportForm,
    path: &Names,
    cells: &HiveBytes,
) -> Result<Outcome, Obstacle>
    ensures { TreeExports form path.now cells.now.tree result }
{
    match export_under(alloc, form, path, cells) {
        Ok(export) => Ok(export),
        Err(_) => Err(no_memory()),
    }
}

/// The export of the key at a path in a hive's files, or the hive's first fault. All keys are judged, and that one alone is read.
fn export_one(
    alloc: Global,
    form: ReportForm,
    path: &Names,
    files: &HiveFiles,
) -> Result<Outcome, Obstacle>
    ensures { ExportsAs form (image_in files.now) path.now result }
{
    match judge_cells(alloc, files) {
        Ok((cells, _, _)) => cells_export(alloc, form, path, &cells),
        Err(ReadStop::Fault(fault)) => Err(Obstacle::Refused(Refusal::HiveFault(fault))),
        Err(ReadStop::Memory) => Err(no_memory()),
    }
}

/// The export of a key in a hive's files, or the hive's first fault. The empty path names the root.
fn export_in(
    alloc: Global,
    form: ReportForm,
    path: &Names,
    files: &HiveFiles,
) -> Result<Outcome, Obstacle>
    ensures { ExportsAs form (image_in files.now) path.now result }
{
    if path.as_slice().is_empty() {
        export_tree(alloc, form, path, files)
    } else {
        export_one(alloc, form, path, files)
    }
}

/// Puts the text, and then says the line.
fn put_text<H: Host>(name: &str, text: &[u8], line: &[u8], status: Status, host: &mut H) -> Status
    requires ends { stop_in status ≡ None }
    ensures { PutsExport name.now (export_with (Some text.now) status line.now) result (H.state host.old) (H.state host.new) }
{
    match host.put(name, text) {
        Ok(()) => tell(host, line, status),
        Err(stop) => stopped(stop),
    }
}

/// Puts the file where there is something to put, and then says the line.
fn put_export<H: Host>(name: &str, export: Outcome, host: &mut H) -> Status
    requires ends { stop_in export.status ≡ None }
    ensures { PutsExport name.now (export_with export.put export.status export.line) result (H.state host.old) (H.state host.new) }
{
    let Outcome { put, line, status } = export;
    match put {
        Some(text) => put_text(name, text.as_slice(), line.as_slice(), status, host),
        None => tell(host, line.as_slice(), status),
    }
}

/// Exports the key of a hive to which the path leads.
fn export_hive<H: Host>(
    alloc: Global,
    form: ReportForm,
    files: &HiveFiles,
    path: &Names,
    name: &str,
    host: &mut H,
) -> Status
    ensures { DecidesHive form files.now path.now name.now result (H.state host.old) (H.state host.new) }
{
    match export_in(alloc, form, path, files) {
        Ok(export) => put_export(name, export, host),
        Err(Obstacle::Refused(why)) => refuse(alloc, host, &why),
        Err(Obstacle::Stopped(stop)) => stopped(stop),
    }
}

/// The same, the path as a word names it.
fn export_key<H: Host>(
    alloc: Global,
    form: ReportForm,
    files: &HiveFiles,
    key: Option<&str>,
    name: &str,
    host: &mut H,
) -> Status
    ensures { DecidesHive form files.now (path_in (option_map (λ k. k.now) key.entry)) name.now result (H.state host.old) (H.state host.new) }
{
    match path_in(alloc, key) {
        Ok(path) => export_hive(alloc, form, files, &path, name, host),
        Err(_) => Status::Memory,
    }
}

/// Gets the hive that the command line names, exports its key, and says so in one of the two forms; or says the first obstacle.
pub fn export<H: Host>(
    alloc: Global,
    words: ExportWords<'_>,
    form: ReportForm,
    host: &mut H,
) -> Status
    ensures decides { DecidesExport form (export_seen words.entry) result (H.state host.old) (H.state host.new) }
    ensures asked { AsksSoMany (asks_export (export_seen words.entry)) result (H.state host.old) (H.state host.new) }
    ensures kept { result ≡ Status.Usage → ⊥ }
{
    match hive_in(alloc, host, words.hive, words.log) {
        Ok(files) => export_key(alloc, form, &files, words.key, words.reg, host),
        Err(Obstacle::Refused(why)) => refuse(alloc, host, &why),
        Err(Obstacle::Stopped(stop)) => stopped(stop),
    }
}
