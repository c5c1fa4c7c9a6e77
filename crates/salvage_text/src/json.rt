//! The lines as objects of JSON.

ghost use Rattle.std.specs.Prelude.{◌≡◌, [], ◌++◌, codes, OnOk};
ghost use Rattle.report_text.specs.line_text.Objects.{fields_text, object_text};
ghost use Rattle.salvage_text.specs.Lines.{SequenceLine, VersionLine, BaseLine, LogLine, BytesLine, WalkedLine, FoundLine, SalvagedLine, SavedLine, RefusedLine, line_json};
ghost use Rattle.salvage_text.specs.Lines.{bytes_fields, found_fields, log_fields, salvaged_fields, saved_fields, sequence_fields};

use crate::walk_json::{push_fault_fields, push_walk_fields, walk_word};
use crate::words::{kind_word, state_word};
use nt_bytes::{HiveFault, HiveVersion, Units};
use report_text::line_text::{
    close_object, open_object, push_number_field, push_texts_field, push_word_field,
};
use salvage_bins::BrokenBin;
use salvage_file::{FileState, LogStop, minor_of};
use salvage_walk::WalkLine;
use std::alloc::AllocError;

fn push_sequence_fields(
    out: &mut Vec<u8>,
    first: u32,
    second: u32,
    state: FileState,
) -> Result<(), AllocError>
    ensures { OnOk result (out.new.items ≡ out.old.items ++ fields_text (sequence_fields first second state)) }
{
    push_number_field(out, b"first", u64::from(first))?;
    push_number_field(out, b"second", u64::from(second))?;
    push_word_field(out, b"state", state_word(state))
}

pub(crate) fn push_sequence(
    out: &mut Vec<u8>,
    first: u32,
    second: u32,
    state: FileState,
) -> Result<(), AllocError>
    ensures { OnOk result (out.new.items ≡ out.old.items ++ line_json (SequenceLine first second state)) }
{
    open_object(out, b"sequence")?;
    push_sequence_fields(out, first, second, state)?;
    close_object(out)
}

pub(crate) fn push_version(out: &mut Vec<u8>, version: HiveVersion) -> Result<(), AllocError>
    ensures { OnOk result (out.new.items ≡ out.old.items ++ line_json (VersionLine version)) }
{
    open_object(out, b"version")?;
    push_number_field(out, b"minor", u64::from(minor_of(version)))?;
    close_object(out)
}

pub(crate) fn push_base(out: &mut Vec<u8>, fault: HiveFault) -> Result<(), AllocError>
    ensures { OnOk result (out.new.items ≡ out.old.items ++ line_json (BaseLine fault)) }
{
    open_object(out, b"fault")?;
    push_fault_fields(out, fault.kind, u64::from(fault.at), b"base")?;
    close_object(out)
}

fn push_log_fields(out: &mut Vec<u8>, stop: LogStop) -> Result<(), AllocError>
    ensures { OnOk result (out.new.items ≡ out.old.items ++ fields_text (log_fields stop)) }
{
    push_word_field(out, b"kind", kind_word(stop.kind))?;
    push_word_field(out, b"log", b"log")?;
    push_number_field(out, b"at", stop.at as u64)
}

pub(crate) fn push_log(out: &mut Vec<u8>, stop: LogStop) -> Result<(), AllocError>
    ensures { OnOk result (out.new.items ≡ out.old.items ++ line_json (LogLine stop)) }
{
    open_object(out, b"fault")?;
    push_log_fields(out, stop)?;
    close_object(out)
}

fn push_bytes_fields(out: &mut Vec<u8>, broken: BrokenBin) -> Result<(), AllocError>
    ensures { OnOk result (out.new.items ≡ out.old.items ++ fields_text (bytes_fields broken)) }
{
    push_word_field(out, b"kind", kind_word(broken.fault.kind))?;
    push_number_field(out, b"file", 4096 + u64::from(broken.fault.at))?;
    push_word_field(out, b"part", b"bytes")?;
    push_number_field(out, b"bytes", u64::from(broken.bytes))
}

pub(crate) fn push_bytes(out: &mut Vec<u8>, broken: BrokenBin) -> Result<(), AllocError>
    ensures { OnOk result (out.new.items ≡ out.old.items ++ line_json (BytesLine broken)) }
{
    open_object(out, b"fault")?;
    push_bytes_fields(out, broken)?;
    close_object(out)
}

/// Appends a line of the walk as an object.
pub(crate) fn push_walk(out: &mut Vec<u8>, line: &WalkLine) -> Result<(), AllocError>
    ensures { OnOk result (out.new.items ≡ out.old.items ++ line_json (WalkedLine line.now)) }
{
    open_object(out, walk_word(line))?;
    push_walk_fields(out, line)?;
    close_object(out)
}

fn push_found_fields(out: &mut Vec<u8>, count: usize, path: &[Units]) -> Result<(), AllocError>
    ensures { OnOk result (out.new.items ≡ out.old.items ++ fields_text (found_fields count path.now)) }
{
    push_number_field(out, b"keys", count as u64)?;
    push_texts_field(out, b"path", path)
}

/// Appends how many children of the key at a path were found by their parent.
pub(crate) fn push_found(out: &mut Vec<u8>, count: usize, path: &[Units]) -> Result<(), AllocError>
    ensures { OnOk result (out.new.items ≡ out.old.items ++ line_json (FoundLine count path.now)) }
{
    open_object(out, b"found")?;
    push_found_fields(out, count, path)?;
    close_object(out)
}

fn push_salvaged_fields(
    out: &mut Vec<u8>,
    keys: u64,
    values: u64,
    lost: u64,
) -> Result<(), AllocError>
    ensures { OnOk result (out.new.items ≡ out.old.items ++ fields_text (salvaged_fields keys values lost)) }
{
    push_number_field(out, b"keys", keys)?;
    push_number_field(out, b"values", values)?;
    push_number_field(out, b"lost", lost)
}

pub(crate) fn push_salvaged(
    out: &mut Vec<u8>,
    keys: u64,
    values: u64,
    lost: u64,
) -> Result<(), AllocError>
    ensures { OnOk result (out.new.items ≡ out.old.items ++ line_json (SalvagedLine keys values lost)) }
{
    open_object(out, b"salvaged")?;
    push_salvaged_fields(out, keys, values, lost)?;
    close_object(out)
}

fn push_saved_fields(out: &mut Vec<u8>, number: u32, bytes: usize) -> Result<(), AllocError>
    ensures { OnOk result (out.new.items ≡ out.old.items ++ fields_text (saved_fields number bytes)) }
{
    push_number_field(out, b"sequence", u64::from(number))?;
    push_number_field(out, b"bytes", bytes as u64)
}

pub(crate) fn push_saved(out: &mut Vec<u8>, number: u32, bytes: usize) -> Result<(), AllocError>
    ensures { OnOk result (out.new.items ≡ out.old.items ++ line_json (SavedLine number bytes)) }
{
    open_object(out, b"saved")?;
    push_saved_fields(out, number, bytes)?;
    close_object(out)
}

pub(crate) fn push_refused(out: &mut Vec<u8>, word: &[u8]) -> Result<(), AllocError>
    ensures { OnOk result (out.new.items ≡ out.old.items ++ line_json (RefusedLine word.now)) }
{
    open_object(out, b"save")?;
    push_word_field(out, b"refused", word)?;
    close_object(out)
}

pub(crate) fn push_end(out: &mut Vec<u8>) -> Result<(), AllocError>
    ensures { OnOk result (out.new.items ≡ out.old.items ++ object_text (codes "end") []) }
{
    open_object(out, b"end")?;
    close_object(out)
}
