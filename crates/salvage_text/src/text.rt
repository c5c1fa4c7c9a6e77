//! The lines as texts.

ghost use Rattle.std.specs.Prelude.{◌≡◌, ◌++◌, OnOk};
ghost use Rattle.salvage_text.specs.Lines.{SequenceLine, VersionLine, BaseLine, LogLine, BytesLine, SalvagedLine, SavedLine, RefusedLine, line_text};

use crate::walk_text::{push_fault, push_placed};
use crate::words::{kind_word, state_word};
use nt_bytes::{HiveFault, HiveVersion};
use report_text::line_text::push_number;
use salvage_bins::BrokenBin;
use salvage_file::{FileState, LogStop, minor_of};
use std::alloc::AllocError;

pub(crate) fn push_sequence(
    out: &mut Vec<u8>,
    first: u32,
    second: u32,
    state: FileState,
) -> Result<(), AllocError>
    ensures { OnOk result (out.new.items ≡ out.old.items ++ line_text (SequenceLine first second state)) }
{
    out.extend_from_slice(b"sequence ")?;
    push_number(out, u64::from(first))?;
    out.extend_from_slice(b" ")?;
    push_number(out, u64::from(second))?;
    out.extend_from_slice(b" ")?;
    out.extend_from_slice(state_word(state))?;
    out.extend_from_slice(b"\n")
}

pub(crate) fn push_version(out: &mut Vec<u8>, version: HiveVersion) -> Result<(), AllocError>
    ensures { OnOk result (out.new.items ≡ out.old.items ++ line_text (VersionLine version)) }
{
    out.extend_from_slice(b"version ")?;
    push_number(out, u64::from(minor_of(version)))?;
    out.extend_from_slice(b"\n")
}

pub(crate) fn push_base(out: &mut Vec<u8>, fault: HiveFault) -> Result<(), AllocError>
    ensures { OnOk result (out.new.items ≡ out.old.items ++ line_text (BaseLine fault)) }
{
    push_fault(out, fault.kind, u64::from(fault.at), b"base\n")
}

pub(crate) fn push_log(out: &mut Vec<u8>, stop: LogStop) -> Result<(), AllocError>
    ensures { OnOk result (out.new.items ≡ out.old.items ++ line_text (LogLine stop)) }
{
    out.extend_from_slice(b"fault ")?;
    out.extend_from_slice(kind_word(stop.kind))?;
    out.extend_from_slice(b" log ")?;
    push_number(out, stop.at as u64)?;
    out.extend_from_slice(b"\n")
}

pub(crate) fn push_bytes(out: &mut Vec<u8>, broken: BrokenBin) -> Result<(), AllocError>
    ensures { OnOk result (out.new.items ≡ out.old.items ++ line_text (BytesLine broken)) }
{
    push_placed(out, broken.fault, b"bytes ")?;
    push_number(out, u64::from(broken.bytes))?;
    out.extend_from_slice(b"\n")
}

pub(crate) fn push_salvaged(
    out: &mut Vec<u8>,
    keys: u64,
    values: u64,
    lost: u64,
) -> Result<(), AllocError>
    ensures { OnOk result (out.new.items ≡ out.old.items ++ line_text (SalvagedLine keys values lost)) }
{
    out.extend_from_slice(b"salvaged ")?;
    push_number(out, keys)?;
    out.extend_from_slice(b" keys ")?;
    push_number(out, values)?;
    out.extend_from_slice(b" values lost ")?;
    push_number(out, lost)?;
    out.extend_from_slice(b"\n")
}

pub(crate) fn push_saved(out: &mut Vec<u8>, number: u32, bytes: usize) -> Result<(), AllocError>
    ensures { OnOk result (out.new.items ≡ out.old.items ++ line_text (SavedLine number bytes)) }
{
    out.extend_from_slice(b"saved ")?;
    push_number(out, u64::from(number))?;
    out.extend_from_slice(b" ")?;
    push_number(out, bytes as u64)?;
    out.extend_from_slice(b"\n")
}

pub(crate) fn push_refused(out: &mut Vec<u8>, word: &[u8]) -> Result<(), AllocError>
    ensures { OnOk result (out.new.items ≡ out.old.items ++ line_text (RefusedLine word.now)) }
{
    out.extend_from_slice(b"save refused ")?;
    out.extend_from_slice(word)?;
    out.extend_from_slice(b"\n")
}
