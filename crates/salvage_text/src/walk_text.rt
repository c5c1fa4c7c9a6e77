//! The lines of the walk as texts.

ghost use Rattle.std.specs.Prelude.{◌≡◌, ◌++◌, OnOk};
ghost use Rattle.salvage_walk.specs.declared.lines.WalkLine.{WalkLine};
ghost use Rattle.salvage_text.specs.Lines.{FoundLine, line_text, fault_text, numbered_text, path_text, placed_text, walk_text};

use crate::words::{kind_word, part_word};
use nt_bytes::{HiveFault, HiveFaultKind, Units};
use report_text::line_text::{push_number, push_path, push_quoted};
use salvage_walk::{KeyPart, WalkLine};
use std::alloc::{AllocError, Global};

/// Appends a fault of a part at a byte of the file.
pub(crate) fn push_fault(
    out: &mut Vec<u8>,
    kind: HiveFaultKind,
    at: u64,
    part: &[u8],
) -> Result<(), AllocError>
    ensures { OnOk result (out.new.items ≡ out.old.items ++ fault_text kind at part.now) }
{
    out.extend_from_slice(b"fault ")?;
    out.extend_from_slice(kind_word(kind))?;
    out.extend_from_slice(b" file ")?;
    push_number(out, at)?;
    out.extend_from_slice(b" ")?;
    out.extend_from_slice(part)
}

/// Appends a fault of a part at a place in the bins data.
pub(crate) fn push_placed(
    out: &mut Vec<u8>,
    fault: HiveFault,
    part: &[u8],
) -> Result<(), AllocError>
    ensures { OnOk result (out.new.items ≡ out.old.items ++ placed_text fault part.now) }
{
    push_fault(out, fault.kind, 4096 + u64::from(fault.at), part)
}

fn push_path_end(alloc: Global, out: &mut Vec<u8>, path: &[Units]) -> Result<(), AllocError>
    ensures { OnOk result (out.new.items ≡ out.old.items ++ path_text path.now) }
{
    out.extend_from_slice(b" ")?;
    push_path(alloc, out, path)?;
    out.extend_from_slice(b"\n")
}

fn push_numbered(
    alloc: Global,
    out: &mut Vec<u8>,
    number: usize,
    path: &[Units],
) -> Result<(), AllocError>
    ensures { OnOk result (out.new.items ≡ out.old.items ++ numbered_text number path.now) }
{
    out.extend_from_slice(b" ")?;
    push_number(out, number as u64)?;
    push_path_end(alloc, out, path)
}

fn push_root_at(out: &mut Vec<u8>, at: u32) -> Result<(), AllocError>
    ensures { OnOk result (out.new.items ≡ out.old.items ++ walk_text (WalkLine.RootAt at)) }
{
    out.extend_from_slice(b"root file ")?;
    push_number(out, 4096 + u64::from(at))?;
    out.extend_from_slice(b"\n")
}

// A fault of a key, or of a part of it.
fn push_part(
    alloc: Global,
    out: &mut Vec<u8>,
    fault: HiveFault,
    part: &[u8],
    path: &[Units],
) -> Result<(), AllocError>
    ensures { OnOk result (out.new.items ≡ out.old.items ++ (placed_text fault part.now ++ path_text path.now)) }
{
    push_placed(out, fault, part)?;
    push_path_end(alloc, out, path)
}

// A fault of an entry of a list.
fn push_entry(
    alloc: Global,
    out: &mut Vec<u8>,
    fault: HiveFault,
    part: &[u8],
    number: usize,
    path: &[Units],
) -> Result<(), AllocError>
    ensures { OnOk result (out.new.items ≡ out.old.items ++ (placed_text fault part.now ++ numbered_text number path.now)) }
{
    push_placed(out, fault, part)?;
    push_numbered(alloc, out, number, path)
}

fn push_value(
    alloc: Global,
    out: &mut Vec<u8>,
    fault: HiveFault,
    name: &[u16],
    path: &[Units],
) -> Result<(), AllocError>
    ensures { OnOk result (out.new.items ≡ out.old.items ++ walk_text (WalkLine.Value fault name.now path.now)) }
{
    push_placed(out, fault, b"value ")?;
    push_quoted(out, name)?;
    push_path_end(alloc, out, path)
}

fn push_nothing(alloc: Global, out: &mut Vec<u8>, at: u32, path: &[Units]) -> Result<(), AllocError>
    ensures { OnOk result (out.new.items ≡ out.old.items ++ walk_text (WalkLine.Nothing at path.now)) }
{
    push_fault(out, HiveFaultKind::Count, 4096 + u64::from(at), b"nothing")?;
    push_path_end(alloc, out, path)
}

/// Appends a line of the walk as a text.
pub(crate) fn push_walk_text(
    alloc: Global,
    out: &mut Vec<u8>,
    line: &WalkLine,
) -> Result<(), AllocError>
    ensures { OnOk result (out.new.items ≡ out.old.items ++ walk_text line.now) }
{
    match line {
        WalkLine::Root(fault) => push_placed(out, *fault, b"root\n"),
        WalkLine::RootAt(at) => push_root_at(out, *at),
        WalkLine::NoRoot => out.extend_from_slice(b"root none\n"),
        WalkLine::Key(fault, path) => push_part(alloc, out, *fault, b"key", path.as_slice()),
        WalkLine::KeyAt(fault, number, path) => {
            push_entry(alloc, out, *fault, b"key-at", *number, path.as_slice())
        }
        WalkLine::Part(fault, part, path) => {
            push_part(alloc, out, *fault, part_word(*part), path.as_slice())
        }
        WalkLine::Value(fault, name, path) => {
            push_value(alloc, out, *fault, name.as_slice(), path.as_slice())
        }
        WalkLine::ValueAt(fault, number, path) => {
            push_entry(alloc, out, *fault, b"value-at", *number, path.as_slice())
        }
        WalkLine::Nothing(at, path) => push_nothing(alloc, out, *at, path.as_slice()),
    }
}

/// Appends how many children of the key at a path were found by their parent.
pub(crate) fn push_found(
    alloc: Global,
    out: &mut Vec<u8>,
    count: usize,
    path: &[Units],
) -> Result<(), AllocError>
    ensures { OnOk result (out.new.items ≡ out.old.items ++ line_text (FoundLine count path.now)) }
{
    out.extend_from_slice(b"found ")?;
    push_number(out, count as u64)?;
    push_path_end(alloc, out, path)
}
