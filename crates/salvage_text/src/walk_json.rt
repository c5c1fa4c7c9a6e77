//! The lines of the walk as objects of JSON.

ghost use Rattle.std.specs.Prelude.{◌≡◌, [], ◌++◌, OnOk};
ghost use Rattle.report_text.specs.line_text.Objects.{fields_text};
ghost use Rattle.salvage_walk.specs.declared.lines.WalkLine.{WalkLine};
ghost use Rattle.salvage_text.specs.Lines.{fault_fields, numbered_fields, path_fields, placed_fields, walk_fields, walk_word};

use crate::words::{kind_word, part_word};
use nt_bytes::{HiveFault, HiveFaultKind, Units};
use report_text::line_text::{
    push_number_field, push_text_field, push_texts_field, push_word_field,
};
use salvage_walk::WalkLine;
use std::alloc::AllocError;

/// Appends the fields of a fault of a part at a byte of the file.
pub(crate) fn push_fault_fields(
    out: &mut Vec<u8>,
    kind: HiveFaultKind,
    at: u64,
    part: &[u8],
) -> Result<(), AllocError>
    ensures { OnOk result (out.new.items ≡ out.old.items ++ fields_text (fault_fields kind at part.now [])) }
{
    push_word_field(out, b"kind", kind_word(kind))?;
    push_number_field(out, b"file", at)?;
    push_word_field(out, b"part", part)
}

/// Appends the fields of a fault of a part at a place in the bins data.
pub(crate) fn push_placed_fields(
    out: &mut Vec<u8>,
    fault: HiveFault,
    part: &[u8],
) -> Result<(), AllocError>
    ensures { OnOk result (out.new.items ≡ out.old.items ++ fields_text (placed_fields fault part.now [])) }
{
    push_fault_fields(out, fault.kind, 4096 + u64::from(fault.at), part)
}

fn push_part_fields(
    out: &mut Vec<u8>,
    fault: HiveFault,
    part: &[u8],
    path: &[Units],
) -> Result<(), AllocError>
    ensures { OnOk result (out.new.items ≡ out.old.items ++ fields_text (placed_fields fault part.now (path_fields path.now))) }
{
    push_word_field(out, b"kind", kind_word(fault.kind))?;
    push_number_field(out, b"file", 4096 + u64::from(fault.at))?;
    push_word_field(out, b"part", part)?;
    push_texts_field(out, b"path", path)
}

fn push_entry_fields(
    out: &mut Vec<u8>,
    fault: HiveFault,
    part: &[u8],
    number: usize,
    path: &[Units],
) -> Result<(), AllocError>
    ensures { OnOk result (out.new.items ≡ out.old.items ++ fields_text (placed_fields fault part.now (numbered_fields number path.now))) }
{
    push_word_field(out, b"kind", kind_word(fault.kind))?;
    push_number_field(out, b"file", 4096 + u64::from(fault.at))?;
    push_word_field(out, b"part", part)?;
    push_number_field(out, b"number", number as u64)?;
    push_texts_field(out, b"path", path)
}

fn push_value_fields(
    out: &mut Vec<u8>,
    fault: HiveFault,
    name: &[u16],
    path: &[Units],
) -> Result<(), AllocError>
    ensures { OnOk result (out.new.items ≡ out.old.items ++ fields_text (walk_fields (WalkLine.Value fault name.now path.now))) }
{
    push_word_field(out, b"kind", kind_word(fault.kind))?;
    push_number_field(out, b"file", 4096 + u64::from(fault.at))?;
    push_word_field(out, b"part", b"value")?;
    push_text_field(out, b"name", name)?;
    push_texts_field(out, b"path", path)
}

fn push_nothing_fields(out: &mut Vec<u8>, at: u32, path: &[Units]) -> Result<(), AllocError>
    ensures { OnOk result (out.new.items ≡ out.old.items ++ fields_text (walk_fields (WalkLine.Nothing at path.now))) }
{
    push_word_field(out, b"kind", b"count")?;
    push_number_field(out, b"file", 4096 + u64::from(at))?;
    push_word_field(out, b"part", b"nothing")?;
    push_texts_field(out, b"path", path)
}

/// Appends the fields of a line of the walk.
pub(crate) fn push_walk_fields(out: &mut Vec<u8>, line: &WalkLine) -> Result<(), AllocError>
    ensures { OnOk result (out.new.items ≡ out.old.items ++ fields_text (walk_fields line.now)) }
{
    match line {
        WalkLine::Root(fault) => push_placed_fields(out, *fault, b"root"),
        WalkLine::RootAt(at) => push_number_field(out, b"file", 4096 + u64::from(*at)),
        WalkLine::NoRoot => Ok(()),
        WalkLine::Key(fault, path) => push_part_fields(out, *fault, b"key", path.as_slice()),
        WalkLine::KeyAt(fault, number, path) => {
            push_entry_fields(out, *fault, b"key-at", *number, path.as_slice())
        }
        WalkLine::Part(fault, part, path) => {
            push_part_fields(out, *fault, part_word(*part), path.as_slice())
        }
        WalkLine::Value(fault, name, path) => {
            push_value_fields(out, *fault, name.as_slice(), path.as_slice())
        }
        WalkLine::ValueAt(fault, number, path) => {
            push_entry_fields(out, *fault, b"value-at", *number, path.as_slice())
        }
        WalkLine::Nothing(at, path) => push_nothing_fields(out, *at, path.as_slice()),
    }
}

/// The first field of the object of a line of the walk.
pub(crate) fn walk_word(line: &WalkLine) -> &'static [u8]
    ensures { result.now ≡ walk_word line.now }
{
    match line {
        WalkLine::Root(_) => b"fault",
        WalkLine::RootAt(_) => b"root",
        WalkLine::NoRoot => b"root",
        WalkLine::Key(_, _) => b"fault",
        WalkLine::KeyAt(_, _, _) => b"fault",
        WalkLine::Part(_, _, _) => b"fault",
        WalkLine::Value(_, _, _) => b"fault",
        WalkLine::ValueAt(_, _, _) => b"fault",
        WalkLine::Nothing(_, _) => b"fault",
    }
}
