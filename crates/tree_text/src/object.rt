//! One line as an object of JSON.

ghost use Rattle.std.specs.Prelude.{◌≡◌, [], ◌∷◌, ◌++◌, codes, OnOk};
ghost use Rattle.report_text.specs.line_text.Objects.{Number, Text, fields_text};
ghost use Rattle.tree_text.specs.TreeObjects.{HiveLine, KeyLine, ValueLine, data_fields, value_fields, line_json};

use reg_tree::Value;
use report_text::line_text::{
    close_object, open_object, push_number_field, push_text_field, push_word_field,
};
use std::alloc::{AllocError, Global};

fn push_hive_fields(out: &mut Vec<u8>, sequence: u32, bulk: u64) -> Result<(), AllocError>
    ensures { OnOk result (out.new.items ≡ out.old.items ++ fields_text ((codes "sequence", Number sequence) ∷ (codes "bulk", Number bulk) ∷ [])) }
{
    push_number_field(out, b"sequence", u64::from(sequence))?;
    push_number_field(out, b"bulk", bulk)
}

/// Puts the line of a hive at the end.
pub fn push_hive(out: &mut Vec<u8>, sequence: u32, bulk: u64) -> Result<(), AllocError>
    ensures { OnOk result (out.new.items ≡ out.old.items ++ line_json (HiveLine sequence bulk)) }
{
    open_object(out, b"tree")?;
    push_hive_fields(out, sequence, bulk)?;
    close_object(out)
}

fn push_place_fields(out: &mut Vec<u8>, level: u64, name: &[u16]) -> Result<(), AllocError>
    ensures { OnOk result (out.new.items ≡ out.old.items ++ fields_text ((codes "level", Number level) ∷ (codes "name", Text name.now) ∷ [])) }
{
    push_number_field(out, b"level", level)?;
    push_text_field(out, b"name", name)
}

/// Puts the line of a key at the end.
pub fn push_head(out: &mut Vec<u8>, level: u64, name: &[u16]) -> Result<(), AllocError>
    ensures { OnOk result (out.new.items ≡ out.old.items ++ line_json (KeyLine level name.now)) }
{
    open_object(out, b"key")?;
    push_place_fields(out, level, name)?;
    close_object(out)
}

fn push_data_fields(
    alloc: Global,
    out: &mut Vec<u8>,
    kind: u32,
    bytes: &[u8],
) -> Result<(), AllocError>
    ensures { OnOk result (out.new.items ≡ out.old.items ++ fields_text (data_fields kind bytes.now)) }
{
    push_number_field(out, b"type", u64::from(kind))?;
    push_number_field(out, b"length", bytes.len() as u64)?;
    let digits = hex::encode(alloc, bytes)?;
    push_word_field(out, b"data", digits.as_bytes())
}

fn push_value_fields(
    alloc: Global,
    out: &mut Vec<u8>,
    level: u64,
    value: &Value,
) -> Result<(), AllocError>
    ensures { OnOk result (out.new.items ≡ out.old.items ++ fields_text (value_fields level value.now)) }
{
    push_place_fields(out, level, value.name.as_slice())?;
    push_data_fields(alloc, out, value.kind, value.bytes.as_slice())
}

/// Puts the line of a value at the end.
pub fn push_value(
    alloc: Global,
    out: &mut Vec<u8>,
    level: u64,
    value: &Value,
) -> Result<(), AllocError>
    ensures { OnOk result (out.new.items ≡ out.old.items ++ line_json (ValueLine level value.now)) }
{
    open_object(out, b"value")?;
    push_value_fields(alloc, out, level, value)?;
    close_object(out)
}
