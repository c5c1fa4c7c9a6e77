//! The lines of values.

ghost use Rattle.std.specs.Prelude.{◌≡◌, ◌++◌, map, codes, OnOk};
ghost use Rattle.report_text.specs.line_text.Objects.{Text, field_text, fields_text};
ghost use Rattle.key_text.specs.Kinds.{kind_text};
ghost use Rattle.key_text.specs.Data.{form_of, form_fields};
ghost use Rattle.key_text.specs.Lines.{ValueLine, value_text, value_fields, value_json, printed, printed_lines};

use crate::data::data_form;
use crate::kind::push_kind;
use crate::printing::{push_form, push_form_fields};
use reg_tree::Value;
use report_text::line_text::{
    ReportForm, close_object, open_object, push_quoted, push_text_field, push_word_field,
};
use std::alloc::{AllocError, Global};

#[tactic(auto, unfolding(crate::specs::Lines::value_text))]
fn push_value_text(alloc: Global, out: &mut Vec<u8>, value: &Value) -> Result<(), AllocError>
    ensures { OnOk result (out.new.items ≡ out.old.items ++ value_text value.now) }
{
    let form = data_form(alloc, value.kind, value.bytes.as_slice())?;
    out.extend_from_slice(b"value ")?;
    push_quoted(out, value.name.as_slice())?;
    out.push(b' ')?;
    push_kind(alloc, out, value.kind)?;
    out.push(b' ')?;
    push_form(alloc, out, &form)?;
    out.push(b'\n')?;
    Ok(())
}

/// Appends the type as a field.
fn push_kind_field(alloc: Global, out: &mut Vec<u8>, kind: u32) -> Result<(), AllocError>
    ensures { OnOk result (out.new.items ≡ out.old.items ++ field_text (codes "type") (Text (kind_text kind))) }
{
    let mut word = Vec::new(alloc);
    push_kind(alloc, &mut word, kind)?;
    push_word_field(out, b"type", word.as_slice())
}

/// Appends data of a type, in their form, as fields.
fn push_data_fields(
    alloc: Global,
    out: &mut Vec<u8>,
    kind: u32,
    bytes: &[u8],
) -> Result<(), AllocError>
    ensures { OnOk result (out.new.items ≡ out.old.items ++ fields_text (form_fields (form_of kind bytes.now))) }
{
    let form = data_form(alloc, kind, bytes)?;
    push_form_fields(alloc, out, &form)
}

fn push_value_fields(alloc: Global, out: &mut Vec<u8>, value: &Value) -> Result<(), AllocError>
    ensures { OnOk result (out.new.items ≡ out.old.items ++ fields_text (value_fields value.now)) }
{
    push_text_field(out, b"name", value.name.as_slice())?;
    push_kind_field(alloc, out, value.kind)?;
    push_data_fields(alloc, out, value.kind, value.bytes.as_slice())
}

#[tactic(auto, unfolding(crate::specs::Lines::value_json))]
fn push_value_json(alloc: Global, out: &mut Vec<u8>, value: &Value) -> Result<(), AllocError>
    ensures { OnOk result (out.new.items ≡ out.old.items ++ value_json value.now) }
{
    open_object(out, b"value")?;
    push_value_fields(alloc, out, value)?;
    close_object(out)
}

fn push_value(
    alloc: Global,
    out: &mut Vec<u8>,
    form: ReportForm,
    value: &Value,
) -> Result<(), AllocError>
    ensures { OnOk result (out.new.items ≡ out.old.items ++ printed form (ValueLine value.now)) }
{
    match form {
        ReportForm::Text => push_value_text(alloc, out, value),
        ReportForm::Json => push_value_json(alloc, out, value),
    }
}

/// Appends the lines of values, in order.
pub(crate) fn push_values(
    alloc: Global,
    out: &mut Vec<u8>,
    form: ReportForm,
    values: &[Value],
) -> Result<(), AllocError>
    ensures { OnOk result (out.new.items ≡ out.old.items ++ printed_lines form (map ValueLine values.now)) }
{
    for value in values {
        push_value(alloc, out, form, value)?;
    }
    Ok(())
}
