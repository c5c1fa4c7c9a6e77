//! The lines, each in one of the two forms.

ghost use Rattle.std.specs.Prelude.{◌≡◌, [], ◌∷◌, ◌++◌, codes, OnOk};
ghost use Rattle.report_text.specs.line_text.Objects.{Text, fields_text, object_text};
ghost use Rattle.key_text.specs.Data.{bytes_fields};
ghost use Rattle.key_text.specs.Lines.{RootLine, KeyAtLine, StampLine, FlagsLine, ClassLine, ClassBytesLine, SecurityLine, SubkeyLine, NoKeyLine, EndLine, counted_text, refused_fields, line_json, printed};

use crate::printing::push_bytes_fields;
use crate::stamp::{push_moment, push_moment_field};
use nt_bytes::Units;
use report_text::boot_report::push_name;
use report_text::line_text::{
    ReportForm, close_object, open_object, push_hex, push_number, push_number_field, push_path,
    push_quoted, push_text_field, push_texts_field, push_word_field, push_written,
};
use std::alloc::{AllocError, Global};

// ---- objects

fn push_named(out: &mut Vec<u8>, word: &[u8], name: &[u16]) -> Result<(), AllocError>
    ensures { OnOk result (out.new.items ≡ out.old.items ++ object_text word.now ((codes "name", Text name.now) ∷ [])) }
{
    open_object(out, word)?;
    push_text_field(out, b"name", name)?;
    close_object(out)
}

fn push_bytes_object(
    alloc: Global,
    out: &mut Vec<u8>,
    word: &[u8],
    bytes: &[u8],
) -> Result<(), AllocError>
    ensures { OnOk result (out.new.items ≡ out.old.items ++ object_text word.now (bytes_fields bytes.now)) }
{
    open_object(out, word)?;
    push_bytes_fields(alloc, out, bytes)?;
    close_object(out)
}

fn push_stamp_object(alloc: Global, out: &mut Vec<u8>, stamp: u64) -> Result<(), AllocError>
    ensures { OnOk result (out.new.items ≡ out.old.items ++ line_json (StampLine stamp)) }
{
    open_object(out, b"stamp")?;
    push_moment_field(alloc, out, stamp)?;
    close_object(out)
}

fn push_refused_fields(out: &mut Vec<u8>) -> Result<(), AllocError>
    ensures { OnOk result (out.new.items ≡ out.old.items ++ fields_text refused_fields) }
{
    push_word_field(out, b"command", b"key")?;
    push_word_field(out, b"word", b"no-key")
}

fn push_refused(out: &mut Vec<u8>) -> Result<(), AllocError>
    ensures { OnOk result (out.new.items ≡ out.old.items ++ line_json NoKeyLine) }
{
    open_object(out, b"refused")?;
    push_refused_fields(out)?;
    close_object(out)
}

// ---- lines

/// Appends the line of the root.
pub(crate) fn push_root(out: &mut Vec<u8>, form: ReportForm, name: &[u16]) -> Result<(), AllocError>
    ensures { OnOk result (out.new.items ≡ out.old.items ++ printed form (RootLine name.now)) }
{
    match form {
        ReportForm::Text => {
            out.extend_from_slice(b"root ")?;
            push_written(out, name)?;
            out.extend_from_slice(b"\n")
        }
        ReportForm::Json => push_named(out, b"root", name),
    }
}

/// Appends the line of a key at a path, which isn't empty.
pub(crate) fn push_key_at(
    alloc: Global,
    out: &mut Vec<u8>,
    form: ReportForm,
    path: &[Units],
) -> Result<(), AllocError>
    ensures { OnOk result (out.new.items ≡ out.old.items ++ printed form (KeyAtLine path.now)) }
{
    match form {
        ReportForm::Text => {
            out.extend_from_slice(b"key ")?;
            push_path(alloc, out, path)?;
            out.extend_from_slice(b"\n")
        }
        ReportForm::Json => {
            open_object(out, b"key")?;
            push_texts_field(out, b"path", path)?;
            close_object(out)
        }
    }
}

/// Appends the line of a time stamp.
pub(crate) fn push_stamp(
    alloc: Global,
    out: &mut Vec<u8>,
    form: ReportForm,
    stamp: u64,
) -> Result<(), AllocError>
    ensures { OnOk result (out.new.items ≡ out.old.items ++ printed form (StampLine stamp)) }
{
    match form {
        ReportForm::Text => {
            out.extend_from_slice(b"stamp ")?;
            push_moment(out, stamp)?;
            out.extend_from_slice(b"\n")
        }
        ReportForm::Json => push_stamp_object(alloc, out, stamp),
    }
}

/// Appends the line of flags.
pub(crate) fn push_flags(
    alloc: Global,
    out: &mut Vec<u8>,
    form: ReportForm,
    flags: u16,
) -> Result<(), AllocError>
    ensures { OnOk result (out.new.items ≡ out.old.items ++ printed form (FlagsLine flags)) }
{
    match form {
        ReportForm::Text => {
            out.extend_from_slice(b"flags 0x")?;
            push_hex(alloc, out, &flags.to_be_bytes())?;
            out.extend_from_slice(b"\n")
        }
        ReportForm::Json => {
            open_object(out, b"flags")?;
            push_number_field(out, b"flags", u64::from(flags))?;
            close_object(out)
        }
    }
}

/// Appends the line of a class of units.
pub(crate) fn push_class(
    out: &mut Vec<u8>,
    form: ReportForm,
    units: &[u16],
) -> Result<(), AllocError>
    ensures { OnOk result (out.new.items ≡ out.old.items ++ printed form (ClassLine units.now)) }
{
    match form {
        ReportForm::Text => {
            out.extend_from_slice(b"class ")?;
            push_quoted(out, units)?;
            out.extend_from_slice(b"\n")
        }
        ReportForm::Json => {
            open_object(out, b"class")?;
            push_text_field(out, b"text", units)?;
            close_object(out)
        }
    }
}

fn push_counted(alloc: Global, out: &mut Vec<u8>, bytes: &[u8]) -> Result<(), AllocError>
    ensures { OnOk result (out.new.items ≡ out.old.items ++ counted_text bytes.now) }
{
    push_number(out, bytes.len() as u64)?;
    out.push(b' ')?;
    push_hex(alloc, out, bytes)
}

/// Appends the line of a class of an odd length.
pub(crate) fn push_class_bytes(
    alloc: Global,
    out: &mut Vec<u8>,
    form: ReportForm,
    bytes: &[u8],
) -> Result<(), AllocError>
    ensures { OnOk result (out.new.items ≡ out.old.items ++ printed form (ClassBytesLine bytes.now)) }
{
    match form {
        ReportForm::Text => {
            out.extend_from_slice(b"class hex ")?;
            push_counted(alloc, out, bytes)?;
            out.extend_from_slice(b"\n")
        }
        ReportForm::Json => push_bytes_object(alloc, out, b"class", bytes),
    }
}

/// Appends the line of a security descriptor.
pub(crate) fn push_security(
    alloc: Global,
    out: &mut Vec<u8>,
    form: ReportForm,
    bytes: &[u8],
) -> Result<(), AllocError>
    ensures { OnOk result (out.new.items ≡ out.old.items ++ printed form (SecurityLine bytes.now)) }
{
    match form {
        ReportForm::Text => {
            out.extend_from_slice(b"security ")?;
            push_counted(alloc, out, bytes)?;
            out.extend_from_slice(b"\n")
        }
        ReportForm::Json => push_bytes_object(alloc, out, b"security", bytes),
    }
}

/// Appends the line of a child.
pub(crate) fn push_subkey(
    out: &mut Vec<u8>,
    form: ReportForm,
    name: &[u16],
) -> Result<(), AllocError>
    ensures { OnOk result (out.new.items ≡ out.old.items ++ printed form (SubkeyLine name.now)) }
{
    match form {
        ReportForm::Text => {
            out.extend_from_slice(b"subkey ")?;
            push_name(out, name)?;
            out.extend_from_slice(b"\n")
        }
        ReportForm::Json => push_named(out, b"subkey", name),
    }
}

/// Appends the line that nothing was found.
pub(crate) fn push_no_key(out: &mut Vec<u8>, form: ReportForm) -> Result<(), AllocError>
    ensures { OnOk result (out.new.items ≡ out.old.items ++ printed form NoKeyLine) }
{
    match form {
        ReportForm::Text => out.extend_from_slice(b"refused key no-key\n"),
        ReportForm::Json => push_refused(out),
    }
}

/// Appends the last line.
pub(crate) fn push_end(out: &mut Vec<u8>, form: ReportForm) -> Result<(), AllocError>
    ensures { OnOk result (out.new.items ≡ out.old.items ++ printed form EndLine) }
{
    match form {
        ReportForm::Text => out.extend_from_slice(b"end\n"),
        ReportForm::Json => {
            open_object(out, b"end")?;
            close_object(out)
        }
    }
}
