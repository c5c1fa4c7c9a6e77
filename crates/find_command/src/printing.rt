//! The lines of hits.

ghost use Rattle.std.specs.Prelude.{◌≡◌, ◌+◌, [], ◌∷◌, codes, IfOk, OnOk};
ghost use Rattle.key_text.specs.Data.{form_of};
ghost use Rattle.key_text.specs.Kinds.{kind_text};
ghost use Rattle.line_parts.specs.Parts.{line, printed};
ghost use Rattle.find_rule.specs.Hits.{Data, KeyName, ValueName, is_data_hit, value_places};
ghost use Rattle.find_rule.specs.Lines.{data_parts, hit_line};
ghost use Rattle.find_command.specs.Prints.{Prints};
ghost use Rattle.find_command.specs.Tells.{Tells};

use crate::saying::say_hit;
use find_rule::Wanted;
use key_text::{DataForm, data_form, push_kind};
use line_parts::Part;
use nt_bytes::Units;
use nt_edge::{Host, HostStop};
use reg_tree::Value;
use report_text::line_text::ReportForm;
use std::alloc::{AllocError, Global};

// ---- names of keys

fn say_key_name<H: Host>(
    alloc: Global,
    host: &mut H,
    form: ReportForm,
    found: &mut u64,
    path: &[Units],
    name: &[u16],
) -> Result<(), HostStop>
    ensures prints { Prints (printed form (hit_line (KeyName path.now name.now))) result (H.state host.old) (H.state host.new) }
    ensures count { OnOk result (found.new ≡ found.old + 1) }
{
    match path {
        [] => say_hit(
            alloc,
            host,
            form,
            found,
            b"root",
            &[Part::Written(b"name", name)],
        ),
        _ => say_hit(
            alloc,
            host,
            form,
            found,
            b"key",
            &[Part::Path(b"path", path)],
        ),
    }
}

/// Says the name of the key at this path, where that is hit.
pub(crate) fn tell_key_name<H: Host>(
    alloc: Global,
    host: &mut H,
    form: ReportForm,
    wanted: &Wanted,
    found: &mut u64,
    path: &[Units],
    name: &[u16],
) -> Result<(), HostStop>
    ensures { Tells form wanted.now (KeyName path.now name.now ∷ []) result (H.state host.old) (H.state host.new) found.old found.new }
{
    if wanted.is_name_hit(name) {
        return say_key_name(alloc, host, form, found, path, name);
    }
    Ok(())
}

// ---- names of values

fn say_value_name<'a, H: Host>(
    alloc: Global,
    host: &mut H,
    form: ReportForm,
    found: &mut u64,
    path: &'a [Units],
    name: &'a [u16],
) -> Result<(), HostStop>
    ensures prints { Prints (printed form (hit_line (ValueName path.now name.now))) result (H.state host.old) (H.state host.new) }
    ensures count { OnOk result (found.new ≡ found.old + 1) }
{
    say_hit(
        alloc,
        host,
        form,
        found,
        b"value",
        &[
            Part::Quoted(b"name", name),
            Part::Said(b"in"),
            Part::Path(b"path", path),
        ],
    )
}

/// Says the name of a value of the key at this path, where that is hit.
fn tell_value_name<H: Host>(
    alloc: Global,
    host: &mut H,
    form: ReportForm,
    wanted: &Wanted,
    found: &mut u64,
    path: &[Units],
    name: &[u16],
) -> Result<(), HostStop>
    ensures { Tells form wanted.now (ValueName path.now name.now ∷ []) result (H.state host.old) (H.state host.new) found.old found.new }
{
    if wanted.is_name_hit(name) {
        return say_value_name(alloc, host, form, found, path, name);
    }
    Ok(())
}

// ---- data

/// Says data in this form, of a type of this word.
fn say_form<'a, H: Host>(
    alloc: Global,
    host: &mut H,
    form: ReportForm,
    found: &mut u64,
    path: &'a [Units],
    name: &'a [u16],
    kind: &'a [u8],
    shown: &'a DataForm,
) -> Result<(), HostStop>
    ensures prints { Prints (printed form (line (codes "data") (data_parts name.now kind.now shown.now path.now))) result (H.state host.old) (H.state host.new) }
    ensures count { OnOk result (found.new ≡ found.old + 1) }
{
    let name = Part::Quoted(b"name", name);
    let kind = Part::Word(b"type", kind);
    let here = Part::Said(b"in");
    let path = Part::Path(b"path", path);
    match shown {
        DataForm::Dword(number) => say_hit(
            alloc,
            host,
            form,
            found,
            b"data",
            &[name, kind, Part::Dword(b"number", *number), here, path],
        ),
        DataForm::Qword(number) => say_hit(
            alloc,
            host,
            form,
            found,
            b"data",
            &[name, kind, Part::Qword(b"number", *number), here, path],
        ),
        DataForm::Strings(strings) => say_hit(
            alloc,
            host,
            form,
            found,
            b"data",
            &[
                name,
                kind,
                Part::Counted(b"list", strings.as_slice()),
                here,
                path,
            ],
        ),
        DataForm::Ended(units) => say_hit(
            alloc,
            host,
            form,
            found,
            b"data",
            &[
                name,
                kind,
                Part::Quoted(b"text", units.as_slice()),
                Part::Unless(b"ended", b"unended", true),
                here,
                path,
            ],
        ),
        DataForm::Unended(units) => say_hit(
            alloc,
            host,
            form,
            found,
            b"data",
            &[
                name,
                kind,
                Part::Quoted(b"text", units.as_slice()),
                Part::Unless(b"ended", b"unended", false),
                here,
                path,
            ],
        ),
        DataForm::Raw(bytes) => say_hit(
            alloc,
            host,
            form,
            found,
            b"data",
            &[
                name,
                kind,
                Part::Said(b"hex"),
                Part::Number(b"length", bytes.len() as u64),
                Part::Cut(b"hex", bytes.as_slice()),
                here,
                path,
            ],
        ),
    }
}

/// The word of a value's type.
fn kind_word(alloc: Global, kind: u32) -> Result<Vec<u8>, AllocError>
    ensures { IfOk result (λ word. word.items ≡ kind_text kind) }
{
    let mut word = Vec::new(alloc);
    push_kind(alloc, &mut word, kind)?;
    Ok(word)
}

/// The word of a value's type, and its data in their form.
fn shown_of(alloc: Global, value: &Value) -> Result<(Vec<u8>, DataForm), AllocError>
    ensures kind { IfOk result (λ x. x.0.items ≡ kind_text value.now.kind) }
    ensures form { IfOk result (λ x. x.1 ≡ form_of value.now.kind value.now.bytes) }
{
    let kind = kind_word(alloc, value.kind)?;
    let shown = data_form(alloc, value.kind, value.bytes.as_slice())?;
    Ok((kind, shown))
}

fn say_data<H: Host>(
    alloc: Global,
    host: &mut H,
    form: ReportForm,
    found: &mut u64,
    path: &[Units],
    value: &Value,
) -> Result<(), HostStop>
    ensures prints { Prints (printed form (hit_line (Data path.now value.now))) result (H.state host.old) (H.state host.new) }
    ensures count { OnOk result (found.new ≡ found.old + 1) }
{
    match shown_of(alloc, value) {
        Ok((kind, shown)) => say_form(
            alloc,
            host,
            form,
            found,
            path,
            value.name(),
            kind.as_slice(),
            &shown,
        ),
        Err(_) => Err(HostStop::Memory),
    }
}

/// Says the data of a value of the key at this path, where they are known to be hit.
fn tell_if_hit<H: Host>(
    alloc: Global,
    host: &mut H,
    form: ReportForm,
    wanted: &Wanted,
    found: &mut u64,
    path: &[Units],
    value: &Value,
    hit: bool,
) -> Result<(), HostStop>
    requires known { hit ≡ is_data_hit wanted.now value.now }
    ensures { Tells form wanted.now (Data path.now value.now ∷ []) result (H.state host.old) (H.state host.new) found.old found.new }
{
    if hit {
        return say_data(alloc, host, form, found, path, value);
    }
    Ok(())
}

/// Says the data of a value of the key at this path, where they are hit.
fn tell_data<H: Host>(
    alloc: Global,
    host: &mut H,
    form: ReportForm,
    wanted: &Wanted,
    found: &mut u64,
    path: &[Units],
    value: &Value,
) -> Result<(), HostStop>
    ensures { Tells form wanted.now (Data path.now value.now ∷ []) result (H.state host.old) (H.state host.new) found.old found.new }
{
    match wanted.is_data_hit(alloc, value) {
        Ok(hit) => tell_if_hit(alloc, host, form, wanted, found, path, value, hit),
        Err(_) => Err(HostStop::Memory),
    }
}

/// Says what is hit of a value of the key at this path: its name, and then its data.
pub(crate) fn tell_value<H: Host>(
    alloc: Global,
    host: &mut H,
    form: ReportForm,
    wanted: &Wanted,
    found: &mut u64,
    path: &[Units],
    value: &Value,
) -> Result<(), HostStop>
    ensures { Tells form wanted.now (value_places path.now value.now) result (H.state host.old) (H.state host.new) found.old found.new }
{
    match tell_value_name(alloc, host, form, wanted, found, path, value.name()) {
        Ok(()) => tell_data(alloc, host, form, wanted, found, path, value),
        Err(stop) => Err(stop),
    }
}
