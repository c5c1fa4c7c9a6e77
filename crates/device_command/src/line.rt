//! A line, as its word and its parts.

ghost use Rattle.std.specs.Prelude.{◌≡◌, ◌++◌, codes, OnOk};
ghost use Rattle.line_parts.specs.Parts as parts;
ghost use Rattle.line_parts.specs.Views.{seen};
ghost use Rattle.device_rule.specs.Devices.{field_name};
ghost use Rattle.device_command.specs.Lines.{class_part, role_word, printed};

use crate::driver_line::push_driver_line;
use crate::words::{device_word, field_word, role_word};
use device_rule::{DeviceLine, Field, Role};
use line_parts::{Part, push_line};
use nt_bytes::Units;
use report_text::line_text::ReportForm;
use std::alloc::{AllocError, Global};

fn number(key: &[u8], number: u32) -> Part<'_>
    ensures { seen result ≡ parts.Number key.now number }
{
    Part::Number(key, u64::from(number))
}

fn field(field: Field) -> Part<'static>
    ensures { seen result ≡ parts.Word (codes "field") (field_name field) }
{
    Part::Word(b"field", field_word(field))
}

fn role(role: Role) -> Part<'static>
    ensures { seen result ≡ parts.Word (codes "role") (role_word role) }
{
    Part::Word(b"role", role_word(role))
}

fn class(class: &Option<Units>) -> Part<'_>
    ensures { seen result ≡ class_part class.now }
{
    match class {
        Some(class) => Part::Quoted(b"class", class.as_slice()),
        None => Part::Said(b"none"),
    }
}

/// Appends a line in a form.
pub(crate) fn push_device_line(
    alloc: Global,
    out: &mut Vec<u8>,
    form: ReportForm,
    line: &DeviceLine,
) -> Result<(), AllocError>
    ensures { OnOk result (out.new.items ≡ out.old.items ++ printed form line.now) }
{
    match line {
        DeviceLine::Set { number: n } => {
            push_line(alloc, out, form, b"set", &[number(b"number", *n)])
        }
        DeviceLine::NoSet { number: n } => {
            push_line(alloc, out, form, b"no-set", &[number(b"number", *n)])
        }
        DeviceLine::Of { driver } => push_driver_line(alloc, out, form, b"of", &[], driver),
        DeviceLine::NoDatabase => push_line(alloc, out, form, b"no-database", &[]),
        DeviceLine::NoEnum => push_line(alloc, out, form, b"no-enum", &[]),
        DeviceLine::Device {
            state,
            class: c,
            path,
        } => {
            let state = Part::Word(b"state", device_word(*state));
            let path = Part::Path(b"path", path.as_slice());
            push_line(alloc, out, form, b"device", &[state, class(c), path])
        }
        DeviceLine::Description { text } => {
            let text = Part::Quoted(b"text", text.as_slice());
            push_line(alloc, out, form, b"description", &[text])
        }
        DeviceLine::Flags { flags } => {
            push_line(
                alloc,
                out,
                form,
                b"flags",
                &[Part::WideHex(b"flags", *flags)],
            )
        }
        DeviceLine::Malformed { field: f } => {
            push_line(alloc, out, form, b"malformed", &[field(*f)])
        }
        DeviceLine::Load { role: r, driver } => {
            push_driver_line(alloc, out, form, b"load", &[role(*r)], driver)
        }
        DeviceLine::NoService => push_line(alloc, out, form, b"no-service", &[]),
        DeviceLine::Bound { entry, driver } => {
            let entry = Part::Quoted(b"entry", entry.as_slice());
            push_driver_line(alloc, out, form, b"bound", &[entry], driver)
        }
        DeviceLine::Unbound => push_line(alloc, out, form, b"unbound", &[]),
        DeviceLine::ClassMalformed {
            field: f,
            class,
            key,
        } => {
            let class = Part::Quoted(b"class", class.as_slice());
            let key = Part::Quoted(b"key", key.as_slice());
            push_line(
                alloc,
                out,
                form,
                b"class-malformed",
                &[field(*f), class, key],
            )
        }
        DeviceLine::ClassFilter {
            role: r,
            class,
            key,
            driver,
        } => {
            let class = Part::Quoted(b"class", class.as_slice());
            let key = Part::Quoted(b"key", key.as_slice());
            push_driver_line(
                alloc,
                out,
                form,
                b"class-filter",
                &[role(*r), class, key],
                driver,
            )
        }
        DeviceLine::Critical { entry, driver } => {
            let entry = Part::Quoted(b"entry", entry.as_slice());
            push_driver_line(alloc, out, form, b"critical", &[entry], driver)
        }
        DeviceLine::Devices { count, of } => {
            let count = Part::Number(b"count", *count);
            let all = Part::Number(b"of", *of);
            push_line(
                alloc,
                out,
                form,
                b"devices",
                &[count, Part::Said(b"of"), all],
            )
        }
        DeviceLine::Found { count } => {
            push_line(
                alloc,
                out,
                form,
                b"found",
                &[Part::Number(b"count", *count)],
            )
        }
        DeviceLine::End => push_line(alloc, out, form, b"end", &[]),
    }
}
