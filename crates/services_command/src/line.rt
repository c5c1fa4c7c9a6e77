//! A line, as its word and its parts.

ghost use Rattle.std.specs.Prelude.{◌≡◌, ◌++◌, OnOk, IfOk};
ghost use Rattle.key_text.specs.Stamps.{stamp_text};
ghost use Rattle.line_parts.specs.Parts as parts;
ghost use Rattle.services_command.specs.Lines.{printed};

use crate::entry_parts::{mark_words, put, put_front, put_overrides, put_own};
use key_text::push_moment;
use line_parts::{Part, push_line};
use report_text::line_text::ReportForm;
use service_list::{Counts, ServiceEntry, ServiceLine};
use std::alloc::{AllocError, Global};

/// The moment of a stamp.
fn moment_of(alloc: Global, stamp: u64) -> Result<Vec<u8>, AllocError>
    ensures { IfOk result (λ m. m.items ≡ stamp_text stamp) }
{
    let mut moment = Vec::new(alloc);
    push_moment(&mut moment, stamp)?;
    Ok(moment)
}

fn push_entry(
    alloc: Global,
    out: &mut Vec<u8>,
    form: ReportForm,
    entry: &ServiceEntry,
) -> Result<(), AllocError>
    ensures { OnOk result (out.new.items ≡ out.old.items ++ printed form (ServiceLine.Entry entry.now)) }
{
    let moment = moment_of(alloc, entry.written)?;
    let marks = mark_words(alloc, entry.marks.as_slice())?;
    let mut parts = Vec::new(alloc);
    put_front(&mut parts, entry)?;
    put(&mut parts, Part::Said(b"written"))?;
    put(&mut parts, Part::Word(b"written", moment.as_slice()))?;
    put_own(&mut parts, &entry.texts.own)?;
    put_overrides(&mut parts, entry.overrides.as_slice())?;
    put(&mut parts, Part::Words(b"marks", marks.as_slice()))?;
    push_line(alloc, out, form, b"entry", parts.as_slice())
}

fn push_counts(
    alloc: Global,
    out: &mut Vec<u8>,
    form: ReportForm,
    counts: Counts,
) -> Result<(), AllocError>
    ensures { OnOk result (out.new.items ≡ out.old.items ++ printed form (ServiceLine.Listed counts)) }
{
    push_line(
        alloc,
        out,
        form,
        b"listed",
        &[
            Part::Number(b"count", counts.count),
            Part::Said(b"of"),
            Part::Number(b"of", counts.of),
            Part::Said(b"driver"),
            Part::Number(b"driver", counts.driver),
            Part::Said(b"service"),
            Part::Number(b"service", counts.service),
            Part::Said(b"other"),
            Part::Number(b"other", counts.other),
            Part::Said(b"boot"),
            Part::Number(b"boot", counts.boot),
            Part::Said(b"system"),
            Part::Number(b"system", counts.system),
            Part::Said(b"automatic"),
            Part::Number(b"automatic", counts.automatic),
            Part::Said(b"demand"),
            Part::Number(b"demand", counts.demand),
            Part::Said(b"disabled"),
            Part::Number(b"disabled", counts.disabled),
            Part::Said(b"beyond"),
            Part::Number(b"beyond", counts.beyond),
            Part::Said(b"none"),
            Part::Number(b"none", counts.none),
        ],
    )
}

/// Appends a line.
pub(crate) fn push_service_line(
    alloc: Global,
    out: &mut Vec<u8>,
    form: ReportForm,
    line: &ServiceLine,
) -> Result<(), AllocError>
    ensures { OnOk result (out.new.items ≡ out.old.items ++ printed form line.now) }
{
    match line {
        ServiceLine::NoSet { number } => {
            push_line(
                alloc,
                out,
                form,
                b"no-set",
                &[Part::Number(b"number", u64::from(*number))],
            )
        }
        ServiceLine::Set { number } => {
            push_line(
                alloc,
                out,
                form,
                b"set",
                &[Part::Number(b"number", u64::from(*number))],
            )
        }
        ServiceLine::NoServices => push_line(alloc, out, form, b"no-services", &[]),
        ServiceLine::Entry(entry) => push_entry(alloc, out, form, entry),
        ServiceLine::Listed(counts) => push_counts(alloc, out, form, *counts),
        ServiceLine::End => push_line(alloc, out, form, b"end", &[]),
    }
}
