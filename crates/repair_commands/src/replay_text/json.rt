//! The lines as objects of JSON.

ghost use Rattle.std.specs.Prelude.{◌≡◌, [], ◌++◌, OnOk};
ghost use Rattle.report_text.specs.line_text.Objects.{fields_text};
ghost use Rattle.repair_commands.specs.replay_text.Lines.{log_fields, other_fields, word_of, fields_of, line_json};

use crate::replay_text::words::{kind_word, name_word, state_word};
use log_replay::{LogName, ReplayLine};
use report_text::line_text::{close_object, open_object, push_number_field, push_word_field};
use std::alloc::AllocError;
use windows_logs::log_parts::LogFaultKind;

fn push_log(out: &mut Vec<u8>, name: LogName, form: &[u8]) -> Result<(), AllocError>
    ensures { OnOk result (out.new.items ≡ out.old.items ++ fields_text (log_fields name form.now [])) }
{
    push_word_field(out, b"log", name_word(name))?;
    push_word_field(out, b"form", form)
}

fn push_sequence(out: &mut Vec<u8>, first: u32, second: u32, dirty: bool) -> Result<(), AllocError>
    ensures { OnOk result (out.new.items ≡ out.old.items ++ fields_text (fields_of (ReplayLine.Sequence first second dirty))) }
{
    push_number_field(out, b"first", u64::from(first))?;
    push_number_field(out, b"second", u64::from(second))?;
    push_word_field(out, b"state", state_word(dirty))
}

fn push_none(out: &mut Vec<u8>, name: LogName) -> Result<(), AllocError>
    ensures { OnOk result (out.new.items ≡ out.old.items ++ fields_text (fields_of (ReplayLine.NoEntries name))) }
{
    push_log(out, name, b"new")?;
    push_number_field(out, b"entries", 0)
}

fn push_entries(
    out: &mut Vec<u8>,
    name: LogName,
    count: usize,
    from: u32,
    to: u32,
) -> Result<(), AllocError>
    ensures { OnOk result (out.new.items ≡ out.old.items ++ fields_text (fields_of (ReplayLine.Entries name count from to))) }
{
    push_log(out, name, b"new")?;
    push_number_field(out, b"entries", count as u64)?;
    push_number_field(out, b"from", u64::from(from))?;
    push_number_field(out, b"to", u64::from(to))
}

fn push_old(out: &mut Vec<u8>, name: LogName, number: u32, sectors: u32) -> Result<(), AllocError>
    ensures { OnOk result (out.new.items ≡ out.old.items ++ fields_text (fields_of (ReplayLine.OldLog name number sectors))) }
{
    push_log(out, name, b"old")?;
    push_number_field(out, b"number", u64::from(number))?;
    push_number_field(out, b"sectors", u64::from(sectors))
}

fn push_other(out: &mut Vec<u8>, name: LogName, number: u32, word: &[u8]) -> Result<(), AllocError>
    ensures { OnOk result (out.new.items ≡ out.old.items ++ fields_text (other_fields name number word.now)) }
{
    push_word_field(out, b"log", name_word(name))?;
    push_word_field(out, b"form", b"old")?;
    push_number_field(out, b"number", u64::from(number))?;
    push_word_field(out, b"other", word)
}

fn push_fault(
    out: &mut Vec<u8>,
    kind: LogFaultKind,
    name: LogName,
    at: usize,
) -> Result<(), AllocError>
    ensures { OnOk result (out.new.items ≡ out.old.items ++ fields_text (fields_of (ReplayLine.Fault kind name at))) }
{
    push_word_field(out, b"kind", kind_word(kind))?;
    push_word_field(out, b"log", name_word(name))?;
    push_number_field(out, b"at", at as u64)
}

fn push_apply(out: &mut Vec<u8>, name: LogName, number: u32, bytes: u64) -> Result<(), AllocError>
    ensures { OnOk result (out.new.items ≡ out.old.items ++ fields_text (fields_of (ReplayLine.Apply name number bytes))) }
{
    push_word_field(out, b"log", name_word(name))?;
    push_number_field(out, b"number", u64::from(number))?;
    push_number_field(out, b"bytes", bytes)
}

fn push_replayed(
    out: &mut Vec<u8>,
    applied: usize,
    first: u32,
    second: u32,
) -> Result<(), AllocError>
    ensures { OnOk result (out.new.items ≡ out.old.items ++ fields_text (fields_of (ReplayLine.Replayed applied first second))) }
{
    push_number_field(out, b"applied", applied as u64)?;
    push_number_field(out, b"first", u64::from(first))?;
    push_number_field(out, b"second", u64::from(second))
}

fn push_saved(out: &mut Vec<u8>, sequence: u32, bytes: usize) -> Result<(), AllocError>
    ensures { OnOk result (out.new.items ≡ out.old.items ++ fields_text (fields_of (ReplayLine.Saved sequence bytes))) }
{
    push_number_field(out, b"sequence", u64::from(sequence))?;
    push_number_field(out, b"bytes", bytes as u64)
}

fn push_refused(out: &mut Vec<u8>) -> Result<(), AllocError>
    ensures { OnOk result (out.new.items ≡ out.old.items ++ fields_text (fields_of ReplayLine.SaveRefused)) }
{
    push_word_field(out, b"refused", b"dirty")
}

fn push_fields(out: &mut Vec<u8>, line: ReplayLine) -> Result<(), AllocError>
    ensures { OnOk result (out.new.items ≡ out.old.items ++ fields_text (fields_of line)) }
{
    match line {
        ReplayLine::Sequence(first, second, dirty) => push_sequence(out, first, second, dirty),
        ReplayLine::EmptyLog(name) => push_log(out, name, b"empty"),
        ReplayLine::NoEntries(name) => push_none(out, name),
        ReplayLine::Entries(name, count, from, to) => push_entries(out, name, count, from, to),
        ReplayLine::OldLog(name, number, sectors) => push_old(out, name, number, sectors),
        ReplayLine::OtherStamp(name, number) => push_other(out, name, number, b"stamp"),
        ReplayLine::OtherNumber(name, number) => push_other(out, name, number, b"number"),
        ReplayLine::Fault(kind, name, at) => push_fault(out, kind, name, at),
        ReplayLine::Apply(name, number, bytes) => push_apply(out, name, number, bytes),
        ReplayLine::Replayed(applied, first, second) => {
            push_replayed(out, applied, first, second)
        }
        ReplayLine::Saved(sequence, bytes) => push_saved(out, sequence, bytes),
        ReplayLine::SaveRefused => push_refused(out),
        ReplayLine::End => Ok(()),
    }
}

fn word_of(line: ReplayLine) -> &'static [u8]
    ensures { result.now ≡ word_of line }
{
    match line {
        ReplayLine::Sequence(_, _, _) => b"sequence",
        ReplayLine::EmptyLog(_) => b"log",
        ReplayLine::NoEntries(_) => b"log",
        ReplayLine::Entries(_, _, _, _) => b"log",
        ReplayLine::OldLog(_, _, _) => b"log",
        ReplayLine::OtherStamp(_, _) => b"log",
        ReplayLine::OtherNumber(_, _) => b"log",
        ReplayLine::Fault(_, _, _) => b"fault",
        ReplayLine::Apply(_, _, _) => b"apply",
        ReplayLine::Replayed(_, _, _) => b"replayed",
        ReplayLine::Saved(_, _) => b"saved",
        ReplayLine::SaveRefused => b"save",
        ReplayLine::End => b"end",
    }
}

/// Appends a line as an object.
pub(crate) fn push_json(out: &mut Vec<u8>, line: ReplayLine) -> Result<(), AllocError>
    ensures { OnOk result (out.new.items ≡ out.old.items ++ line_json line) }
{
    open_object(out, word_of(line))?;
    push_fields(out, line)?;
    close_object(out)
}
