//! The lines as texts.

ghost use Rattle.std.specs.Prelude.{◌≡◌, ◌++◌, OnOk};
ghost use Rattle.repair_commands.specs.replay_text.Lines.{log_text, sequence_text, entries_text, old_text, other_text, fault_text, apply_text, replayed_text, saved_text, line_text};

use crate::replay_text::words::{kind_word, name_word, state_word};
use log_replay::{LogName, ReplayLine};
use report_text::line_text::push_number;
use std::alloc::AllocError;
use windows_logs::log_parts::LogFaultKind;

fn push_log(out: &mut Vec<u8>, name: LogName, form: &[u8]) -> Result<(), AllocError>
    ensures { OnOk result (out.new.items ≡ out.old.items ++ log_text name form.now) }
{
    out.extend_from_slice(b"log ")?;
    out.extend_from_slice(name_word(name))?;
    out.extend_from_slice(b" ")?;
    out.extend_from_slice(form)
}

fn push_sequence(out: &mut Vec<u8>, first: u32, second: u32, dirty: bool) -> Result<(), AllocError>
    ensures { OnOk result (out.new.items ≡ out.old.items ++ sequence_text first second dirty) }
{
    out.extend_from_slice(b"sequence ")?;
    push_number(out, u64::from(first))?;
    out.extend_from_slice(b" ")?;
    push_number(out, u64::from(second))?;
    out.extend_from_slice(b" ")?;
    out.extend_from_slice(state_word(dirty))?;
    out.extend_from_slice(b"\n")
}

fn push_entries(
    out: &mut Vec<u8>,
    name: LogName,
    count: usize,
    from: u32,
    to: u32,
) -> Result<(), AllocError>
    ensures { OnOk result (out.new.items ≡ out.old.items ++ entries_text name count from to) }
{
    push_log(out, name, b"new ")?;
    push_number(out, count as u64)?;
    out.extend_from_slice(b" ")?;
    push_number(out, u64::from(from))?;
    out.extend_from_slice(b" ")?;
    push_number(out, u64::from(to))?;
    out.extend_from_slice(b"\n")
}

fn push_old(out: &mut Vec<u8>, name: LogName, number: u32, sectors: u32) -> Result<(), AllocError>
    ensures { OnOk result (out.new.items ≡ out.old.items ++ old_text name number sectors) }
{
    push_log(out, name, b"old ")?;
    push_number(out, u64::from(number))?;
    out.extend_from_slice(b" sectors ")?;
    push_number(out, u64::from(sectors))?;
    out.extend_from_slice(b"\n")
}

fn push_other(out: &mut Vec<u8>, name: LogName, number: u32, word: &[u8]) -> Result<(), AllocError>
    ensures { OnOk result (out.new.items ≡ out.old.items ++ other_text name number word.now) }
{
    push_log(out, name, b"old ")?;
    push_number(out, u64::from(number))?;
    out.extend_from_slice(b" other ")?;
    out.extend_from_slice(word)?;
    out.extend_from_slice(b"\n")
}

fn push_fault(
    out: &mut Vec<u8>,
    kind: LogFaultKind,
    name: LogName,
    at: usize,
) -> Result<(), AllocError>
    ensures { OnOk result (out.new.items ≡ out.old.items ++ fault_text kind name at) }
{
    out.extend_from_slice(b"fault ")?;
    out.extend_from_slice(kind_word(kind))?;
    out.extend_from_slice(b" ")?;
    out.extend_from_slice(name_word(name))?;
    out.extend_from_slice(b" ")?;
    push_number(out, at as u64)?;
    out.extend_from_slice(b"\n")
}

fn push_apply(out: &mut Vec<u8>, name: LogName, number: u32, bytes: u64) -> Result<(), AllocError>
    ensures { OnOk result (out.new.items ≡ out.old.items ++ apply_text name number bytes) }
{
    out.extend_from_slice(b"apply ")?;
    out.extend_from_slice(name_word(name))?;
    out.extend_from_slice(b" ")?;
    push_number(out, u64::from(number))?;
    out.extend_from_slice(b" bytes ")?;
    push_number(out, bytes)?;
    out.extend_from_slice(b"\n")
}

fn push_replayed(
    out: &mut Vec<u8>,
    applied: usize,
    first: u32,
    second: u32,
) -> Result<(), AllocError>
    ensures { OnOk result (out.new.items ≡ out.old.items ++ replayed_text applied first second) }
{
    out.extend_from_slice(b"replayed ")?;
    push_number(out, applied as u64)?;
    out.extend_from_slice(b" sequence ")?;
    push_number(out, u64::from(first))?;
    out.extend_from_slice(b" ")?;
    push_number(out, u64::from(second))?;
    out.extend_from_slice(b"\n")
}

fn push_saved(out: &mut Vec<u8>, sequence: u32, bytes: usize) -> Result<(), AllocError>
    ensures { OnOk result (out.new.items ≡ out.old.items ++ saved_text sequence bytes) }
{
    out.extend_from_slice(b"saved ")?;
    push_number(out, u64::from(sequence))?;
    out.extend_from_slice(b" ")?;
    push_number(out, bytes as u64)?;
    out.extend_from_slice(b"\n")
}

/// Appends a line as a text.
pub(crate) fn push_text(out: &mut Vec<u8>, line: ReplayLine) -> Result<(), AllocError>
    ensures { OnOk result (out.new.items ≡ out.old.items ++ line_text line) }
{
    match line {
        ReplayLine::Sequence(first, second, dirty) => push_sequence(out, first, second, dirty),
        ReplayLine::EmptyLog(name) => push_log(out, name, b"empty\n"),
        ReplayLine::NoEntries(name) => push_log(out, name, b"new 0\n"),
        ReplayLine::Entries(name, count, from, to) => push_entries(out, name, count, from, to),
        ReplayLine::OldLog(name, number, sectors) => push_old(out, name, number, sectors),
        ReplayLine::OtherStamp(name, number) => push_other(out, name, number, b"stamp"),
        ReplayLine::OtherNumber(name, number) => push_other(out, name, number, b"number"),
        ReplayLine::Fault(kind, name, at) => push_fault(out, kind, name, at),
        ReplayLine::Apply(name, number, bytes) => push_apply(out, name, number, bytes),
        ReplayLine::Replayed(applied, first, second) => {
            push_replayed(out, applied, first, second)
        }
        ReplayLine::Saved(sequence, bytes) => push_saved(out, sequence, bytes),
        ReplayLine::SaveRefused => out.extend_from_slice(b"save refused dirty\n"),
        ReplayLine::End => out.extend_from_slice(b"end\n"),
    }
}
