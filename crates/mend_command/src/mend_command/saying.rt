//! The lines of a repair, said to a host.

ghost use Rattle.std.specs.Prelude.{◌≡◌, ℕ, List, Option, length, IfOk};
ghost use Rattle.mend_command.specs.hive_mend.Loaded.{Loaded};
ghost use Rattle.mend_command.specs.hive_mend.Mending.{mended_by, number_by};
ghost use Rattle.mend_command.specs.mend_command.Ends.{Told, HostGoes};
ghost use Rattle.mend_command.specs.mend_command.Lines.{begun_line, begun_text, packed_line, packed_text, found_word, fault_text};
ghost use Rattle.mend_command.specs.declared.mend_command.status.MendStatus.TheVariants.{Done, WriteFault};

use crate::hive_mend::LoadedHive;
use crate::mend_command::status::MendStatus;
use command_parts::command_parts::{Refusal, Status, refuse};
use nt_bytes::HiveFault;
use nt_edge::{Host, HostStop};
use std::alloc::{AllocError, Global};

/// The line of a hive that was found so.
fn found_line(alloc: Global, word: &str, number: u32, size: usize) -> Result<Vec<u8>, AllocError>
    ensures { IfOk result (λ l. l.items ≡ begun_line word.now number size) }
{
    Ok(format!(in alloc; "{word} {number} {size}\n")?.into_bytes())
}

/// The line of a hive that was packed.
fn shorter_line(alloc: Global, number: u32, old: usize, new: usize) -> Result<Vec<u8>, AllocError>
    ensures { IfOk result (λ l. l.items ≡ packed_line number old new) }
{
    Ok(format!(in alloc; "packed {number} {old} {new}\n")?.into_bytes())
}

/// How a hive was found.
fn found(dirty: bool) -> &'static str
    ensures { result.now ≡ found_word dirty }
{
    if dirty { "recovered" } else { "clean" }
}

/// Says a text, and answers this status; or that of the host's stop.
pub(crate) fn tell<H: Host>(host: &mut H, text: &[u8], status: MendStatus) -> MendStatus
    requires sound { status ≡ WriteFault → ⊥ }
    ensures told { Told status text.now result (H.state host.old) (H.state host.new) }
    ensures host { HostGoes result (H.state host.old) (H.state host.new) }
{
    match host.say(text) {
        Ok(()) => status,
        Err(HostStop::Memory) => MendStatus::Memory,
        Err(HostStop::Write | HostStop::Read) => MendStatus::WriteFault,
    }
}

/// Says the line of a hive that was found.
fn tell_found<H: Host>(
    alloc: Global,
    host: &mut H,
    dirty: bool,
    number: u32,
    size: usize,
) -> MendStatus
    ensures told { Told Done (begun_line (found_word dirty) number size) result (H.state host.old) (H.state host.new) }
    ensures host { HostGoes result (H.state host.old) (H.state host.new) }
{
    match found_line(alloc, found(dirty), number, size) {
        Ok(line) => tell(host, line.as_slice(), MendStatus::Done),
        Err(_) => MendStatus::Memory,
    }
}

/// Says how this hive was found.
pub(crate) fn tell_loaded<H: Host>(
    alloc: Global,
    host: &mut H,
    hive: &LoadedHive,
    dirty: bool,
) -> MendStatus
    ensures told { Told Done (begun_text hive.now dirty) result (H.state host.old) (H.state host.new) }
    ensures host { HostGoes result (H.state host.old) (H.state host.new) }
{
    tell_found(alloc, host, dirty, hive.sequence(), hive.size())
}

/// Says the line of a hive that was packed.
fn tell_packed<H: Host>(
    alloc: Global,
    host: &mut H,
    number: u32,
    old: usize,
    new: usize,
) -> MendStatus
    ensures told { Told Done (packed_line number old new) result (H.state host.old) (H.state host.new) }
    ensures host { HostGoes result (H.state host.old) (H.state host.new) }
{
    match shorter_line(alloc, number, old, new) {
        Ok(line) => tell(host, line.as_slice(), MendStatus::Done),
        Err(_) => MendStatus::Memory,
    }
}

/// Says the line of a hive that was packed, where there is a new sequence number.
pub(crate) fn tell_mended<H: Host>(
    alloc: Global,
    host: &mut H,
    number: Option<u32>,
    old: usize,
    new: usize,
) -> MendStatus
    ensures told { (h : Loaded) (bins : Option (List ℕ)) → number ≡ number_by h bins → old ≡ length h.bins → new ≡ length (mended_by h bins).bins
        → Told Done (packed_text h bins) result (H.state host.old) (H.state host.new) }
    ensures host { HostGoes result (H.state host.old) (H.state host.new) }
{
    match number {
        Some(number) => tell_packed(alloc, host, number, old, new),
        None => MendStatus::Done,
    }
}

/// Says the line of a fault.
pub(crate) fn tell_fault<H: Host>(alloc: Global, host: &mut H, fault: HiveFault) -> MendStatus
    ensures told { Told MendStatus.HiveFault (fault_text fault) result (H.state host.old) (H.state host.new) }
    ensures host { HostGoes result (H.state host.old) (H.state host.new) }
{
    match refuse(alloc, host, &Refusal::HiveFault(fault)) {
        Status::HiveFault => MendStatus::HiveFault,
        Status::WriteFault => MendStatus::WriteFault,
        _ => MendStatus::Memory,
    }
}
