//! Why a command is not begun, and how that is printed.

ghost use Rattle.std.specs.Prelude.{◌≡◌, ◌++◌, true, None, IfOk, IsOk, codes};
ghost use Rattle.std.specs.Cow.{cow_slice_items};
ghost use Rattle.std.specs.Fmt.{decimal};
ghost use Rattle.nt_edge.specs.Host.{AsksNone, KeepsFiles};
ghost use Rattle.command_parts.specs.command_parts.Refusals.{IsToldAs, LacksAsHost, Ends, needs_no_memory, refusal, refusal_text, refusal_status};
ghost use Rattle.command_parts.specs.command_parts.Leaves.{Leaves, stop_in, stopped_as};

use crate::command_parts::kinds::{hive_kind, script_kind};
use crate::command_parts::status::Status;
use boot_script::boot_script::ScriptFault;
use nt_bytes::{Bytes, HiveFault};
use nt_edge::{Host, HostStop};
use std::alloc::{AllocError, Global};
use std::borrow::CowSlice;

/// The first obstacle of a command.
#[derive(Debug, Drop)]
pub enum Refusal {
    /// The words cannot be parsed, or the system's path has none.
    Usage,
    /// A file that the command line names is absent.
    NoFile(Bytes),
    /// The script cannot be parsed.
    ScriptFault(ScriptFault),
    /// The script of `sweep` has no line `sweep` with an event after it.
    NoSweep,
    /// boot.ini is over 65,536 bytes.
    IniTooLong,
    /// boot.ini has over 64 entries.
    IniTooManyEntries,
    /// The hive has a fault.
    HiveFault(HiveFault),
}

/// A refusal, or a stop of the environment.
#[derive(Debug, Drop)]
pub enum Obstacle {
    Refused(Refusal),
    Stopped(HostStop),
}

/// The status of a call that the host stopped.
pub fn stopped(stop: HostStop) -> Status
    ensures { result ≡ stopped_as stop }
{
    match stop {
        HostStop::Read => Status::ReadFault,
        HostStop::Write => Status::WriteFault,
        HostStop::Memory => Status::Memory,
    }
}

fn no_file_line(alloc: Global, name: &[u8]) -> Result<Vec<u8>, AllocError>
    ensures { IfOk result (λ l. l.items ≡ codes "no file " ++ name.now ++ codes "\n") }
{
    let mut line = Vec::from_slice(alloc, b"no file ")?;
    line.extend_from_slice(name)?;
    line.push(b'\n')?;
    Ok(line)
}

fn script_fault_line(alloc: Global, number: u32, kind: &str) -> Result<Vec<u8>, AllocError>
    ensures { IfOk result (λ l. l.items ≡ codes "script fault " ++ decimal number ++ codes " " ++ kind.now ++ codes "\n") }
{
    Ok(format!(in alloc; "script fault {number} {kind}\n")?.into_bytes())
}

fn hive_fault_line(alloc: Global, kind: &str, at: u32) -> Result<Vec<u8>, AllocError>
    ensures { IfOk result (λ l. l.items ≡ codes "hive fault " ++ kind.now ++ codes " at " ++ decimal at ++ codes "\n") }
{
    Ok(format!(in alloc; "hive fault {kind} at {at}\n")?.into_bytes())
}

/// The line of a refusal; one that is constant, as it stands in the program.
fn refusal_line(alloc: Global, refusal: &Refusal) -> Result<CowSlice<'static, u8>, AllocError>
    ensures line { IfOk result (λ l. cow_slice_items l ≡ refusal_text refusal.now) }
    ensures constant { needs_no_memory refusal.now ≡ true → IsOk result }
{
    match refusal {
        Refusal::Usage => Ok(CowSlice::Borrowed(b"bad usage\n")),
        Refusal::NoFile(name) => Ok(CowSlice::Owned(no_file_line(alloc, name.as_slice())?)),
        Refusal::ScriptFault(fault) => {
            let line = script_fault_line(alloc, fault.line, script_kind(fault.kind))?;
            Ok(CowSlice::Owned(line))
        }
        Refusal::NoSweep => Ok(CowSlice::Borrowed(b"script fault 0 sweep\n")),
        Refusal::IniTooLong => Ok(CowSlice::Borrowed(b"boot.ini fault too-long\n")),
        Refusal::IniTooManyEntries => {
            Ok(CowSlice::Borrowed(b"boot.ini fault too-many-entries\n"))
        }
        Refusal::HiveFault(fault) => {
            let line = hive_fault_line(alloc, hive_kind(fault.kind), fault.at)?;
            Ok(CowSlice::Owned(line))
        }
    }
}

/// Its status.
fn refusal_status(refusal: &Refusal) -> Status
    ensures { result ≡ refusal_status refusal.now }
{
    match refusal {
        Refusal::Usage => Status::Usage,
        Refusal::NoFile(_) => Status::NoFile,
        Refusal::ScriptFault(_) | Refusal::NoSweep => Status::ScriptFault,
        Refusal::IniTooLong | Refusal::IniTooManyEntries => Status::BootIniFault,
        Refusal::HiveFault(_) => Status::HiveFault,
    }
}

/// Says a text, and answers this status; or that of the host's stop.
pub fn tell<H: Host>(host: &mut H, text: &[u8], status: Status) -> Status
    requires ends { stop_in status ≡ None }
    ensures leaves { Leaves (Ends (record { status = status; text = text.now })) result (H.state host.old) (H.state host.new) }
    ensures files { KeepsFiles (H.state host.old) (H.state host.new) }
    ensures unasked { AsksNone (H.state host.old) (H.state host.new) }
    ensures kept { IsToldAs status result }
    ensures own { LacksAsHost result (H.state host.old) (H.state host.new) }
{
    match host.say(text) {
        Ok(()) => status,
        Err(stop) => stopped(stop),
    }
}

/// Says the line of a refusal, and answers its status; or that of the host's stop.
pub fn refuse<H: Host>(alloc: Global, host: &mut H, why: &Refusal) -> Status
    ensures leaves { Leaves (Ends (refusal why.now)) result (H.state host.old) (H.state host.new) }
    ensures files { KeepsFiles (H.state host.old) (H.state host.new) }
    ensures unasked { AsksNone (H.state host.old) (H.state host.new) }
    ensures kept { IsToldAs (refusal_status why.now) result }
    ensures own { needs_no_memory why.now ≡ true → LacksAsHost result (H.state host.old) (H.state host.new) }
{
    match refusal_line(alloc, why) {
        Ok(line) => tell(host, line.as_slice(), refusal_status(why)),
        Err(_) => Status::Memory,
    }
}
