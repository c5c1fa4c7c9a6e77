//! What a log is to a dirty hive.

ghost use Rattle.std.specs.Prelude.{◌≡◌, ◌≤◌, ◌*◌, ◌/◌, ◌++◌, length, take, IfOk, OnOk};
ghost use Rattle.windows_logs.specs.log_parts.Wide.{wide_base_of};
ghost use Rattle.log_replay.specs.Reading.{based, reading_of, entries_in, run_line, fault_lines, old_line, reading_lines};

use crate::line::{LogName, ReplayLine};
use nt_bytes::{Bytes, HiveFault, Row};
use regf_base::BaseBlock;
use std::alloc::{AllocError, Global};
use windows_logs::dirt_log::{OldReading, read_old};
use windows_logs::entry_log::{Entry, Run, read_run};
use windows_logs::log_parts::{FileRole, LogFault, LogFaultKind, read_wide};

/// What a log is to a dirty hive.
#[derive(Drop)]
pub enum LogReading {
    /// It has no bytes.
    Empty,
    /// Its base block has a fault.
    Broken(LogFault),
    /// A new log.
    New(Run),
    /// An old log, with its base block.
    Old(BaseBlock, OldReading),
}

/// A log of whole sectors, and what it is to the hive.
#[derive(Drop)]
pub struct GivenLog {
    pub name: LogName,
    pub bytes: Bytes,
    pub reading: LogReading,
}

/// The base block of a file that has one sector at least.
pub(crate) fn first_base(file: &[u8], role: FileRole) -> Result<BaseBlock, HiveFault>
    requires { 512 ≤ length file.now }
    ensures { result ≡ wide_base_of (take 512 file.now) role }
{
    let mut sector = [0; 512];
    sector.copy_from_slice(&file[..512]);
    read_wide(&sector, role)
}

/// What a log with this base block is to the hive.
fn based(
    alloc: Global,
    base: Result<BaseBlock, HiveFault>,
    log: &[u8],
    hive: &BaseBlock,
    have: usize,
) -> Result<LogReading, AllocError>
    requires whole { 512 * (length log.now / 512) ≡ length log.now }
    requires first { 512 ≤ length log.now }
    ensures exact { IfOk result (λ reading. reading ≡ based base log.now hive.now have) }
{
    match base {
        Err(fault) => Ok(LogReading::Broken(LogFault {
            kind: LogFaultKind::LogBase,
            at: fault.at as usize,
        })),
        Ok(base) => {
            if base.kind == 6 {
                return Ok(LogReading::New(read_run(alloc, log)?));
            }
            Ok(LogReading::Old(base, read_old(log, &base, hive, have)))
        }
    }
}

/// Reads a log of whole sectors, beside a hive with this base block whose file has that many bytes.
#[tactic(auto, unfolding(crate::specs::Reading::reading_of))]
pub(crate) fn read_log(
    alloc: Global,
    log: &[u8],
    hive: &BaseBlock,
    have: usize,
) -> Result<LogReading, AllocError>
    requires whole { 512 * (length log.now / 512) ≡ length log.now }
    ensures exact { IfOk result (λ reading. reading ≡ reading_of log.now hive.now have) }
{
    if log.is_empty() {
        return Ok(LogReading::Empty);
    }
    based(alloc, first_base(log, FileRole::Log), log, hive, have)
}

/// The entries of a log.
pub(crate) fn entries_in(reading: &LogReading) -> &[Entry]
    ensures { result.now ≡ entries_in reading.now }
{
    match reading {
        LogReading::New(run) => run.entries.as_slice(),
        LogReading::Empty | LogReading::Broken(_) | LogReading::Old(_, _) => &[],
    }
}

// ---- what is reported of it

fn fault_line(name: LogName, fault: &LogFault) -> ReplayLine
    ensures { result ≡ ReplayLine.Fault fault.now.kind name fault.now.at }
{
    ReplayLine::Fault(fault.kind, name, fault.at)
}

fn run_line(name: LogName, entries: &[Entry]) -> ReplayLine
    ensures { result ≡ run_line name entries.now }
{
    match entries {
        [] => ReplayLine::NoEntries(name),
        [first, ..] => ReplayLine::Entries(
            name,
            entries.len(),
            first.number,
            entries[entries.len() - 1].number,
        ),
    }
}

fn push_fault(
    lines: &mut Row<ReplayLine>,
    name: LogName,
    fault: &Option<LogFault>,
) -> Result<(), AllocError>
    ensures { OnOk result (lines.new ≡ lines.old ++ fault_lines name fault.now) }
{
    match fault {
        None => Ok(()),
        Some(fault) => lines.push(fault_line(name, fault)),
    }
}

fn old_line(name: LogName, reading: &OldReading) -> ReplayLine
    ensures { result ≡ old_line name reading.now }
{
    match reading {
        OldReading::Broken(fault) => fault_line(name, fault),
        OldReading::OtherStamp(number) => ReplayLine::OtherStamp(name, *number),
        OldReading::OtherNumber(number) => ReplayLine::OtherNumber(name, *number),
        OldReading::Whole(number, sectors) => ReplayLine::OldLog(name, *number, *sectors),
    }
}

fn push_run(lines: &mut Row<ReplayLine>, name: LogName, run: &Run) -> Result<(), AllocError>
    ensures { OnOk result (lines.new ≡ lines.old ++ reading_lines name (LogReading.New run.now)) }
{
    lines.push(run_line(name, run.entries.as_slice()))?;
    push_fault(lines, name, &run.fault)
}

/// Says what a log is.
pub(crate) fn push_reading(
    lines: &mut Row<ReplayLine>,
    name: LogName,
    reading: &LogReading,
) -> Result<(), AllocError>
    ensures { OnOk result (lines.new ≡ lines.old ++ reading_lines name reading.now) }
{
    match reading {
        LogReading::Empty => lines.push(ReplayLine::EmptyLog(name)),
        LogReading::Broken(fault) => lines.push(fault_line(name, fault)),
        LogReading::New(run) => push_run(lines, name, run),
        LogReading::Old(_, reading) => lines.push(old_line(name, reading)),
    }
}
