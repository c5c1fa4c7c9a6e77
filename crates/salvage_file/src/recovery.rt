//! What a log makes of a dirty hive.

ghost use Rattle.std.specs.Prelude.{◌≡◌, ◌+◌, IfOk};
ghost use Rattle.windows_logs.specs.dirt_log.Dirt.{IsLong};
ghost use Rattle.salvage_file.specs.Long.{IsLongAs};
ghost use Rattle.salvage_file.specs.Recovery.{beside, by_faults, by_logged, by_reading, kind_of, recovered_bins, recovery};

use crate::base::{base_faults, bins_of, fields, head_of};
use nt_bytes::{Bytes, HiveFault, HiveFaultKind};
use regf_base::BaseBlock;
use std::alloc::{AllocError, Global};
use windows_logs::dirt_log::{OldReading, put_old, read_old};
use windows_logs::log_parts::LogFaultKind;

/// A check of the log that fails, at a byte of it.
#[derive(Clone, Copy, Debug, PartialEq, Eq)]
pub struct LogStop {
    pub kind: HiveFaultKind,
    pub at: usize,
}

/// What a dirty hive is recovered as.
#[derive(Drop)]
pub struct RecoveredHive {
    pub base: BaseBlock,
    pub bins: Bytes,
}

fn kind_of(kind: LogFaultKind) -> HiveFaultKind
    ensures { result ≡ kind_of kind }
{
    match kind {
        LogFaultKind::LogBase => HiveFaultKind::LogBase,
        LogFaultKind::LogSequence => HiveFaultKind::LogSequence,
        LogFaultKind::LogShort => HiveFaultKind::LogShort,
        LogFaultKind::LogDirt => HiveFaultKind::LogDirt,
        LogFaultKind::Size => HiveFaultKind::Size,
        LogFaultKind::EntrySize => HiveFaultKind::LogBase,
        LogFaultKind::EntryHash => HiveFaultKind::LogBase,
        LogFaultKind::EntryPage => HiveFaultKind::LogBase,
        LogFaultKind::EntryGrow => HiveFaultKind::LogBase,
    }
}

// The bins data with the sectors that the log has.
fn recovered_bins(alloc: Global, file: &[u8], log: &[u8], size: u32) -> Result<Bytes, AllocError>
    requires { IsLong log.now size }
    ensures { IfOk result (λ b. b ≡ recovered_bins file.now log.now size) }
{
    let mut whole = Bytes::from_slice(alloc, file)?;
    whole.append_zeros((4096 + size as usize).saturating_sub(file.len()))?;
    put_old(&mut whole, log, size);
    bins_of(alloc, whole.as_slice(), size)
}

// The log's base block as that of a hive, and the bins data.
fn whole(
    alloc: Global,
    file: &[u8],
    log: &[u8],
    logged: &BaseBlock,
) -> Result<RecoveredHive, AllocError>
    requires { IsLong log.now logged.now.size }
    ensures { IfOk result (λ r. r ≡ record { base = record logged.now { kind = 0 }; bins = recovered_bins file.now log.now logged.now.size }) }
{
    let bins = recovered_bins(alloc, file, log, logged.size)?;
    let base = BaseBlock { kind: 0, ..*logged };
    Ok(RecoveredHive { base, bins })
}

fn sequence_stop() -> LogStop
    ensures { result ≡ record { kind = HiveFaultKind.LogSequence; at = 4 } }
{
    LogStop {
        kind: HiveFaultKind::LogSequence,
        at: 4,
    }
}

// What a log makes of a hive's file, as it was read.
fn by_reading(
    alloc: Global,
    file: &[u8],
    log: &[u8],
    logged: &BaseBlock,
    reading: OldReading,
) -> Result<Result<RecoveredHive, LogStop>, AllocError>
    requires { IsLongAs log.now logged.now.size reading }
    ensures { IfOk result (λ r. r ≡ by_reading file.now log.now logged.now reading) }
{
    match reading {
        OldReading::Broken(fault) => Ok(Err(LogStop {
            kind: kind_of(fault.kind),
            at: fault.at,
        })),
        OldReading::OtherStamp(_) => Ok(Err(sequence_stop())),
        OldReading::OtherNumber(_) => Ok(Err(sequence_stop())),
        OldReading::Whole(_, _) => Ok(Ok(whole(alloc, file, log, logged)?)),
    }
}

fn beside(hive: &BaseBlock, logged: &BaseBlock) -> BaseBlock
    ensures { result ≡ beside hive.now logged.now }
{
    BaseBlock {
        second: hive.first,
        stamp: logged.stamp,
        ..*hive
    }
}

// What a log with this base block makes of a hive's file.
fn by_logged(
    alloc: Global,
    file: &[u8],
    hive: &BaseBlock,
    log: &[u8],
    logged: &BaseBlock,
) -> Result<Result<RecoveredHive, LogStop>, AllocError>
    ensures { IfOk result (λ r. r ≡ by_logged file.now hive.now log.now logged.now) }
{
    let reading = read_old(log, logged, &beside(hive, logged), file.len());
    by_reading(alloc, file, log, logged, reading)
}

// What a log whose base block has these faults makes of a hive's file.
fn by_faults(
    alloc: Global,
    file: &[u8],
    hive: &BaseBlock,
    log: &[u8],
    faults: &[HiveFault],
) -> Result<Result<RecoveredHive, LogStop>, AllocError>
    ensures { IfOk result (λ r. r ≡ by_faults file.now hive.now log.now faults.now) }
{
    match faults {
        [] => by_logged(alloc, file, hive, log, &fields(&head_of(log))),
        [fault, ..] => Ok(Err(LogStop {
            kind: HiveFaultKind::LogBase,
            at: fault.at as usize,
        })),
    }
}

/// What a log makes of the file of a hive with this base block, both of whole sectors; or its first check that fails.
#[tactic(auto, unfolding(crate::specs::Recovery::recovery))]
pub(crate) fn recovery(
    alloc: Global,
    file: &[u8],
    hive: &BaseBlock,
    log: &[u8],
) -> Result<Result<RecoveredHive, LogStop>, AllocError>
    ensures { IfOk result (λ r. r ≡ recovery file.now hive.now log.now) }
{
    if log.is_empty() {
        return Ok(Err(LogStop {
            kind: HiveFaultKind::LogAbsent,
            at: 0,
        }));
    }
    let faults = base_faults(alloc, &head_of(log), 1)?;
    by_faults(alloc, file, hive, log, faults.as_slice())
}
