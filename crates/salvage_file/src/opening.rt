//! A damaged hive's base block and bins data.

ghost use Rattle.std.specs.Prelude.{◌≡◌, false, Some, None, Err, if◌then◌else◌, IfOk};
ghost use Rattle.salvage_file.specs.Opened.{as_is, dirty_as, is_short, is_size, opened, opened_as, sound_as};

use crate::base::{base_faults, bins_of, fields, head_of, push_unless};
use crate::recovery::{LogStop, RecoveredHive, recovery};
use nt_bytes::{Bytes, HiveFault, HiveFaultKind, Row};
use regf_base::BaseBlock;
use std::alloc::{AllocError, Global};
use windows_logs::log_parts::is_wide_size;

/// What was made of a hive's file.
#[derive(Clone, Copy, Debug, PartialEq, Eq)]
pub enum FileState {
    /// It has no fault in its base block, and its numbers are equal.
    Clean,
    /// It was dirty, and its log was used.
    Recovered,
    /// It is taken as it is.
    AsIs,
}

/// A hive's base block and bins data, with the faults of the base block and of the log.
#[derive(Drop)]
pub struct Opened {
    pub base: BaseBlock,
    pub state: FileState,
    pub faults: Row<HiveFault>,
    pub log: Option<LogStop>,
    pub bins: Bytes,
}

fn is_short(file: &[u8], size: u32) -> bool
    ensures { result ≡ is_short file.now size }
{
    is_wide_size(size) && file.len() < 4096 + size as usize
}

// The file as it is, with these faults.
fn as_is(
    alloc: Global,
    file: &[u8],
    base: BaseBlock,
    state: FileState,
    mut faults: Row<HiveFault>,
    short: bool,
    log: Option<LogStop>,
) -> Result<Opened, AllocError>
    ensures { IfOk result (λ o. o ≡ as_is file.now base state faults short log) }
{
    let fits = !(short || is_short(file, base.size));
    push_unless(&mut faults, fits, HiveFaultKind::Size, 40)?;
    let bins = bins_of(alloc, file, base.size)?;
    Ok(Opened {
        base,
        state,
        faults,
        log,
        bins,
    })
}

fn is_size(kind: HiveFaultKind) -> bool
    ensures { result ≡ is_size kind }
{
    kind == HiveFaultKind::Size
}

// The log's fault, where it has a line of its own.
fn own_line(stop: LogStop) -> Option<LogStop>
    ensures { result ≡ (if is_size stop.kind then None else Some stop) }
{
    if is_size(stop.kind) { None } else { Some(stop) }
}

// A dirty hive that its log can't recover.
fn left_dirty(
    alloc: Global,
    file: &[u8],
    base: BaseBlock,
    stop: LogStop,
) -> Result<Opened, AllocError>
    ensures { IfOk result (λ o. o ≡ dirty_as file.now base (Err stop)) }
{
    let faults = Row::new(alloc);
    let log = own_line(stop);
    as_is(
        alloc,
        file,
        base,
        FileState::AsIs,
        faults,
        is_size(stop.kind),
        log,
    )
}

// A dirty hive, as its log makes it.
fn dirty_as(
    alloc: Global,
    file: &[u8],
    base: BaseBlock,
    found: Result<RecoveredHive, LogStop>,
) -> Result<Opened, AllocError>
    ensures { IfOk result (λ o. o ≡ dirty_as file.now base found) }
{
    match found {
        Ok(RecoveredHive { base, bins }) => Ok(Opened {
            base,
            state: FileState::Recovered,
            faults: Row::new(alloc),
            log: None,
            bins,
        }),
        Err(stop) => left_dirty(alloc, file, base, stop),
    }
}

// A hive without a fault of its base block.
fn sound_as(alloc: Global, file: &[u8], base: BaseBlock, log: &[u8]) -> Result<Opened, AllocError>
    ensures { IfOk result (λ o. o ≡ sound_as file.now base log.now) }
{
    if base.first == base.second {
        let faults = Row::new(alloc);
        return as_is(alloc, file, base, FileState::Clean, faults, false, None);
    }
    let found = recovery(alloc, file, &base, log)?;
    dirty_as(alloc, file, base, found)
}

/// The file of a hive with its log, which is empty where there is none; both are whole sectors.
#[tactic(auto, unfolding(crate::specs::Opened::opened))]
pub(crate) fn open(alloc: Global, file: &[u8], log: &[u8]) -> Result<Opened, AllocError>
    ensures { IfOk result (λ o. o ≡ opened file.now log.now) }
{
    let head = head_of(file);
    let faults = base_faults(alloc, &head, 0)?;
    opened_as(alloc, file, fields(&head), log, faults)
}

// The same with these faults of the base block.
fn opened_as(
    alloc: Global,
    file: &[u8],
    base: BaseBlock,
    log: &[u8],
    faults: Row<HiveFault>,
) -> Result<Opened, AllocError>
    ensures { IfOk result (λ o. o ≡ opened_as file.now base log.now faults) }
{
    if faults.is_empty() {
        return sound_as(alloc, file, base, log);
    }
    as_is(alloc, file, base, FileState::AsIs, faults, false, None)
}
