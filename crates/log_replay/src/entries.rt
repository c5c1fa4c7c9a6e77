//! Applying the entries of logs.

ghost use Rattle.std.specs.Prelude.{◌≡◌, ◌≤◌, ◌<◌, ◌+◌, ◌++◌, Some, IfOk, OnOk, length, option_map};
ghost use Rattle.windows_logs.specs.entry_log.Entries.{IsWhole};
ghost use Rattle.log_replay.specs.Entries.{numbered, chosen, roomy, with_entry, stepped, step_of, replayed_by};
ghost use Rattle.log_replay.specs.Reading.{AreWholeLogs};
ghost use Rattle.log_replay.specs.Seen.{found_seen};

use crate::line::ReplayLine;
use crate::reading::{GivenLog, entries_in};
use nt_bytes::{Bytes, Row};
use std::alloc::{AllocError, Global};
use windows_logs::entry_log::{Entry, grows_whole, page_bytes, put_entry};
use windows_logs::log_parts::{LogFaultKind, fill};

/// A hive between two entries.
#[derive(Drop)]
pub struct HiveNow {
    /// Its file.
    pub file: Bytes,
    /// The size of its bins data in bytes.
    pub size: u32,
    /// The number of the entry that comes next.
    pub next: u32,
    /// How many entries were applied.
    pub applied: usize,
}

/// An entry, and the log that has it.
#[derive(Clone, Copy)]
pub(crate) struct Found<'a> {
    pub(crate) log: &'a GivenLog,
    pub(crate) item: Entry,
}

/// The entry of this number.
fn numbered(entries: &[Entry], n: u32) -> Option<Entry>
    ensures { result ≡ numbered entries.now n }
{
    match entries {
        [] => None,
        [first, ..] => entries.get(n.wrapping_sub(first.number) as usize).copied(),
    }
}

/// The entry of this number, of the first log that has one.
pub(crate) fn chosen<'a>(logs: &'a [GivenLog], n: u32) -> Option<Found<'a>>
    ensures { option_map found_seen result ≡ chosen logs.now n }
{
    match logs {
        [] => None,
        [log, rest @ ..] => match numbered(entries_in(&log.reading), n) {
            Some(item) => Some(Found { log, item }),
            None => chosen(rest, n),
        },
    }
}

/// Makes a file whole sectors, with room for bins data of this size.
pub(crate) fn make_room(file: &mut Bytes, size: u32) -> Result<(), AllocError>
    ensures roomy { OnOk result (file.new ≡ roomy file.old size) }
    ensures long { OnOk result (4096 + size ≤ length file.new) }
{
    fill(file)?;
    file.append_zeros((4096 + size as usize).saturating_sub(file.len()))
}

/// Applies a whole entry.
fn apply(hive: &mut HiveNow, log: &GivenLog, entry: Entry) -> Result<(), AllocError>
    requires whole { IsWhole log.now.bytes entry }
    requires few { hive.old.applied < 4294967296 }
    ensures applied { OnOk result (hive.new ≡ with_entry hive.old (record { log = log.now; entry = entry })) }
    ensures long { OnOk result (512 ≤ length hive.new.file) }
{
    make_room(&mut hive.file, entry.size)?;
    put_entry(&mut hive.file, log.bytes.as_slice(), &entry);
    hive.size = entry.size;
    hive.next = entry.number.wrapping_add(1);
    hive.applied += 1;
    Ok(())
}

/// Applies a whole entry where its new sectors are in its pages, and says so. Answers whether it goes on.
fn stepped(
    alloc: Global,
    hive: &mut HiveNow,
    lines: &mut Row<ReplayLine>,
    found: Found<'_>,
) -> Result<bool, AllocError>
    requires whole { IsWhole found.log.now.bytes found.item }
    requires few { hive.old.applied < 4294967296 }
    requires long { 512 ≤ length hive.old.file }
    ensures goes { IfOk result (λ goes. goes ≡ (stepped (Some (found_seen found.entry)) hive.old).goes) }
    ensures hive { OnOk result (hive.new ≡ (stepped (Some (found_seen found.entry)) hive.old).hive) }
    ensures lines { OnOk result (lines.new ≡ lines.old ++ (stepped (Some (found_seen found.entry)) hive.old).lines) }
    ensures few { OnOk result (hive.new.applied ≤ hive.old.applied + 1) }
    ensures long { OnOk result (512 ≤ length hive.new.file) }
{
    let bytes = found.log.bytes.as_slice();
    if !grows_whole(alloc, bytes, &found.item, hive.size)? {
        let at = 512 * found.item.sector;
        lines.push(ReplayLine::Fault(LogFaultKind::EntryGrow, found.log.name, at))?;
        return Ok(false);
    }
    let count = page_bytes(bytes, &found.item);
    lines.push(ReplayLine::Apply(found.log.name, found.item.number, count))?;
    apply(hive, found.log, found.item)?;
    Ok(true)
}

/// Applies the entry that comes next, where there is one.
fn step(
    alloc: Global,
    hive: &mut HiveNow,
    lines: &mut Row<ReplayLine>,
    logs: &[GivenLog],
) -> Result<bool, AllocError>
    requires whole { AreWholeLogs logs.now }
    requires few { hive.old.applied < 4294967296 }
    requires long { 512 ≤ length hive.old.file }
    ensures goes { IfOk result (λ goes. goes ≡ (step_of logs.now hive.old).goes) }
    ensures hive { OnOk result (hive.new ≡ (step_of logs.now hive.old).hive) }
    ensures lines { OnOk result (lines.new ≡ lines.old ++ (step_of logs.now hive.old).lines) }
    ensures few { OnOk result (hive.new.applied ≤ hive.old.applied + 1) }
    ensures long { OnOk result (512 ≤ length hive.new.file) }
{
    match chosen(logs, hive.next) {
        None => Ok(false),
        Some(found) => stepped(alloc, hive, lines, found),
    }
}

/// Applies the entries of the logs from the hive's next number on, as far as they follow one by one.
pub(crate) fn replay_entries(
    alloc: Global,
    hive: &mut HiveNow,
    lines: &mut Row<ReplayLine>,
    logs: &[GivenLog],
) -> Result<(), AllocError>
    requires whole { AreWholeLogs logs.now }
    requires none { hive.old.applied ≡ 0 }
    requires long { 512 ≤ length hive.old.file }
    ensures hive { OnOk result (hive.new ≡ (replayed_by logs.now hive.old).hive) }
    ensures lines { OnOk result (lines.new ≡ lines.old ++ (replayed_by logs.now hive.old).lines) }
    ensures long { OnOk result (512 ≤ length hive.new.file) }
{
    for done in 0..4_294_967_296_u64 {
        if !step(alloc, hive, lines, logs)? {
            return Ok(());
        }
    }
    Ok(())
}
