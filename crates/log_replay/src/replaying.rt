//! What the logs of Windows make of a hive.

ghost use Rattle.std.specs.Prelude.{◌≡◌, ◌≤◌, ◌*◌, ◌/◌, ◌++◌, length, take, map, Ok, IsOk, IfOk, OnOk};
ghost use Rattle.windows_logs.specs.dirt_log.Dirt.{IsLong};
ghost use Rattle.windows_logs.specs.log_parts.Filled.{filled};
ghost use Rattle.log_replay.specs.Reading.{AreWholeLogs, readings_lines};
ghost use Rattle.log_replay.specs.Old as old;
ghost use Rattle.log_replay.specs.Replay.{with_bins, hive_base_of, given, with_base, kept, by_entries, after_old, by_old, dirty_of, outcome_of, replayed_as, replay_of};
ghost use Rattle.log_replay.specs.Seen.{old_seen};
ghost use Rattle.log_replay.specs.Stops.{ReadsAs};

use crate::entries::{HiveNow, replay_entries};
use crate::line::{LogName, ReplayLine};
use crate::old::{FoundOld, apply_old, chosen_old};
use crate::reading::{GivenLog, first_base, push_reading, read_log};
use nt_bytes::{Bytes, HiveFault, HiveFaultKind, ReadStop, Row};
use regf_base::{BaseBlock, base_bytes};
use std::alloc::{AllocError, Global};
use windows_logs::log_parts::{FileRole, fill};

/// A log's file.
#[derive(Drop)]
pub struct LogFile {
    pub name: LogName,
    pub bytes: Bytes,
}

/// What the logs made of a hive: its file, its two numbers, and what is printed.
#[derive(Drop)]
pub struct Outcome {
    pub file: Bytes,
    pub first: u32,
    pub second: u32,
    pub lines: Row<ReplayLine>,
}

// ---- the hive

fn with_bins(base: Result<BaseBlock, HiveFault>, have: usize) -> Result<BaseBlock, HiveFault>
    ensures { result ≡ with_bins base have }
{
    match base {
        Ok(base) if 4096 + base.size as usize <= have => Ok(base),
        Ok(_) => Err(HiveFault {
            kind: HiveFaultKind::Size,
            at: 40,
        }),
        Err(fault) => Err(fault),
    }
}

/// The base block of a hive's file of whole sectors.
#[tactic(auto, unfolding(crate::specs::Replay::hive_base_of))]
fn hive_base(file: &[u8]) -> Result<BaseBlock, HiveFault>
    requires { 512 * (length file.now / 512) ≡ length file.now }
    ensures exact { result ≡ hive_base_of file.now }
    ensures long { IsOk result → 512 ≤ length file.now }
{
    if file.is_empty() {
        return Err(HiveFault {
            kind: HiveFaultKind::NotRegf,
            at: 0,
        });
    }
    with_bins(first_base(file, FileRole::Hive), file.len())
}

// ---- the logs

fn given(
    alloc: Global,
    file: LogFile,
    hive: &BaseBlock,
    have: usize,
) -> Result<GivenLog, AllocError>
    ensures { IfOk result (λ log. log ≡ given hive.now have file) }
{
    let mut bytes = file.bytes;
    fill(&mut bytes)?;
    let reading = read_log(alloc, bytes.as_slice(), hive, have)?;
    Ok(GivenLog {
        name: file.name,
        bytes,
        reading,
    })
}

fn read_logs(
    alloc: Global,
    files: Row<LogFile>,
    hive: &BaseBlock,
    have: usize,
) -> Result<Row<GivenLog>, AllocError>
    ensures { IfOk result (λ logs. logs ≡ map (given hive.now have) files) }
{
    let mut logs = Row::new(alloc);
    for file in files.into_vec() {
        logs.push(given(alloc, file, hive, have)?)?;
    }
    Ok(logs)
}

fn push_readings(lines: &mut Row<ReplayLine>, logs: &[GivenLog]) -> Result<(), AllocError>
    ensures { OnOk result (lines.new ≡ lines.old ++ readings_lines logs.now) }
{
    match logs {
        [] => Ok(()),
        [log, rest @ ..] => {
            push_reading(lines, log.name, &log.reading)?;
            push_readings(lines, rest)
        }
    }
}

// ---- the result

fn write_base(file: &mut Bytes, base: &BaseBlock)
    requires { 512 ≤ length file.old }
    ensures { file.new ≡ with_base file.old base.now }
{
    let mut sector = [0; 512];
    base_bytes(base, &mut sector);
    file.overwrite(0, &sector);
}

/// The first bytes of a file, that many.
fn cut(file: Bytes, length: usize) -> Bytes
    ensures { result ≡ take length file }
{
    let mut bytes = file.into_vec();
    bytes.truncate(length);
    Bytes::from_vec(bytes)
}

fn kept(file: Bytes, hive: &BaseBlock, mut lines: Row<ReplayLine>) -> Result<Outcome, AllocError>
    ensures { IfOk result (λ outcome. outcome ≡ kept file hive.now lines) }
{
    lines.push(ReplayLine::Replayed(0, hive.first, hive.second))?;
    Ok(Outcome {
        file,
        first: hive.first,
        second: hive.second,
        lines,
    })
}

fn by_entries(
    now: HiveNow,
    hive: &BaseBlock,
    mut lines: Row<ReplayLine>,
) -> Result<Outcome, AllocError>
    requires { 512 ≤ length now.file }
    ensures { IfOk result (λ outcome. outcome ≡ by_entries hive.now lines now) }
{
    let base = BaseBlock {
        first: now.next,
        second: now.next,
        size: now.size,
        ..*hive
    };
    let mut file = now.file;
    write_base(&mut file, &base);
    lines.push(ReplayLine::Replayed(now.applied, now.next, now.next))?;
    Ok(Outcome {
        file,
        first: now.next,
        second: now.next,
        lines,
    })
}

fn after_old(
    mut file: Bytes,
    hive: &BaseBlock,
    mut lines: Row<ReplayLine>,
    found: &FoundOld<'_>,
) -> Result<Outcome, AllocError>
    requires { IsLong found.now.log.now.bytes found.now.whole.base.size }
    ensures { IfOk result (λ outcome. outcome ≡ after_old file hive.now lines (old_seen found.now)) }
{
    apply_old(&mut file, found)?;
    let base = BaseBlock {
        first: hive.first,
        second: hive.first,
        kind: 0,
        ..found.whole.base
    };
    write_base(&mut file, &base);
    let count = 512 * u64::from(found.whole.sectors);
    lines.push(ReplayLine::Apply(found.log.name, found.whole.base.first, count))?;
    lines.push(ReplayLine::Replayed(1, hive.first, hive.first))?;
    Ok(Outcome {
        file,
        first: hive.first,
        second: hive.first,
        lines,
    })
}

/// By an old log; without one, the first bytes of the file, that many.
fn by_old(
    file: Bytes,
    count: usize,
    hive: &BaseBlock,
    lines: Row<ReplayLine>,
    logs: &[GivenLog],
) -> Result<Outcome, AllocError>
    requires whole { AreWholeLogs logs.now }
    requires same { filled (take count file) ≡ file }
    ensures { IfOk result (λ outcome. outcome ≡ by_old (take count file) hive.now lines (old.chosen_old logs.now hive.now.first)) }
{
    match chosen_old(logs, hive.first) {
        None => kept(cut(file, count), hive, lines),
        Some(found) => after_old(file, hive, lines, &found),
    }
}

/// A dirty hive, whose file has that many bytes and is filled up to whole sectors.
fn dirty(
    alloc: Global,
    file: Bytes,
    count: usize,
    hive: &BaseBlock,
    logs: &[GivenLog],
) -> Result<Outcome, AllocError>
    requires whole { AreWholeLogs logs.now }
    requires same { filled (take count file) ≡ file }
    requires long { 512 ≤ length file }
    ensures { IfOk result (λ outcome. outcome ≡ dirty_of (take count file) hive.now logs.now) }
{
    let mut lines = Row::new(alloc);
    lines.push(ReplayLine::Sequence(hive.first, hive.second, true))?;
    push_readings(&mut lines, logs)?;
    let mut now = HiveNow {
        file,
        size: hive.size,
        next: hive.second,
        applied: 0,
    };
    replay_entries(alloc, &mut now, &mut lines, logs)?;
    if now.applied == 0 {
        return by_old(now.file, count, hive, lines, logs);
    }
    by_entries(now, hive, lines)
}

fn of_base(
    alloc: Global,
    file: Bytes,
    count: usize,
    hive: &BaseBlock,
    files: Row<LogFile>,
) -> Result<Outcome, AllocError>
    requires same { filled (take count file) ≡ file }
    requires long { 512 ≤ length file }
    ensures { IfOk result (λ outcome. outcome ≡ outcome_of (take count file) hive.now files) }
{
    if hive.first == hive.second {
        let mut lines = Row::new(alloc);
        lines.push(ReplayLine::Sequence(hive.first, hive.second, false))?;
        return kept(cut(file, count), hive, lines);
    }
    let logs = read_logs(alloc, files, hive, file.len())?;
    dirty(alloc, file, count, hive, logs.as_slice())
}

/// The same, as the answer of a reading.
fn answered(
    alloc: Global,
    file: Bytes,
    count: usize,
    hive: &BaseBlock,
    files: Row<LogFile>,
) -> Result<Outcome, ReadStop>
    requires same { filled (take count file) ≡ file }
    requires long { 512 ≤ length file }
    ensures { ReadsAs result (Ok (outcome_of (take count file) hive.now files)) }
{
    match of_base(alloc, file, count, hive, files) {
        Ok(outcome) => Ok(outcome),
        Err(_) => Err(ReadStop::Memory),
    }
}

/// What the logs make of a hive's file of that many bytes that is filled up to whole sectors, or the hive's fault.
fn of_filled(
    alloc: Global,
    file: Bytes,
    count: usize,
    files: Row<LogFile>,
) -> Result<Outcome, ReadStop>
    requires whole { 512 * (length file / 512) ≡ length file }
    requires same { filled (take count file) ≡ file }
    ensures { ReadsAs result (replayed_as (take count file) files (hive_base_of file)) }
{
    match hive_base(file.as_slice()) {
        Ok(hive) => answered(alloc, file, count, &hive, files),
        Err(fault) => Err(ReadStop::Fault(fault)),
    }
}

/// What the logs make of a hive's file, or the hive's fault.
pub fn replay(alloc: Global, file: Bytes, files: Row<LogFile>) -> Result<Outcome, ReadStop>
    ensures { ReadsAs result (replay_of file files) }
{
    let count = file.len();
    let mut file = file;
    fill(&mut file)?;
    of_filled(alloc, file, count, files)
}
