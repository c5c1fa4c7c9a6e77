//! What a log is to a hive.

ghost use Rattle.std.specs.Prelude.{◌≡◌, ◌≤◌, ◌-◌, ◌*◌, ◌/◌, None, nat_eq, nat_le, length, drop, codes};
ghost use Rattle.std.specs.List.{starts_with};
ghost use Rattle.hive_model.specs.Recovery as book;
ghost use Rattle.hive_model.specs.Recovery.{bit, rank};
ghost use Rattle.windows_logs.specs.dirt_log.Dirt.{bits_of, needed, first_failing, dirt_checks, has_rest, whole_or, old_reading_of};

use crate::log_parts::{LogFault, LogFaultKind};
use hive_log::has_bit;
use regf_base::BaseBlock;

/// What an old log is to a hive.
#[derive(Clone, Copy)]
pub enum OldReading {
    /// It has a fault.
    Broken(LogFault),
    /// Its stamp isn't the hive's; its number.
    OtherStamp(u32),
    /// Its number is none of the hive's two.
    OtherNumber(u32),
    /// It belongs to the hive and is whole; its number, and how many sectors it has.
    Whole(u32, u32),
}

/// The number of the first sector in the log whose bit is on, for bins data of this size in bytes.
pub(crate) fn first_dirty(size: u32) -> usize
    ensures value { result ≡ book.first_dirty size }
    ensures small { result ≤ 4294967296 }
{
    1 + (size as usize / 4096 + 515) / 512
}

/// How many of the first `count` bits are on.
fn count_bits(bits: &[u8], count: u32) -> u32
    ensures count { result ≡ rank (bit bits.now) count }
    ensures small { result ≤ count }
{
    let mut on = 0;
    for i in 0..count {
        if has_bit(bits, i as usize) {
            on += 1;
        }
    }
    on
}

fn has_rest(bits: &[u8], have: usize, count: u32) -> bool
    ensures { result ≡ has_rest (bit bits.now) have count }
{
    let mut all = true;
    for i in 0..count {
        all = all && (has_bit(bits, i as usize) || (i as usize) < have);
    }
    all
}

fn fault(kind: LogFaultKind, at: usize) -> Option<LogFault>
    ensures { result ≡ Some (record { kind = kind; at = at }) }
{
    Some(LogFault { kind, at })
}

/// The bytes from this one on.
fn from_byte(log: &[u8], at: usize) -> &[u8]
    requires { at ≤ length log.now }
    ensures { result.now ≡ drop at log.now }
{
    &log[at..]
}

/// The bits of a log.
pub(crate) fn bits_in(log: &[u8]) -> &[u8]
    requires { 1024 ≤ length log.now }
    ensures { result.now ≡ drop 516 log.now }
{
    from_byte(log, 516)
}

fn is_at_least(log: &[u8], least: usize) -> bool
    ensures { result ≡ nat_le least (length log.now) }
{
    least <= log.len()
}

fn has_signature(log: &[u8]) -> bool
    requires { 1024 ≤ length log.now }
    ensures { result ≡ starts_with nat_eq (drop 512 log.now) (codes "DIRT") }
{
    from_byte(log, 512).starts_with(b"DIRT")
}

/// How many sectors of the bins data a log has.
fn marked_in(log: &[u8], size: u32) -> u32
    requires { 1024 ≤ length log.now }
    ensures count { result ≡ rank (bits_of log.now) (size / 512) }
    ensures small { result ≤ size }
{
    count_bits(bits_in(log), size / 512)
}

fn needed(log: &[u8], size: u32) -> usize
    requires { 1024 ≤ length log.now }
    ensures value { result ≡ needed log.now size }
    ensures small { result ≤ 8589934592 }
{
    first_dirty(size) + marked_in(log, size) as usize
}

fn has_its_rest(log: &[u8], size: u32, have: usize) -> bool
    requires { 1024 ≤ length log.now }
    ensures { result ≡ has_rest (bits_of log.now) (have / 512 - 8) (size / 512) }
{
    has_rest(bits_in(log), (have / 512).saturating_sub(8), size / 512)
}

/// The first check that fails.
fn dirt_fault(log: &[u8], size: u32, have: usize) -> Option<LogFault>
    ensures exact { result ≡ first_failing (dirt_checks log.now size have) }
    ensures long { result ≡ None → 1024 ≤ length log.now }
{
    if !is_at_least(log, 1024) {
        return fault(LogFaultKind::LogShort, log.len());
    }
    if !has_signature(log) {
        return fault(LogFaultKind::LogDirt, 512);
    }
    if !is_at_least(log, 512 * first_dirty(size)) {
        return fault(LogFaultKind::LogShort, log.len());
    }
    if !is_at_least(log, 512 * needed(log, size)) {
        return fault(LogFaultKind::LogShort, log.len());
    }
    if !has_its_rest(log, size, have) {
        return fault(LogFaultKind::Size, 40);
    }
    None
}

/// The reading of a log that belongs to the hive.
fn whole_or(fault: Option<LogFault>, log: &[u8], logged: &BaseBlock) -> OldReading
    requires { fault ≡ None → 1024 ≤ length log.now }
    ensures { result ≡ whole_or fault log.now logged.now }
{
    match fault {
        Some(fault) => OldReading::Broken(fault),
        None => OldReading::Whole(logged.first, marked_in(log, logged.size)),
    }
}

/// What a log with this base block is to the hive of the other one, whose file has that many bytes.
#[tactic(auto, unfolding(crate::specs::dirt_log::Dirt::old_reading_of))]
pub fn read_old(log: &[u8], logged: &BaseBlock, hive: &BaseBlock, have: usize) -> OldReading
    ensures { result ≡ old_reading_of log.now logged.now hive.now have }
{
    if logged.first != logged.second {
        return OldReading::Broken(LogFault {
            kind: LogFaultKind::LogSequence,
            at: 4,
        });
    }
    if logged.stamp != hive.stamp {
        return OldReading::OtherStamp(logged.first);
    }
    if logged.first != hive.first && logged.first != hive.second {
        return OldReading::OtherNumber(logged.first);
    }
    whole_or(dirt_fault(log, logged.size, have), log, logged)
}
