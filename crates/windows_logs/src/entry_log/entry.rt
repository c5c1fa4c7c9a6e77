//! One entry.

ghost use Rattle.std.specs.Prelude.{◌≡◌, ◌<◌, ◌≤◌, ◌+◌, ◌*◌, ◌/◌, true, length};
ghost use Rattle.windows_logs.specs.entry_log.Entries.{begins_entry, bytes_of, has_length, has_hashes, is_page, are_pages, has_pages};
ghost use Rattle.windows_logs.specs.entry_log.Entries as book;
ghost use Rattle.windows_logs.specs.entry_log.Runs.{follows, judged, found_at};

use crate::log_parts::{LogFaultKind, is_wide_size};
use crate::marvin_hash::marvin;
use nt_bytes::{u32_at, u64_at};

/// The fields of an entry, and where it begins.
#[derive(Clone, Copy)]
pub struct Entry {
    /// The sector of the log that it begins with.
    pub sector: usize,
    /// Its length in bytes.
    pub length: u32,
    pub number: u32,
    /// The size of the bins data in bytes.
    pub size: u32,
    /// How many pages it has.
    pub count: u32,
}

/// What stands where an entry may begin.
#[derive(Clone, Copy)]
pub enum Found {
    /// No entry that goes on with the run.
    NoEntry,
    /// An entry of which a check fails.
    Broken(LogFaultKind),
    /// A whole entry.
    Whole(Entry),
}

fn begins_entry(log: &[u8], sector: usize) -> bool
    requires { 512 * sector ≤ length log.now }
    ensures { result ≡ begins_entry log.now sector }
{
    log[512 * sector..].starts_with(b"HvLE")
}

fn entry_in(log: &[u8], sector: usize) -> Entry
    requires { 512 * sector + 512 ≤ length log.now }
    ensures { result ≡ book.entry_in log.now sector }
{
    let at = 512 * sector;
    Entry {
        sector,
        length: u32_at(log, at + 4),
        number: u32_at(log, at + 12),
        size: u32_at(log, at + 16),
        count: u32_at(log, at + 20),
    }
}

fn has_length(log: &[u8], entry: &Entry) -> bool
    requires { 512 * entry.now.sector + 512 ≤ length log.now }
    ensures { result ≡ has_length log.now entry.now }
{
    entry.length != 0
        && entry.length % 512 == 0
        && entry.length as usize <= log.len() - 512 * entry.sector
}

/// The bytes of an entry that the log has whole.
pub(crate) fn bytes_of<'a>(log: &'a [u8], entry: &Entry) -> &'a [u8]
    requires { 512 * entry.now.sector + entry.now.length ≤ length log.now }
    ensures value { result.now ≡ bytes_of log.now entry.now }
    ensures long { length result.now ≡ entry.now.length }
{
    &log[512 * entry.sector..512 * entry.sector + entry.length as usize]
}

fn has_hashes(bytes: &[u8]) -> bool
    requires { 512 ≤ length bytes.now }
    ensures { result ≡ has_hashes bytes.now }
{
    let head = &bytes[..32];
    let body = &bytes[40..];
    u64_at(bytes, 24) == marvin(body) && u64_at(bytes, 32) == marvin(head)
}

fn is_page(bytes: &[u8], size: u32, start: usize, place: u32, long: u32) -> bool
    requires { start ≤ length bytes.now }
    ensures { result ≡ is_page bytes.now size start place long }
{
    place % 512 == 0
        && long % 512 == 0
        && long != 0
        && u64::from(place) + u64::from(long) <= u64::from(size)
        && long as usize <= bytes.len() - start
}

/// Whether each page can be.
fn are_pages(bytes: &[u8], size: u32, count: u32) -> bool
    requires { 40 + 8 * count ≤ length bytes.now }
    ensures { result ≡ are_pages bytes.now size 40 (40 + 8 * count) count }
{
    let mut start = 40 + 8 * count as usize;
    for i in 0..count as usize {
        let long = u32_at(bytes, 40 + 8 * i + 4);
        if !is_page(bytes, size, start, u32_at(bytes, 40 + 8 * i), long) {
            return false;
        }
        start += long as usize;
    }
    true
}

fn has_pages(bytes: &[u8], entry: &Entry) -> bool
    ensures { result ≡ has_pages bytes.now entry.now }
{
    is_wide_size(entry.size)
        && 40 + 8 * entry.count as usize <= bytes.len()
        && are_pages(bytes, entry.size, entry.count)
}

fn judged(log: &[u8], entry: Entry) -> Found
    requires { 512 * entry.sector + 512 ≤ length log.now }
    ensures { result ≡ judged log.now entry }
{
    if !has_length(log, &entry) {
        return Found::Broken(LogFaultKind::EntrySize);
    }
    let bytes = bytes_of(log, &entry);
    if !has_hashes(bytes) {
        return Found::Broken(LogFaultKind::EntryHash);
    }
    if !has_pages(bytes, &entry) {
        return Found::Broken(LogFaultKind::EntryPage);
    }
    Found::Whole(entry)
}

fn follows(before: Option<u32>, number: u32) -> bool
    ensures { result ≡ follows before number }
{
    match before {
        None => true,
        Some(before) => number == before.wrapping_add(1),
    }
}

/// What is at this sector of a log of whole sectors, after an entry of the number before.
#[tactic(auto, unfolding(crate::specs::entry_log::Runs::found_at))]
pub(crate) fn found_at(log: &[u8], sector: usize, before: Option<u32>) -> Found
    requires whole { 512 * (length log.now / 512) ≡ length log.now }
    requires inside { 512 * sector ≤ length log.now }
    ensures { result ≡ found_at log.now sector before }
{
    if !begins_entry(log, sector) {
        return Found::NoEntry;
    }
    let entry = entry_in(log, sector);
    if !follows(before, entry.number) {
        return Found::NoEntry;
    }
    judged(log, entry)
}
