//! Applying an old log.

ghost use Rattle.std.specs.Prelude.{◌≡◌, ◌≤◌, OnOk, length, option_map};
ghost use Rattle.windows_logs.specs.dirt_log.Dirt.{IsLong};
ghost use Rattle.log_replay.specs.Old.{whole_as, whole_old, is_wanted, wanted_old, first_old, chosen_old, with_old};
ghost use Rattle.log_replay.specs.Seen.{old_seen};

use crate::entries::make_room;
use crate::reading::{GivenLog, LogReading};
use nt_bytes::Bytes;
use regf_base::BaseBlock;
use std::alloc::AllocError;
use windows_logs::dirt_log::{OldReading, put_old};

/// A whole old log: its base block, and how many sectors it has.
#[derive(Clone, Copy)]
pub struct WholeOld {
    pub base: BaseBlock,
    pub sectors: u32,
}

/// A whole old log, and its file.
#[derive(Clone, Copy)]
pub(crate) struct FoundOld<'a> {
    pub(crate) log: &'a GivenLog,
    pub(crate) whole: WholeOld,
}

fn whole_as(base: &BaseBlock, reading: OldReading) -> Option<WholeOld>
    ensures { result ≡ whole_as base.now reading }
{
    match reading {
        OldReading::Whole(_, sectors) => Some(WholeOld {
            base: *base,
            sectors,
        }),
        OldReading::Broken(_) | OldReading::OtherStamp(_) | OldReading::OtherNumber(_) => None,
    }
}

fn whole_old(reading: &LogReading) -> Option<WholeOld>
    ensures { result ≡ whole_old reading.now }
{
    match reading {
        LogReading::Old(base, reading) => whole_as(base, *reading),
        LogReading::Empty | LogReading::Broken(_) | LogReading::New(_) => None,
    }
}

fn is_wanted(wanted: Option<u32>, number: u32) -> bool
    ensures { result ≡ is_wanted wanted number }
{
    match wanted {
        None => true,
        Some(wanted) => number == wanted,
    }
}

/// The log where it is a whole old one of such a number.
fn wanted_old<'a>(log: &'a GivenLog, wanted: Option<u32>) -> Option<FoundOld<'a>>
    ensures { option_map old_seen result ≡ wanted_old log.now wanted }
{
    match whole_old(&log.reading) {
        Some(whole) if is_wanted(wanted, whole.base.first) => Some(FoundOld { log, whole }),
        _ => None,
    }
}

/// The first whole old log of such a number.
fn first_old<'a>(logs: &'a [GivenLog], wanted: Option<u32>) -> Option<FoundOld<'a>>
    ensures { option_map old_seen result ≡ first_old logs.now wanted }
{
    match logs {
        [] => None,
        [log, rest @ ..] => match wanted_old(log, wanted) {
            Some(found) => Some(found),
            None => first_old(rest, wanted),
        },
    }
}

/// The first whole old log of this number, else the first.
pub(crate) fn chosen_old<'a>(logs: &'a [GivenLog], first: u32) -> Option<FoundOld<'a>>
    ensures { option_map old_seen result ≡ chosen_old logs.now first }
{
    match first_old(logs, Some(first)) {
        Some(found) => Some(found),
        None => first_old(logs, None),
    }
}

/// Writes the sectors of a whole old log.
pub(crate) fn apply_old(file: &mut Bytes, found: &FoundOld<'_>) -> Result<(), AllocError>
    requires { IsLong found.now.log.now.bytes found.now.whole.base.size }
    ensures applied { OnOk result (file.new ≡ with_old file.old (old_seen found.now)) }
    ensures long { OnOk result (512 ≤ length file.new) }
{
    make_room(file, found.whole.base.size)?;
    put_old(file, found.log.bytes.as_slice(), found.whole.base.size);
    Ok(())
}
