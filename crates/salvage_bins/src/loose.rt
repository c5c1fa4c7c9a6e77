//! Loose bytes.

ghost use Rattle.std.specs.Prelude.{◌≡◌, ◌+◌, ◌*◌, ◌≤◌, ◌<◌, ◌/◌, ◌&&◌, nat_le, length, drop, IfOk};
ghost use Rattle.hive_model.specs.Bins.{size_at};
ghost use Rattle.salvage_bins.specs.Loose.{loose_length, loose_marks, mark_where, names_itself};

use crate::checks::cell_length;
use crate::layout::Mark;
use nt_bytes::u32_at;
use std::alloc::{AllocError, Global};

const PAGE: usize = 4096;

// Do the bytes at this place begin with `hbin` and their own offset?
fn bin_begins(rest: &[u8], at: u32) -> bool
    ensures { result ≡ names_itself at rest.now }
{
    rest.len() >= 8 && u32_at(rest, 0) == 0x6e69_6268 && u32_at(rest, 4) == at
}

// May what is loose end this many bytes further on?
fn ends(bytes: &[u8], from: usize, fault: u32, at: u32) -> bool
    requires small { at + length bytes.now ≤ 268435456 }
    requires inside { from ≤ length bytes.now }
    ensures { result ≡ (nat_le fault (at + from) && names_itself (at + from) (drop from bytes.now)) }
{
    let place = at + from as u32;
    fault <= place && bin_begins(&bytes[from..], place)
}

// How many bytes from here on are loose, after a fault at this place.
pub(crate) fn loose_until(bytes: &[u8], fault: u32, at: u32) -> usize
    requires small { at + length bytes.now ≤ 268435456 }
    ensures exact { result ≡ loose_length (length bytes.now / 4096) 4096 fault at bytes.now }
    ensures within { result ≤ length bytes.now }
{
    let mut from = PAGE;
    let mut left = bytes.len() / PAGE;
    'pages: while left > 0 {
        if ends(bytes, from, fault, at) {
            return from;
        }
        from += PAGE;
        left -= 1;
    }
    bytes.len()
}

// The mark of a place of eight bytes among loose ones, of which this many are left.
fn mark_of(rest: &[u8], room: usize) -> Mark
    requires { 4 ≤ length rest.now }
    ensures { result ≡ mark_where (size_at room rest.now) }
{
    match cell_length(rest, room, 0) {
        Ok(_) => Mark::Loose,
        Err(_) => Mark::Nothing,
    }
}

// The marks of that many places of eight bytes to the end of the loose bytes.
pub(crate) fn marks_in(alloc: Global, bytes: &[u8], slots: usize) -> Result<Vec<Mark>, AllocError>
    requires inside { 8 * slots ≤ length bytes.now }
    requires small { length bytes.now ≤ 268435456 }
    ensures { IfOk result (λ v. v.items ≡ loose_marks slots bytes.now) }
{
    let mut marks = Vec::new(alloc);
    let mut rest = bytes;
    let mut left = slots;
    'slots: while left > 0 {
        marks.push(mark_of(rest, 8 * left))?;
        rest = &rest[8..];
        left -= 1;
    }
    Ok(marks)
}
