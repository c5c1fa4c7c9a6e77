//! Bytes written over others, and a bin appended. Room for it has been made, so that no bin wants
//! memory here.

ghost use Rattle.std.specs.Prelude.{◌≡◌, ◌+◌, ◌*◌, ◌/◌, ◌%◌, ◌≤◌, [], ◌∷◌, ◌++◌, length, take, drop, replicate, IfOk};
ghost use Rattle.std.specs.Int.{w32, to_le_bytes};
ghost use Rattle.std.specs.Vec.{vec_capacity};
ghost use Rattle.hive_model.specs.Limits.{most_bins, most_file};
ghost use Rattle.hive_model.specs.Bins.{bin_bytes};
ghost use Rattle.hive_model.specs.Size.{cell};
ghost use Rattle.hive_cells.specs.Reading.{bin_marks};
ghost use Rattle.hive_cells.specs.Held.{run_cells, IsRun};
ghost use Rattle.hive_cells.specs.Holes.{free_bin};
ghost use Rattle.hive_cells.specs.Changes.{zero_cell};
ghost use Rattle.cell_tables.specs.saved_pages.Overlay.{before};

use cell_tables::saved_pages::SavedPages;
use nt_bytes::put_u32;
use std::alloc::{AllocError, Global};

pub(crate) fn put(bytes: &mut Vec<u8>, at: usize, part: &[u8])
    requires { at + length part.now ≤ length bytes.old.items }
    ensures long { length bytes.new.items ≡ length bytes.old.items }
    ensures exact { bytes.new.items ≡ take at bytes.old.items ++ (part.now ++ drop (at + length part.now) bytes.old.items) }
{
    bytes[at..at + part.len()].copy_from_slice(part);
}

/// Puts the pages back that were kept, and cuts off what follows them.
pub(crate) fn put_pages(bytes: &mut Vec<u8>, pages: &SavedPages)
    requires { 4096 * length pages.now ≤ length bytes.old.items }
    ensures long { length bytes.new.items ≡ 4096 * length pages.now }
    ensures few { length pages.now ≤ 4096 }
    ensures exact { bytes.new.items ≡ before pages.now bytes.old.items }
{
    bytes.truncate(4096 * pages.len());
    pages.restore(bytes.as_mut_slice());
}

pub(crate) fn put_word(bytes: &mut Vec<u8>, at: usize, number: u32)
    requires { at + 4 ≤ length bytes.old.items }
    ensures { bytes.new.items ≡ take at bytes.old.items ++ (to_le_bytes w32 number ++ drop (at + 4) bytes.old.items) }
{
    put_u32(bytes.as_mut_slice(), at, number);
}

fn push_word(bytes: &mut Vec<u8>, number: u32)
    requires { length bytes.old.items + 4 ≤ vec_capacity bytes.old }
    ensures items { bytes.new.items ≡ bytes.old.items ++ to_le_bytes w32 number }
    ensures room { vec_capacity bytes.old ≤ vec_capacity bytes.new }
{
    let pushed = bytes.extend_from_slice(&number.to_le_bytes()).is_ok();
    prove!(pushed);
}

fn push_zeros(bytes: &mut Vec<u8>, count: usize)
    requires room { length bytes.old.items + count ≤ vec_capacity bytes.old }
    requires few { length bytes.old.items + count ≤ most_file }
    ensures items { bytes.new.items ≡ bytes.old.items ++ replicate count 0 }
    ensures room { vec_capacity bytes.old ≤ vec_capacity bytes.new }
{
    let pushed = bytes.resize(bytes.len() + count, 0).is_ok();
    prove!(pushed);
}

/// Appends a bin, one free cell in it.
pub(crate) fn push_bin(bytes: &mut Vec<u8>, size: u32)
    requires room { length bytes.old.items + size ≤ vec_capacity bytes.old }
    requires least { 4096 ≤ size }
    requires few { length bytes.old.items + size ≤ most_bins }
    ensures { bytes.new.items ≡ bytes.old.items ++ bin_bytes (length bytes.old.items) (free_bin size) }
{
    let at = bytes.len() as u32;
    push_word(bytes, 0x6e69_6268);
    push_word(bytes, at);
    push_word(bytes, size);
    push_zeros(bytes, 20);
    push_word(bytes, size - 32);
    push_zeros(bytes, size as usize - 36);
}

/// Says where the cell of that bin begins.
pub(crate) fn push_marks(starts: &mut Vec<bool>, size: u32)
    requires room { length starts.old.items + size / 8 ≤ vec_capacity starts.old }
    requires least { 4096 ≤ size }
    requires whole { size % 4096 ≡ 0 }
    requires few { length starts.old.items + size / 8 ≤ most_bins }
    ensures { starts.new.items ≡ starts.old.items ++ bin_marks (free_bin size) }
{
    let slot = starts.len();
    let pushed = starts.resize(slot + size as usize / 8, false).is_ok();
    prove!(pushed);
    starts[slot + 4] = true;
}

/// The bytes of an allocated cell for a payload of this many bytes, all zero.
pub(crate) fn zero_run(alloc: Global, payload: u32) -> Result<Vec<u8>, AllocError>
    requires { payload ≤ most_bins }
    ensures run { IfOk result (λ v. IsRun v.items) }
    ensures cells { IfOk result (λ v. run_cells v.items ≡ zero_cell payload ∷ []) }
    ensures long { IfOk result (λ v. length v.items ≡ cell payload) }
{
    let size = (payload + 11) / 8 * 8;
    let mut run = Vec::new(alloc);
    run.reserve(size as usize)?;
    push_word(&mut run, (0x1_0000_0000 - u64::from(size)) as u32);
    push_zeros(&mut run, size as usize - 4);
    Ok(run)
}
