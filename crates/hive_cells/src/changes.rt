//! Changes of the cells, which keep an index of the free ones, and each page as it was before its first change. Each
//! finds first all that it needs and then writes, so that nothing here wants memory but a new bin, whose room is made
//! first.

ghost use Rattle.std.specs.Prelude.{◌≡◌, ℕ, ◌+◌, ◌/◌, ◌%◌, ◌<◌, ◌≤◌, ◌∷◌, [], ◌++◌, List, length, None, slice_index, slice_set, IfOk, OnErr, OnOk};
ghost use Rattle.std.specs.Option.{IfSome, IsSome, IsSomeAnd, MatchOption, option_map};
ghost use Rattle.cell_tables.specs.free_index.Sizes.{AreTops};
ghost use Rattle.hive_model.specs.Limits.{most_bins};
ghost use Rattle.hive_model.specs.Bins.{or_else, cell_at, cell_size, bins_size, spelled, IsHeap};
ghost use Rattle.hive_cells.specs.Held.{held_at, held_among, patched, run_cells, IsRun};
ghost use Rattle.hive_cells.specs.Holes.{free_bin, free_size, free_sizes, new_bin_size, FindsHole, Grows, IsHole};
ghost use Rattle.hive_cells.specs.Changes.{at_cell, with_free, with_next, with_part, with_run};
ghost use Rattle.hive_cells.specs.Frees.{EndsAt, IsFreed, IsFreeOf, Neighbours};
ghost use Rattle.cell_tables.specs.saved_pages.Overlay.{before, IsCovered};

use crate::heap::{CellHeap, MOST_BINS};
use crate::lookup::free_at;
use crate::marks::mark_run;
use crate::pushes::{push_bin, push_marks, put, put_word};
use cell_tables::free_index::{FreeIndex, Numbers};
use cell_tables::saved_pages::{SavedPages, touch};
use nt_bytes::u32_at;
use std::alloc::{AllocError, Global};

impl CellHeap {
    /// Reports the caller that these bins can be spelled.
    pub(crate) fn opens(&self)
        ensures { IsHeap self.now }
    {
        let _bytes = &self.bytes;
    }

    /// The offset of the lowest free cell of at least this size.
    pub(crate) fn fit(&self, free: &FreeIndex, size: u32) -> Option<u32>
        requires some { 0 < size }
        requires index { AreTops (free_sizes self.now) free.now }
        ensures { FindsHole size self.now result }
    {
        let _bytes = &self.bytes;
        let slot = free.lowest_fit(self, size)?;
        Some(8 * slot as u32)
    }

    /// Puts allocated cells into the free one that begins here. What remains of it stays free. Answers
    /// the size that it had, which the index counts still.
    pub(crate) fn fill(
        &mut self,
        free: &mut FreeIndex,
        pages: &mut SavedPages,
        at: u32,
        run: &[u8],
    ) -> u32
        requires index { AreTops (free_sizes self.old) free.old }
        requires hole { IsHole (length run.now) self.old at }
        requires run { IsRun run.now }
        requires saved { IsCovered pages.old (bins_size self.old) }
        ensures index { AreTops (slice_set (free_sizes self.new) (at / 8) result) free.new }
        ensures slot { at / 8 < length (free_sizes self.new) }
        ensures none { slice_index (free_sizes self.new) (at / 8) ≡ 0 }
        ensures exact { self.new ≡ at_cell at (with_run (run_cells run.now)) self.old }
        ensures held { (o : ℕ) → held_at self.new o ≡ or_else (held_among o at (run_cells run.now)) (held_at self.old o) }
        ensures fresh { (o : ℕ) → at ≤ o → o < at + length run.now → held_at self.old o ≡ None }
        ensures long { bins_size self.new ≡ bins_size self.old }
        ensures base { before pages.new (spelled 0 self.new) ≡ before pages.old (spelled 0 self.old) }
        ensures covered { IsCovered pages.new (bins_size self.new) }
        ensures count { length pages.new ≡ length pages.old }
    {
        let place = at as usize;
        let text = self.bytes.as_slice();
        let starts = self.starts.as_slice();
        let size = free_at(text, starts, place / 8);
        touch(pages, self.bytes.as_slice(), place, place + run.len());
        put(&mut self.bytes, place, run);
        mark_run(&mut self.starts, place / 8, run);
        let left = size as usize - run.len();
        if left == 0 {
            return size;
        }
        let rest = place + run.len();
        touch(pages, self.bytes.as_slice(), rest, rest + 4);
        put_word(&mut self.bytes, rest, left as u32);
        self.starts[rest / 8] = true;
        free.raise(rest / 8, left as u32);
        size
    }

    /// The allocated cell becomes free, and one with the free cells before and after it in its bin.
    pub(crate) fn free(&mut self, free: &mut FreeIndex, pages: &mut SavedPages, at: u32)
        requires index { AreTops (free_sizes self.old) free.old }
        requires allocated { IsSome (held_at self.old at) }
        requires saved { IsCovered pages.old (bins_size self.old) }
        ensures index { AreTops (free_sizes self.new) free.new }
        ensures exact { IsFreed at self.old self.new }
        ensures gone { held_at self.new at ≡ None }
        ensures others { (o : ℕ) → (o ≡ at → ⊥) → held_at self.new o ≡ held_at self.old o }
        ensures long { bins_size self.new ≡ bins_size self.old }
        ensures base { before pages.new (spelled 0 self.new) ≡ before pages.old (spelled 0 self.old) }
        ensures covered { IsCovered pages.new (bins_size self.new) }
        ensures count { length pages.new ≡ length pages.old }
    {
        let size = self.size(at);
        let more = self.free_behind(at, size);
        let before = self.free_before(free, at);
        if more > 0 {
            self.join(free, pages, at, size, more);
            if let Some((from, room)) = before {
                self.join(free, pages, from, room, size + more);
            }
            return;
        }
        match before {
            None => self.release(free, pages, at, size),
            Some((from, room)) => self.join(free, pages, from, room, size),
        }
    }

    /// Appends a bin for a free cell of at least this size, unless the bins data get too long by it.
    pub(crate) fn grow(
        &mut self,
        free: &mut FreeIndex,
        size: u32,
    ) -> Result<Option<u32>, AllocError>
        requires { AreTops (free_sizes self.old) free.old }
        ensures index { AreTops (free_sizes self.new) free.new }
        ensures exact { IfOk result (Grows size self.old self.new) }
        ensures refused { OnErr result (self.new ≡ self.old) }
        ensures hole { IfOk result (λ r. IfSome r (IsHole size self.new)) }
        ensures held { (o : ℕ) → held_at self.new o ≡ held_at self.old o }
        ensures long { bins_size self.new ≤ bins_size self.old + new_bin_size size }
        ensures more { bins_size self.old ≤ bins_size self.new }
        ensures base { (ps : List (List ℕ)) → IsCovered ps (bins_size self.old)
            → before ps (spelled 0 self.new) ≡ before ps (spelled 0 self.old) }
    {
        let long = self.bytes.len();
        let bin = (u64::from(size) + 4127) / 4096 * 4096;
        if long as u64 + bin > MOST_BINS {
            return Ok(None);
        }
        self.append_bin(free, bin as u32)?;
        Ok(Some(long as u32 + 32))
    }

    /// Writes a part of the payload of the allocated cell, from this byte of it on.
    pub(crate) fn patch(&mut self, pages: &mut SavedPages, at: u32, from: u32, part: &[u8])
        requires part { IsSomeAnd (held_at self.old at) (λ p. from + length part.now ≤ length p) }
        requires saved { IsCovered pages.old (bins_size self.old) }
        ensures sizes { free_sizes self.new ≡ free_sizes self.old }
        ensures exact { self.new ≡ at_cell at (with_part from part.now) self.old }
        ensures here { held_at self.new at ≡ option_map (patched from part.now) (held_at self.old at) }
        ensures others { (o : ℕ) → (o ≡ at → ⊥) → held_at self.new o ≡ held_at self.old o }
        ensures long { bins_size self.new ≡ bins_size self.old }
        ensures base { before pages.new (spelled 0 self.new) ≡ before pages.old (spelled 0 self.old) }
        ensures covered { IsCovered pages.new (bins_size self.new) }
        ensures count { length pages.new ≡ length pages.old }
    {
        let place = at as usize + 4 + from as usize;
        touch(pages, self.bytes.as_slice(), place, place + part.len());
        put(&mut self.bytes, place, part);
    }

    /// Appends a bin, one free cell in it.
    fn append_bin(&mut self, free: &mut FreeIndex, size: u32) -> Result<(), AllocError>
        requires index { AreTops (free_sizes self.old) free.old }
        requires least { 4096 ≤ size }
        requires whole { size % 4096 ≡ 0 }
        requires fits { bins_size self.old + size ≤ most_bins }
        ensures index { AreTops (free_sizes self.new) free.new }
        ensures ok { OnOk result (self.new ≡ self.old ++ free_bin size ∷ []) }
        ensures err { OnErr result (self.new ≡ self.old) }
        ensures base { (ps : List (List ℕ)) → IsCovered ps (bins_size self.old)
            → before ps (spelled 0 self.new) ≡ before ps (spelled 0 self.old) }
    {
        let slot = self.starts.len();
        self.bytes.reserve(size as usize)?;
        self.starts.reserve(size as usize / 8)?;
        free.grow(size as usize / 4096)?;
        push_bin(&mut self.bytes, size);
        push_marks(&mut self.starts, size);
        free.raise(slot + 4, size - 32);
        Ok(())
    }

    /// The size of the allocated cell.
    fn size(&self, at: u32) -> u32
        requires { IsSome (held_at self.now at) }
        ensures { IsSomeAnd (cell_at self.now at) (λ c. cell_size c ≡ result) }
    {
        (0x1_0000_0000 - u64::from(u32_at(self.bytes.as_slice(), at as usize))) as u32
    }

    /// The size of the free cell after a cell, or 0.
    fn free_behind(&self, at: u32, size: u32) -> u32
        requires { IsSomeAnd (cell_at self.now at) (λ c. cell_size c ≡ size) }
        ensures value { result ≡ free_size (cell_at self.now (at + size)) }
        ensures within { at + size + result ≤ most_bins }
    {
        let _bytes = &self.bytes;
        let slot = (at as usize + size as usize) / 8;
        if slot < self.starts.len() {
            self.number_at(slot)
        } else {
            0
        }
    }

    /// The free cell that ends where this one begins, and its size.
    fn free_before(&self, free: &FreeIndex, at: u32) -> Option<(u32, u32)>
        requires index { AreTops (free_sizes self.now) free.now }
        requires allocated { IsSome (held_at self.now at) }
        ensures { MatchOption result ((from size : ℕ) → EndsAt at from size self.now → ⊥) (λ b. EndsAt at b.0 b.1 self.now) }
    {
        let _bytes = &self.bytes;
        let slot = free.last_below(self, at as usize / 8)?;
        let room = self.number_at(slot);
        let from = 8 * slot as u32;
        if u64::from(from) + u64::from(room) == u64::from(at) {
            Some((from, room))
        } else {
            None
        }
    }

    /// The cell becomes free.
    fn release(&mut self, free: &mut FreeIndex, pages: &mut SavedPages, at: u32, size: u32)
        requires index { AreTops (free_sizes self.old) free.old }
        requires cell { IsSomeAnd (cell_at self.old at) (λ c. cell_size c ≡ size) }
        requires saved { IsCovered pages.old (bins_size self.old) }
        ensures index { AreTops (free_sizes self.new) free.new }
        ensures exact { self.new ≡ at_cell at with_free self.old }
        ensures others { (o : ℕ) → (o ≡ at → ⊥) → cell_at self.new o ≡ cell_at self.old o }
        ensures here { IsFreeOf size (cell_at self.new at) }
        ensures long { bins_size self.new ≡ bins_size self.old }
        ensures base { before pages.new (spelled 0 self.new) ≡ before pages.old (spelled 0 self.old) }
        ensures covered { IsCovered pages.new (bins_size self.new) }
        ensures count { length pages.new ≡ length pages.old }
    {
        touch(pages, self.bytes.as_slice(), at as usize, at as usize + 4);
        put_word(&mut self.bytes, at as usize, size);
        free.raise(at as usize / 8, size);
    }

    /// The cell and the one after it become one free cell, and the index says so.
    fn join(&mut self, free: &mut FreeIndex, pages: &mut SavedPages, at: u32, size: u32, more: u32)
        requires index { AreTops (free_sizes self.old) free.old }
        requires cells { Neighbours at size more self.old }
        requires saved { IsCovered pages.old (bins_size self.old) }
        ensures index { AreTops (free_sizes self.new) free.new }
        ensures exact { self.new ≡ at_cell at with_next self.old }
        ensures others { (o : ℕ) → (o ≡ at → ⊥) → (o ≡ at + size → ⊥) → cell_at self.new o ≡ cell_at self.old o }
        ensures here { IsFreeOf (size + more) (cell_at self.new at) }
        ensures gone { cell_at self.new (at + size) ≡ None }
        ensures long { bins_size self.new ≡ bins_size self.old }
        ensures base { before pages.new (spelled 0 self.new) ≡ before pages.old (spelled 0 self.old) }
        ensures covered { IsCovered pages.new (bins_size self.new) }
        ensures count { length pages.new ≡ length pages.old }
    {
        let gone = self.merge(free, pages, at, size, more);
        free.lower(self, (at as usize + size as usize) / 8, gone);
    }

    /// The cell and the one after it become one free cell. Answers the size that the second had if it
    /// was free, or 0, which the index counts still.
    fn merge(
        &mut self,
        free: &mut FreeIndex,
        pages: &mut SavedPages,
        at: u32,
        size: u32,
        more: u32,
    ) -> u32
        requires index { AreTops (free_sizes self.old) free.old }
        requires cells { Neighbours at size more self.old }
        requires saved { IsCovered pages.old (bins_size self.old) }
        ensures index { AreTops (slice_set (free_sizes self.new) ((at + size) / 8) result) free.new }
        ensures slot { (at + size) / 8 < length (free_sizes self.new) }
        ensures none { slice_index (free_sizes self.new) ((at + size) / 8) ≡ 0 }
        ensures exact { self.new ≡ at_cell at with_next self.old }
        ensures others { (o : ℕ) → (o ≡ at → ⊥) → (o ≡ at + size → ⊥) → cell_at self.new o ≡ cell_at self.old o }
        ensures here { IsFreeOf (size + more) (cell_at self.new at) }
        ensures gone { cell_at self.new (at + size) ≡ None }
        ensures long { bins_size self.new ≡ bins_size self.old }
        ensures base { before pages.new (spelled 0 self.new) ≡ before pages.old (spelled 0 self.old) }
        ensures covered { IsCovered pages.new (bins_size self.new) }
        ensures count { length pages.new ≡ length pages.old }
    {
        let place = at as usize;
        let slot = (place + size as usize) / 8;
        let text = self.bytes.as_slice();
        let starts = self.starts.as_slice();
        let gone = free_at(text, starts, slot);
        touch(pages, self.bytes.as_slice(), place, place + 4);
        put_word(&mut self.bytes, place, size + more);
        self.starts[slot] = false;
        free.raise(place / 8, size + more);
        gone
    }
}
