//! A heap that can change.

ghost use Rattle.std.specs.Prelude.{◌≡◌, ℕ, ◌+◌, ◌-◌, ◌%◌, ◌<◌, ◌≤◌, List, length, replicate, Some, None, IfOk, OnErr, OnOk};
ghost use Rattle.std.specs.Option.{IfSome, IsSome, IsSomeAnd, option_map};
ghost use Rattle.nt_bytes.specs.Reading.{Sees};
ghost use Rattle.hive_model.specs.Limits.{most_bins};
ghost use Rattle.hive_model.specs.Bins.{spelled, or_else, bins_size, payload_at, with_place, Bin, IsBins, IsHeap};
ghost use Rattle.hive_model.specs.Size.{cell};
ghost use Rattle.hive_cells.specs.Held.{held_at, held_among, patched, run_cells, IsRun};
ghost use Rattle.hive_cells.specs.Holes.{new_bin_size, FindsHole, Grows, IsHole, MakesRoom};
ghost use Rattle.hive_cells.specs.Changes.{at_cell, with_part, with_run, Allocates};
ghost use Rattle.hive_cells.specs.Frees.{IsFreed};
ghost use Rattle.cell_tables.specs.saved_pages.Overlay.{before, IsCovered};

use crate::heap::CellHeap;
use crate::pushes::zero_run;
use crate::spare::{begin_anew, keep_longer, widen_to};
use cell_tables::free_index::FreeIndex;
use cell_tables::saved_pages::{SavedPages, touch};
use nt_bytes::{Bytes, HiveFault};
use std::alloc::{AllocError, Global};
use std::marker::Model;
use std::mem::swap;

/// Cells that can change, with an index of the free ones, and by the pages that were kept the bins data as they were when
/// they were settled last: the base. At most 16,777,216 bytes. Each change takes the same few steps however many cells
/// there are, beside the bytes that it writes and the pages that it is the first to change. Of the pages and those that
/// are spare one has room for all the bins data, so that a next base takes no memory.
#[derive(Drop)]
pub struct OpenHeap {
    cells: CellHeap,
    free: FreeIndex,
    pages: SavedPages,
    spare: SavedPages,
}

impl Model for OpenHeap {
    ghost use Rattle.cell_tables.specs.free_index.Sizes.{AreTops};
    ghost use Rattle.hive_model.specs.Bins.{bins_size};
    ghost use Rattle.hive_cells.specs.Holes.{free_sizes};
    ghost use Rattle.hive_cells.specs.Opened.{HaveRoom, Opened, coded_opened, opened_of};
    ghost use Rattle.cell_tables.specs.saved_pages.Overlay.{IsCovered};

    ghost Value = { Opened };

    ghost coded = { coded_opened };

    ghost view = { λ a. opened_of a.pages a.cells };

    ghost invariant = { λ a. AreTops (free_sizes a.cells) a.free × IsCovered a.pages (bins_size a.cells) × HaveRoom a.pages a.spare (bins_size a.cells) };
}

impl CellHeap {
    /// The same heap, with an index of its free cells: one look at each slot. The base is the bins data. Room for its
    /// pages is taken here, as long as the bins data, and touched where a page changes.
    pub fn opened(self, alloc: Global) -> Result<OpenHeap, AllocError>
        ensures bins { IfOk result (λ heap. heap.bins ≡ self) }
        ensures base { IfOk result (λ heap. heap.base ≡ spelled 0 self) }
    {
        let free = FreeIndex::of(alloc, &self, self.starts.len() / 512)?;
        let pages = SavedPages::new(alloc, self.bytes.len() / 4096)?;
        let spare = SavedPages::new(alloc, 0)?;
        Ok(OpenHeap {
            cells: self,
            free,
            pages,
            spare,
        })
    }
}

impl OpenHeap {
    /// The cells, to be read.
    pub fn cells(&self) -> &CellHeap
        ensures { result.now ≡ self.now.bins }
    {
        &self.cells
    }

    /// The cells, without a copy.
    pub fn into_cells(self) -> CellHeap
        ensures { result ≡ self.bins }
    {
        self.cells
    }

    /// The payload of the allocated cell that begins at this offset. `OutOfRange` where no cell
    /// begins there, `FreeCell` where that cell is free, both at the offset. A cell begins at whole
    /// eight bytes.
    #[tactic(auto, using(crate::proofs::HeldLemmas::seen_held))]
    pub fn payload(&self, at: u32) -> Result<&[u8], HiveFault>
        ensures exact { Sees (λ p. p.now) result (with_place at (payload_at self.now.bins at)) }
        ensures held { IfOk result (λ p. held_at self.now.bins at ≡ Some p.now) }
        ensures whole { IfOk result (λ p. at % 8 ≡ 0) }
    {
        self.cells.payload(at)
    }

    /// The bins data.
    pub fn bytes(&self) -> &[u8]
        ensures exact { result.now ≡ spelled 0 self.now.bins }
        ensures sound { IsHeap self.now.bins }
    {
        self.cells.opens();
        self.cells.bytes()
    }

    /// The bins data, without a copy.
    pub fn into_bytes(self) -> Bytes
        ensures { result ≡ spelled 0 self.bins }
    {
        self.cells.into_bytes()
    }

    /// The offset of the lowest free cell of at least this size, its four bytes for the size counted.
    /// `None` exactly where each free cell is smaller.
    pub fn fit(&self, size: u32) -> Option<u32>
        requires { 0 < size }
        ensures { FindsHole size self.now.bins result }
    {
        self.cells.fit(&self.free, size)
    }

    /// Puts a run of allocated cells, in sequence, into the free cell that begins here. What
    /// is left of it is free.
    pub fn fill(&mut self, at: u32, run: &[u8])
        requires hole { IsHole (length run.now) self.old.bins at }
        requires run { IsRun run.now }
        ensures exact { self.new.bins ≡ at_cell at (with_run (run_cells run.now)) self.old.bins }
        ensures held { (o : ℕ) → held_at self.new.bins o ≡ or_else (held_among o at (run_cells run.now)) (held_at self.old.bins o) }
        ensures fresh { (o : ℕ) → at ≤ o → o < at + length run.now → held_at self.old.bins o ≡ None }
        ensures long { bins_size self.new.bins ≡ bins_size self.old.bins }
        ensures base { self.new.base ≡ self.old.base }
    {
        let size = self.cells.fill(&mut self.free, &mut self.pages, at, run);
        self.free.lower(&self.cells, at as usize / 8, size);
    }

    /// Appends a bin of the fewest whole 4096 bytes that hold a cell of this size, one free cell in
    /// it, and answers the offset of that cell. `None` exactly where the bins data would pass
    /// 16,777,216 bytes. The heap is as it was at `None` and where there is no memory.
    pub fn grow(&mut self, size: u32) -> Result<Option<u32>, AllocError>
        ensures exact { IfOk result (Grows size self.old.bins self.new.bins) }
        ensures refused { OnErr result (self.new ≡ self.old) }
        ensures hole { IfOk result (λ r. IfSome r (IsHole size self.new.bins)) }
        ensures held { (o : ℕ) → held_at self.new.bins o ≡ held_at self.old.bins o }
        ensures long { bins_size self.new.bins ≤ bins_size self.old.bins + new_bin_size size }
        ensures base { self.new.base ≡ self.old.base }
    {
        self.cells.opens();
        let long = self.cells.bytes().len();
        widen_to(
            &mut self.spare,
            (long as u64 + u64::from(size) + 4127) / 4096,
        )?;
        self.cells.grow(&mut self.free, size)
    }

    /// The offset of a free cell of at least this size: the lowest, else that of a new bin. `None`
    /// exactly where each free cell is smaller and the bins data would pass 16,777,216 bytes by the
    /// new bin. The heap is as it was at `None` and where there is no memory.
    pub fn make_room(&mut self, size: u32) -> Result<Option<u32>, AllocError>
        requires { 0 < size }
        ensures exact { IfOk result (MakesRoom size self.old.bins self.new.bins) }
        ensures refused { OnErr result (self.new ≡ self.old) }
        ensures hole { IfOk result (λ r. IfSome r (IsHole size self.new.bins)) }
        ensures held { (o : ℕ) → held_at self.new.bins o ≡ held_at self.old.bins o }
        ensures long { bins_size self.new.bins ≤ bins_size self.old.bins + new_bin_size size }
        ensures base { self.new.base ≡ self.old.base }
    {
        match self.fit(size) {
            Some(at) => Ok(Some(at)),
            None => self.grow(size),
        }
    }

    /// Allocates a cell for a payload of this many bytes, all zero, filled up to whole eight bytes
    /// with the four for its size: in the lowest free cell that is large enough, else in a new bin.
    /// `None` exactly where each free cell is smaller and the bins data would pass 16,777,216 bytes
    /// by the new bin. The heap is as it was at `None` and where there is no memory.
    pub fn alloc(&mut self, alloc: Global, payload: u32) -> Result<Option<u32>, AllocError>
        requires { payload ≤ most_bins }
        ensures exact { IfOk result (Allocates payload self.old.bins self.new.bins) }
        ensures refused { OnErr result (self.new ≡ self.old) }
        ensures here { IfOk result (λ r. IfSome r (λ at. held_at self.new.bins at ≡ Some (replicate (cell payload - 4) 0))) }
        ensures fresh { IfOk result (λ r. IfSome r (λ at. held_at self.old.bins at ≡ None)) }
        ensures others { IfOk result (λ r. (o : ℕ) → (r ≡ Some o → ⊥) → held_at self.new.bins o ≡ held_at self.old.bins o) }
        ensures long { bins_size self.new.bins ≤ bins_size self.old.bins + new_bin_size (cell payload) }
        ensures base { self.new.base ≡ self.old.base }
    {
        let run = zero_run(alloc, payload)?;
        match self.make_room(run.len() as u32)? {
            None => Ok(None),
            Some(at) => {
                self.fill(at, run.as_slice());
                Ok(Some(at))
            }
        }
    }

    /// Frees the allocated cell. It becomes one with the free cell right before it in its bin, and
    /// with the one right after it.
    pub fn free(&mut self, at: u32)
        requires { IsSome (held_at self.old.bins at) }
        ensures exact { IsFreed at self.old.bins self.new.bins }
        ensures gone { held_at self.new.bins at ≡ None }
        ensures others { (o : ℕ) → (o ≡ at → ⊥) → held_at self.new.bins o ≡ held_at self.old.bins o }
        ensures long { bins_size self.new.bins ≡ bins_size self.old.bins }
        ensures base { self.new.base ≡ self.old.base }
    {
        self.cells.free(&mut self.free, &mut self.pages, at);
    }

    /// Writes a part of the payload of the allocated cell, from this byte of it on.
    pub fn patch(&mut self, at: u32, from: u32, part: &[u8])
        requires { IsSomeAnd (held_at self.old.bins at) (λ p. from + length part.now ≤ length p) }
        ensures exact { self.new.bins ≡ at_cell at (with_part from part.now) self.old.bins }
        ensures here { held_at self.new.bins at ≡ option_map (patched from part.now) (held_at self.old.bins at) }
        ensures others { (o : ℕ) → (o ≡ at → ⊥) → held_at self.new.bins o ≡ held_at self.old.bins o }
        ensures long { bins_size self.new.bins ≡ bins_size self.old.bins }
        ensures base { self.new.base ≡ self.old.base }
    {
        self.cells.patch(&mut self.pages, at, from, part);
    }

    /// Gives the allocated cell another payload, as long as its own.
    pub fn rewrite(&mut self, at: u32, payload: &[u8])
        requires { IsSomeAnd (held_at self.old.bins at) (λ p. length p ≡ length payload.now) }
        ensures exact { self.new.bins ≡ at_cell at (with_part 0 payload.now) self.old.bins }
        ensures here { held_at self.new.bins at ≡ Some payload.now }
        ensures others { (o : ℕ) → (o ≡ at → ⊥) → held_at self.new.bins o ≡ held_at self.old.bins o }
        ensures long { bins_size self.new.bins ≡ bins_size self.old.bins }
        ensures base { self.new.base ≡ self.old.base }
    {
        self.patch(at, 0, payload);
    }

    /// Takes the cells of another heap. The base stays. No memory is taken.
    pub fn replace(&mut self, other: OpenHeap)
        ensures bins { self.new.bins ≡ other.bins }
        ensures base { self.new.base ≡ self.old.base }
    {
        self.cells.opens();
        let bytes = self.cells.bytes();
        touch(&mut self.pages, bytes, 0, bytes.len());
        self.spare = other.spare;
        keep_longer(&mut self.spare, other.pages);
        self.cells = other.cells;
        self.free = other.free;
    }

    /// The pages of the base that were kept: with the bins data they give it, and only these can differ.
    pub fn pages(&self) -> &SavedPages
        ensures base { before result.now (spelled 0 self.now.bins) ≡ self.now.base }
        ensures covered { IsCovered result.now (length (spelled 0 self.now.bins)) }
    {
        self.cells.opens();
        &self.pages
    }

    /// The cells as they were when they were settled last, by the pages that were kept. No memory is taken.
    pub fn restore(&mut self)
        requires long { length self.old.base ≤ bins_size self.old.bins }
        requires bins { (bins : List Bin) × IsBins self.old.base bins }
        ensures bins { IsBins self.old.base self.new.bins }
        ensures base { self.new.base ≡ self.old.base }
    {
        self.cells.opens();
        let count = self.pages.len();
        self.cells.restore(&self.pages);
        self.pages.clear(count);
        self.free.recount(&self.cells, count);
    }

    /// From now on the base is the bins data that are there, as after `settle`. Answers the pages that were kept of the base
    /// before, for `rejoin`. Room for new ones is taken, as long as the bins data, and touched where a page changes. All is as
    /// it was where there is no memory.
    pub fn hold(&mut self, alloc: Global) -> Result<SavedPages, AllocError>
        ensures bins { self.new.bins ≡ self.old.bins }
        ensures base { OnOk result (self.new.base ≡ spelled 0 self.old.bins) }
        ensures before { IfOk result (λ pages. before pages (spelled 0 self.old.bins) ≡ self.old.base) }
        ensures covered { IfOk result (λ pages. IsCovered pages (length (spelled 0 self.old.bins))) }
        ensures refused { OnErr result (self.new ≡ self.old) }
    {
        self.cells.opens();
        let mut pages = SavedPages::new(alloc, self.cells.bytes().len() / 4096)?;
        swap(&mut self.pages, &mut pages);
        Ok(pages)
    }

    /// The base is again what it was by these pages, which `hold` answered: what was kept since is kept with them. No memory is
    /// taken.
    pub fn rejoin(&mut self, mut pages: SavedPages)
        requires { IsCovered pages (length self.old.base) }
        ensures bins { self.new.bins ≡ self.old.bins }
        ensures base { self.new.base ≡ before pages self.old.base }
    {
        self.cells.opens();
        pages.merge(&self.pages);
        swap(&mut self.pages, &mut pages);
        keep_longer(&mut self.spare, pages);
    }

    /// From now on the base is the bins data that are there. No memory is taken.
    pub fn settle(&mut self)
        ensures bins { self.new.bins ≡ self.old.bins }
        ensures base { self.new.base ≡ spelled 0 self.old.bins }
    {
        self.cells.opens();
        begin_anew(
            &mut self.pages,
            &mut self.spare,
            self.cells.bytes().len() / 4096,
        );
    }
}
