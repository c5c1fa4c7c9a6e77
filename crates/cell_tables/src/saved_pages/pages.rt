//! Old pages, each kept once.

ghost use Rattle.std.specs.Prelude.{◌≡◌, ◌+◌, ◌*◌, ◌<◌, ◌≤◌, [], ◌++◌, ℕ, List, length, take, drop, replicate, IfOk, OnErr, OnOk, MatchOption};
ghost use Rattle.cell_tables.specs.saved_pages.Overlay.{before, kept_at, page_at, page_or, with_kept, AreWhole, IsCovered};

use std::alloc::{AllocError, Global};
use std::marker::Model;

/// The old pages of bytes, each as it was before its first change. Room for all of them is made at once, and touched
/// where a page is kept.
#[derive(Drop)]
pub struct SavedPages {
    slots: Vec<u16>,
    room: Vec<u8>,
}

impl Model for SavedPages {
    ghost use Rattle.std.specs.Prelude.{List, ℕ};
    ghost use Rattle.std.specs.Vec.{vec_capacity};
    ghost use Rattle.cell_tables.specs.saved_pages.Table.{pages_in, IsTable};

    ghost Value = { List (List ℕ) };

    ghost view = { λ a. pages_in a.room.items a.slots.items };

    ghost invariant = { λ a. IsTable a.slots.items a.room.items (vec_capacity a.room) };
}

/// Writes a part over what stands from a place on.
fn write_over(bytes: &mut [u8], at: usize, part: &[u8])
    requires { at + length part.now ≤ length bytes.old }
    ensures long { length bytes.new ≡ length bytes.old }
    ensures exact { bytes.new ≡ take at bytes.old ++ (part.now ++ drop (at + length part.now) bytes.old) }
{
    bytes[at..at + part.len()].copy_from_slice(part);
}

impl SavedPages {
    /// Of that many pages none is kept.
    pub fn new(alloc: Global, count: usize) -> Result<SavedPages, AllocError>
        requires { count ≤ 4096 }
        ensures { IfOk result (λ pages. pages ≡ replicate count []) }
    {
        let mut slots = Vec::with_capacity(alloc, count)?;
        slots.resize(count, 0)?;
        let room = Vec::with_capacity(alloc, 4096 * count)?;
        Ok(SavedPages { slots, room })
    }

    /// That many pages more, of which none is kept. Where there is no memory all is as it was.
    pub fn widen(&mut self, more: usize) -> Result<(), AllocError>
        requires { length self.old + more ≤ 4096 }
        ensures ok { OnOk result (self.new ≡ self.old ++ replicate more []) }
        ensures err { OnErr result (self.new ≡ self.old) }
    {
        let count = self.slots.len() + more;
        self.room.reserve(4096 * count - self.room.len())?;
        self.slots.resize(count, 0)?;
        Ok(())
    }

    /// How many pages the old bytes have.
    pub fn len(&self) -> usize
        ensures count { result ≡ length self.now }
        ensures few { result ≤ 4096 }
        ensures whole { AreWhole self.now }
    {
        self.slots.len()
    }

    /// What was kept of a page.
    pub fn kept(&self, k: usize) -> Option<&[u8]>
        requires { k < length self.now }
        ensures { MatchOption result (kept_at self.now k ≡ []) (λ p. (p.now ≡ kept_at self.now k) × (length p.now ≡ 4096)) }
    {
        let slot = self.slots[k] as usize;
        if slot == 0 {
            return None;
        }
        Some(&self.room[4096 * (slot - 1)..4096 * slot])
    }

    /// Keeps a page of which nothing was kept. No memory is taken.
    pub fn keep(&mut self, k: usize, page: &[u8])
        requires inside { k < length self.old }
        requires first { kept_at self.old k ≡ [] }
        requires whole { length page.now ≡ 4096 }
        ensures { self.new ≡ with_kept self.old k page.now }
    {
        let slot = self.room.len() / 4096 + 1;
        let done = self.room.extend_from_slice(page).is_ok();
        prove!(done);
        self.slots[k] = slot as u16;
    }

    /// Keeps what pages that were begun later kept, of each page of which nothing was kept here: with the bytes that are
    /// there now these give the old ones then, as they did with those that `later` gives. No memory is taken.
    pub fn merge(&mut self, later: &SavedPages)
        ensures count { length self.new ≡ length self.old }
        ensures kept { (k : ℕ) → k < length self.old → kept_at self.new k ≡ page_or (kept_at self.old k) (kept_at later.now k) }
        ensures before { (bytes : List ℕ) → IsCovered later.now (length bytes) → IsCovered self.old (length (before later.now bytes))
            → before self.new bytes ≡ before self.old (before later.now bytes) }
        ensures covered { (bytes : List ℕ) → IsCovered later.now (length bytes) → IsCovered self.old (length (before later.now bytes))
            → IsCovered self.new (length bytes) }
    {
        let count = self.len();
        let _whole = later.len();
        for k in 0..count {
            self.merge_page(later, k);
        }
    }

    /// Keeps what was kept later of a page, if nothing was kept of it here.
    fn merge_page(&mut self, later: &SavedPages, k: usize)
        requires { k < length self.old }
        ensures count { length self.new ≡ length self.old }
        ensures here { kept_at self.new k ≡ page_or (kept_at self.old k) (kept_at later.now k) }
        ensures others { (j : ℕ) → (j ≡ k → ⊥) → kept_at self.new j ≡ kept_at self.old j }
    {
        if k >= later.len() {
            return;
        }
        match self.kept(k) {
            Some(_) => {}
            None => {
                if let Some(page) = later.kept(k) {
                    self.keep(k, page);
                }
            }
        }
    }

    /// Nothing is kept any more, of that many pages, which are not more than before. No memory is taken.
    pub fn clear(&mut self, count: usize)
        requires { count ≤ length self.old }
        ensures { self.new ≡ replicate count [] }
    {
        self.room.truncate(0);
        self.slots.truncate(0);
        let done = self.slots.resize(count, 0).is_ok();
        prove!(done);
    }

    /// Writes each page that was kept over the one that is there: the bytes are the old ones then. No memory is taken.
    pub fn restore(&self, bytes: &mut [u8])
        requires { length bytes.old ≡ 4096 * length self.now }
        ensures { bytes.new ≡ before self.now bytes.old }
    {
        for k in 0..self.len() {
            self.restore_page(bytes, k);
        }
    }

    /// Writes this page over the one that is there, if it was kept.
    fn restore_page(&self, bytes: &mut [u8], k: usize)
        requires inside { k < length self.now }
        requires whole { length bytes.old ≡ 4096 * length self.now }
        ensures here { page_or (kept_at self.now k) (page_at k bytes.new) ≡ page_at k bytes.new }
        ensures others { (j : ℕ) → (j ≡ k → ⊥) → page_at j bytes.new ≡ page_at j bytes.old }
        ensures before { before self.now bytes.new ≡ before self.now bytes.old }
        ensures long { length bytes.new ≡ length bytes.old }
    {
        if let Some(page) = self.kept(k) {
            write_over(bytes, 4096 * k, page);
        }
    }
}
