//! The index.

ghost use Rattle.std.specs.Prelude.{◌≡◌, ◌+◌, ◌*◌, ◌/◌, ◌<◌, ◌≤◌, ◌++◌, length, max, replicate, slice_index, slice_set, IfOk, OnErr, OnOk};
ghost use Rattle.cell_tables.specs.free_index.Sizes.{AreTops, FindsLast, FindsLowest, IsTop};

use crate::free_index::search::{Numbers, first_fit, last_some, top_of};
use std::alloc::{AllocError, Global};
use std::marker::Model;

/// For each page of 512 slots the greatest of its sizes.
#[derive(Drop)]
pub struct FreeIndex {
    tops: Vec<u32>,
}

impl Model for FreeIndex {
    ghost use Rattle.std.specs.Prelude.{ℕ, List};

    ghost Value = { List ℕ };

    ghost view = { λ a. a.tops.items };
}

impl Numbers for FreeIndex {
    ghost numbers = { λ tops. tops };

    fn number_at(&self, place: usize) -> u32 {
        self.tops[place]
    }
}

/// The top of a page in which a size is gone: only where it was the top, the page is looked over.
fn top_without<N: Numbers>(sizes: &N, page: usize, top: u32, old: u32) -> u32
    requires few { page < 4096 }
    requires within { 512 * page + 512 ≤ length (N.numbers sizes.now) }
    ensures stays { (top ≡ old → ⊥) → result ≡ top }
    ensures counted { top ≡ old → IsTop (N.numbers sizes.now) (512 * page) (512 * page + 512) result }
{
    if top != old {
        return top;
    }
    top_of(sizes, 512 * page, 512 * page + 512)
}

impl FreeIndex {
    /// The index of the sizes of that many pages: one look at each.
    pub fn of<N: Numbers>(alloc: Global, sizes: &N, pages: usize) -> Result<FreeIndex, AllocError>
        requires whole { length (N.numbers sizes.now) ≡ 512 * pages }
        requires few { pages ≤ 4096 }
        ensures { IfOk result (AreTops (N.numbers sizes.now)) }
    {
        let mut tops = Vec::with_capacity(alloc, pages)?;
        tops.resize(pages, 0)?;
        let mut index = FreeIndex { tops };
        index.recount(sizes, pages);
        Ok(index)
    }

    /// The index of the sizes of that many pages, which are not more than before: one look at each. No memory is taken.
    pub fn recount<N: Numbers>(&mut self, sizes: &N, pages: usize)
        requires whole { length (N.numbers sizes.now) ≡ 512 * pages }
        requires few { pages ≤ 4096 }
        requires within { pages ≤ length self.old }
        ensures { AreTops (N.numbers sizes.now) self.new }
    {
        self.tops.truncate(pages);
        for page in 0..pages {
            let top = top_of(sizes, 512 * page, 512 * page + 512);
            self.put(page, top);
        }
    }

    /// Says that this many pages follow at which no free cell begins. Nothing changes where there is no memory.
    pub fn grow(&mut self, pages: usize) -> Result<(), AllocError>
        requires { length self.old + pages ≤ 4096 }
        ensures ok { OnOk result (self.new ≡ self.old ++ replicate pages 0) }
        ensures err { OnErr result (self.new ≡ self.old) }
    {
        self.tops.resize(self.tops.len() + pages, 0)
    }

    /// How many pages there are.
    fn pages(&self) -> usize
        ensures { result ≡ length self.now }
    {
        self.tops.len()
    }

    /// This page has this top.
    fn put(&mut self, page: usize, top: u32)
        requires { page < length self.old }
        ensures { self.new ≡ slice_set self.old page top }
    {
        self.tops[page] = top;
    }

    /// Says that the size at this slot is this one now, and was no greater.
    pub fn raise(&mut self, slot: usize, size: u32)
        requires { slot < 512 * length self.old }
        ensures { self.new ≡ slice_set self.old (slot / 512) (max (slice_index self.old (slot / 512)) size) }
    {
        let page = slot / 512;
        let top = self.number_at(page).max(size);
        self.put(page, top);
    }

    /// Says that the size at this slot was this one and is 0 now.
    pub fn lower<N: Numbers>(&mut self, sizes: &N, slot: usize, old: u32)
        requires inside { slot < length (N.numbers sizes.now) }
        requires gone { slice_index (N.numbers sizes.now) slot ≡ 0 }
        requires kept { AreTops (slice_set (N.numbers sizes.now) slot old) self.old }
        ensures { AreTops (N.numbers sizes.now) self.new }
    {
        let page = slot / 512;
        let top = self.number_at(page);
        let new = top_without(sizes, page, top, old);
        self.put(page, new);
    }

    /// The lowest slot at which a free cell of at least this size begins.
    pub fn lowest_fit<N: Numbers>(&self, sizes: &N, size: u32) -> Option<usize>
        requires { AreTops (N.numbers sizes.now) self.now }
        ensures { FindsLowest size (N.numbers sizes.now) 0 (length (N.numbers sizes.now)) result }
    {
        let page = first_fit(self, 0, self.pages(), size)?;
        first_fit(sizes, 512 * page, 512 * page + 512, size)
    }

    /// The last slot below this one at which a free cell begins.
    pub fn last_below<N: Numbers>(&self, sizes: &N, slot: usize) -> Option<usize>
        requires kept { AreTops (N.numbers sizes.now) self.now }
        requires inside { slot ≤ length (N.numbers sizes.now) }
        ensures { FindsLast (N.numbers sizes.now) 0 slot result }
    {
        let own = slot / 512;
        match last_some(sizes, 512 * own, slot) {
            Some(place) => return Some(place),
            None => {}
        }
        let page = last_some(self, 0, own)?;
        last_some(sizes, 512 * page, 512 * page + 512)
    }
}
