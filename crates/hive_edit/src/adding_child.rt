//! A child of the root added with all below it.

ghost use Rattle.std.specs.Prelude.{◌≡◌, ◌≤◌, ◌<◌, ◌^◌, ◌+◌, ◌-◌, ◌*◌, [], min, true, Ok, IfOk, MatchBool, MatchResult};
ghost use Rattle.std.specs.Option.{IfSome, MatchOption};
ghost use Rattle.std.specs.Result.{IsOk};
ghost use Rattle.hive_model.specs.Limits.{most_bins};
ghost use Rattle.hive_model.specs.Bins.{bins_size};
ghost use Rattle.hive_model.specs.Tree.{head};
ghost use Rattle.hive_model.specs.Size.{list_size, security_size, size};
ghost use Rattle.hive_model.specs.Edit.{add_child, after_step, is_bad_name, renamed};
ghost use Rattle.reg_tree.specs.Fitting.{Fits};
ghost use Rattle.reg_tree.specs.Makes.{IsRefused};
ghost use Rattle.hive_cells.specs.Sources.{cells_of};
ghost use Rattle.hive_edit.specs.Children.{IsAddedIn, IsFreeName, IsGraftedIn, IsNewChild, LacksGraftRoom, MayGraft, RefusesName};
ghost use Rattle.hive_edit.specs.Grafted.{descriptor_of};
ghost use Rattle.hive_edit.specs.Runs.{IsPlace};
ghost use Rattle.hive_edit.specs.Stepped.{LacksStepRoom};
ghost use Rattle.hive_edit.specs.Tells.{IsToldStep};

use crate::adding::above_at;
use crate::cells::{are_bytes, place_for};
use crate::grafting::graft_cells;
use crate::hive::HiveBytes;
use crate::making::Above;
use crate::telling::class_len;
use cell_forms::read_sk;
use hive_cells::{MOST_BINS, OpenHeap, Source};
use hive_look::child_at;
use hive_pack::{NOWHERE, cells_below, list_len};
use key_index::payload;
use nt_bytes::{Bytes, HiveVersion, ReadStop, Units};
use reg_tree::{EditStop, Key, LONGEST_KEY_NAME, is_bad_name};
use std::alloc::{AllocError, Global};

/// How many bytes a key takes less that shares its descriptor, than it takes with a cell of its own for it.
fn spared(shared: &[u8], security: &[u8]) -> u64
    ensures { result + security_size shared.now security.now ≡ security_size [] security.now }
{
    if security.is_empty() {
        return 0;
    }
    if shared == security {
        (security.len() as u64 + 31) / 8 * 8
    } else {
        0
    }
}

/// How many bytes the cells of a key and of all below it take, below one with a descriptor, where that is at most 16 MiB.
pub(crate) fn size_below(version: HiveVersion, shared: &[u8], key: &Key) -> Option<u32>
    ensures size { MatchOption result (most_bins < size version shared.now key.now) (λ n. n ≡ size version shared.now key.now) }
    ensures few { IfSome result (λ n. n ≤ most_bins) }
{
    let less = spared(shared, key.security());
    let size = key.bulk(version) - 32 - less;
    if size > MOST_BINS {
        return None;
    }
    Some(size as u32)
}

/// The key under another name, in memory of its own.
pub(crate) fn renamed(alloc: Global, key: &Key, name: &[u16]) -> Result<Key, AllocError>
    ensures { IfOk result (λ k. k ≡ renamed name.now key.now) }
{
    let mut copy = key.copy(alloc)?;
    copy.name = Units::from_slice(alloc, name)?;
    Ok(copy)
}

/// The descriptor in the cell of security at an offset, none where that names nothing.
#[tactic(auto, unfolding(key_index::specs::Lists::payload_in))]
pub(crate) fn descriptor(alloc: Global, cells: &Source, at: u32) -> Result<Bytes, AllocError>
    requires { IsOk (descriptor_of (cells_of cells.now) at) }
    ensures { IfOk result (λ d. descriptor_of (cells_of cells.now) at ≡ Ok d) }
{
    if at == NOWHERE {
        return Ok(Bytes::new(alloc));
    }
    let bytes = payload(cells, at);
    match read_sk(alloc, bytes, at) {
        Ok(form) => Ok(form.descriptor),
        Err(ReadStop::Memory) => Err(AllocError),
        Err(ReadStop::Fault(_)) => unreachable!(),
    }
}

/// The bulk of a tree whose root, which had that many children, gets one that takes that many bytes.
fn grafted_bulk(bulk: u64, count: u32, bytes: u32) -> u64
    requires few { count ≤ 2097150 }
    requires small { bytes ≤ most_bins }
    ensures { result ≡ min (bulk + (bytes + (list_size (count + 1) - list_size count))) 18446744073709551615 }
{
    let more = list_len(count as usize + 1) - list_len(count as usize);
    bulk.saturating_add(bytes as u64 + more as u64)
}

/// Offsets fit four bytes.
pub(crate) fn offset_fits(at: u32)
    ensures { at < 2 ^ 32 }
{}

impl HiveBytes {
    /// Judges a name for a child of the root, in the order of the book.
    pub(crate) fn judge_name(&self, name: &[u16]) -> Result<(), EditStop>
        ensures { MatchResult result (λ _. IsFreeName self.now name.now) (RefusesName self.now name.now) }
    {
        let source = Source {
            heap: self.cells.cells(),
            version: self.version,
        };
        if is_bad_name(name) {
            return Err(EditStop::BadName);
        }
        if name.len() > LONGEST_KEY_NAME {
            return Err(EditStop::NameTooLong);
        }
        if child_at(&source, self.root, name).is_some() {
            return Err(EditStop::Exists);
        }
        Ok(())
    }

    /// Puts a key below the root, at a place for its run, whatever the bulk then. `false` where there is no room for the root's
    /// lists. The hive is to be dropped or restored then, and after an `Err`.
    fn graft_at(
        &mut self,
        alloc: Global,
        above: Above,
        shared: &[u8],
        key: &Key,
        own: u32,
        bytes: u32,
        at: u32,
    ) -> Result<bool, AllocError>
        requires new { IsNewChild self.old key.now }
        requires may { MayGraft self.old above shared.now }
        requires own { own ≡ size self.old.version (head self.old.tree).security key.now }
        requires few { own ≤ most_bins }
        requires size { bytes ≡ size self.old.version shared.now key.now }
        requires place { IsPlace bytes self.old.bins at }
        ensures grafted { IfOk result (λ done. MatchBool done (IsGraftedIn self.old above.security shared.now key.now self.new)
            (LacksGraftRoom self.old shared.now key.now)) }
        ensures base { self.new.base ≡ self.old.base }
        ensures grown { bins_size self.old.bins ≤ bins_size self.new.bins }
    {
        let bulk = grafted_bulk(self.bulk, above.count, own);
        let version = self.version;
        let root = self.root;
        offset_fits(root);
        let run = cells_below(
            alloc,
            version,
            root,
            shared,
            above.security,
            at as usize,
            key,
        )?;
        let done = graft_cells(
            alloc,
            &mut self.cells,
            version,
            root,
            above,
            shared,
            key,
            at,
            run.as_slice(),
        )?;
        if !done {
            return Ok(false);
        }
        are_bytes(&self.cells);
        self.bulk = bulk;
        Ok(true)
    }

    /// Puts a key below the root, whatever the bulk then. `false` where there is no room for its run, or for the root's lists.
    pub(crate) fn graft(
        &mut self,
        alloc: Global,
        above: Above,
        shared: &[u8],
        key: &Key,
        own: u32,
        bytes: u32,
    ) -> Result<bool, AllocError>
        requires new { IsNewChild self.old key.now }
        requires may { MayGraft self.old above shared.now }
        requires own { own ≡ size self.old.version (head self.old.tree).security key.now }
        requires few { own ≤ most_bins }
        requires size { bytes ≡ size self.old.version shared.now key.now }
        requires small { bytes ≤ most_bins }
        ensures grafted { IfOk result (λ done. MatchBool done (IsGraftedIn self.old above.security shared.now key.now self.new)
            (LacksGraftRoom self.old shared.now key.now)) }
        ensures base { self.new.base ≡ self.old.base }
        ensures grown { bins_size self.old.bins ≤ bins_size self.new.bins }
    {
        match place_for(&self.cells, bytes) {
            None => Ok(false),
            Some(at) => self.graft_at(alloc, above, shared, key, own, bytes, at),
        }
    }

    /// Puts a key below the root, which shares the root's descriptor, whatever the bulk then.
    fn add_below_root(&mut self, alloc: Global, key: &Key) -> Result<bool, AllocError>
        requires new { IsNewChild self.old key.now }
        ensures added { IfOk result (λ done. MatchBool done (IsAddedIn self.old key.now self.new)
            (LacksGraftRoom self.old (head self.old.tree).security key.now)) }
        ensures base { self.new.base ≡ self.old.base }
        ensures grown { bins_size self.old.bins ≤ bins_size self.new.bins }
    {
        let source = Source {
            heap: self.cells.cells(),
            version: self.version,
        };
        let above = above_at(&source, self.root);
        if above.count > 2_097_150 {
            return Ok(false);
        }
        offset_fits(above.security);
        let shared = descriptor(alloc, &source, above.security)?;
        match size_below(self.version, shared.as_slice(), key) {
            None => Ok(false),
            Some(size) => self.graft(alloc, above, shared.as_slice(), key, size, size),
        }
    }

    /// Adds a key under a name that it may have; the root's node records no less than the lengths of the name and of the class.
    fn add_named(&mut self, alloc: Global, name: &[u16], key: &Key) -> Result<bool, EditStop>
        requires free { IsFreeName self.old name.now }
        requires fits { Fits (add_child name.now key.now) }
        ensures made { MatchResult result
            (λ done. MatchBool done (IsToldStep self.old (add_child name.now key.now) self.new) (LacksStepRoom self.old (add_child name.now key.now)))
            (IsRefused (after_step (add_child name.now key.now) self.old.tree)) }
        ensures base { self.new.base ≡ self.old.base }
        ensures grown { bins_size self.old.bins ≤ bins_size self.new.bins }
    {
        self.stands();
        if key.is_deeper(511) {
            return Err(EditStop::TooDeep);
        }
        let child = renamed(alloc, key, name)?;
        match self.add_below_root(alloc, &child) {
            Ok(true) => {
                let class = class_len(key);
                self.tell_child(alloc, name, class);
                Ok(true)
            }
            Ok(false) => Ok(false),
            Err(_) => Err(EditStop::Memory),
        }
    }

    /// Gives the root a child of this name, which is this key with all below it, whatever the bulk of the tree then: one run of
    /// cells, new lists of the root, and that many uses more of the root's security as keys share it. `false` where there is no
    /// room for the run or for the lists. The hive is to be dropped or restored then, and after an `Err`.
    pub(crate) fn add_child_step(
        &mut self,
        alloc: Global,
        name: &[u16],
        key: &Key,
    ) -> Result<bool, EditStop>
        requires fits { Fits (add_child name.now key.now) }
        ensures made { MatchResult result
            (λ done. MatchBool done (IsToldStep self.old (add_child name.now key.now) self.new) (LacksStepRoom self.old (add_child name.now key.now)))
            (IsRefused (after_step (add_child name.now key.now) self.old.tree)) }
        ensures base { self.new.base ≡ self.old.base }
        ensures grown { bins_size self.old.bins ≤ bins_size self.new.bins }
    {
        match self.judge_name(name) {
            Err(stop) => Err(stop),
            Ok(()) => self.add_named(alloc, name, key),
        }
    }
}
