//! A key made in place.

ghost use Rattle.std.specs.Prelude.{◌≡◌, ◌≤◌, ◌<◌, ◌+◌, ◌-◌, length, Ok, IfOk, MatchBool, MatchResult};
ghost use Rattle.std.specs.Option.{MatchOption};
ghost use Rattle.hive_model.specs.Limits.{most_bins};
ghost use Rattle.hive_model.specs.Bins.{bins_size};
ghost use Rattle.hive_model.specs.Edit.{make_key, new_key, is_bad_name, after_step};
ghost use Rattle.hive_model.specs.Size.{cell, list_size, name_bytes};
ghost use Rattle.reg_tree.specs.Makes.{IsRefused};
ghost use Rattle.hive_model.specs.KeyNode.{KeyNode, key_node_at};
ghost use Rattle.hive_model.specs.Stands.{IsWellFormed};
ghost use Rattle.hive_model.specs.Tree.{Tree, head};
ghost use Rattle.hive_model.specs.Walk.{reading};
ghost use Rattle.hive_cells.specs.Sources.{cells_of};
ghost use Rattle.hive_edit.specs.Hive.{cells_in};
ghost use Rattle.hive_edit.specs.Making.{bare, AboveIs, IsOpen, MayMake};
ghost use Rattle.hive_look.specs.Places.{IsKeyAt};
ghost use Rattle.hive_edit.specs.Stepped.{LacksStepRoom};
ghost use Rattle.hive_edit.specs.Tells.{IsToldStep};
ghost use Rattle.hive_model.specs.Valid.{longest_key_name};

use crate::adding_child::offset_fits;
use crate::cells::{are_bytes, place_for};
use crate::grafting::graft_cells;
use crate::hive::HiveBytes;
use crate::key_size::descriptor_at;
use crate::making::Above;
use crate::telling::{CHILDREN, wide_len};
use hive_cells::Source;
use hive_look::{child_at, key_at};
use hive_pack::{cell_size, cells_below, list_len, name_len};
use key_index::{bins_fit, payload};
use nt_bytes::{Bytes, Names, Units, u32_at, u64_at};
use reg_tree::{EditStop, Key, Keys, LONGEST_KEY_NAME, MOST_PARENTS, Values, is_bad_name};
use std::alloc::{AllocError, Global};

/// Where a key may be made, and the bulk of the tree with it.
#[derive(Clone, Copy)]
pub(crate) struct NewPlace {
    pub(crate) at: u32,
    pub(crate) bulk: u64,
}

/// The bulk of a tree in which a key of that many children gets one of this name.
fn grown_bulk(bulk: u64, count: u32, name: &[u16]) -> u64
    requires few { count ≤ 2097150 }
    requires short { length name.now ≤ longest_key_name }
    requires less { list_size count ≤ bulk + (cell (76 + name_bytes name.now) + list_size (count + 1)) }
    requires low { bulk ≤ 1152921504606846976 }
    ensures { result ≡ bulk + (cell (76 + name_bytes name.now) + list_size (count + 1)) - list_size count }
{
    let more = cell_size(76 + name_len(name)) + list_len(count as usize + 1);
    let less = list_len(count as usize);
    bulk + more as u64 - less as u64
}

/// What the node of a key says of its children, and where its security is.
pub(crate) fn above_at(cells: &Source, at: u32) -> Above
    requires { IsKeyAt (cells_of cells.now) at }
    ensures { (n : KeyNode) → reading key_node_at (cells_of cells.now) at ≡ Ok n → AboveIs result n }
{
    let node = payload(cells, at);
    Above {
        list: u32_at(node, 28),
        count: u32_at(node, 20),
        volatile: u32_at(node, 24),
        security: u32_at(node, 44),
    }
}

/// When a key was last written.
fn stamp_at(cells: &Source, at: u32) -> u64
    requires { IsKeyAt (cells_of cells.now) at }
    ensures { (t : Tree) → IsWellFormed (cells_of cells.now) at t → result ≡ (head t).stamp }
{
    let node = payload(cells, at);
    u64_at(node, 4)
}

/// A key with nothing but a name, a stamp and a descriptor.
fn bare(alloc: Global, name: &[u16], stamp: u64, security: &[u8]) -> Result<Key, AllocError>
    ensures { IfOk result (λ k. k ≡ bare name.now stamp security.now) }
{
    Ok(Key {
        name: Units::from_slice(alloc, name)?,
        flags: 0,
        stamp,
        class: Bytes::new(alloc),
        security: Bytes::from_slice(alloc, security)?,
        values: Values::new(alloc),
        children: Keys::new(alloc),
    })
}

/// A new child of the key at an offset: with its stamp and its descriptor, and nothing else.
fn new_child(alloc: Global, cells: &Source, at: u32, name: &[u16]) -> Result<Key, AllocError>
    requires { IsKeyAt (cells_of cells.now) at }
    ensures { IfOk result (λ k. (t : Tree) → IsWellFormed (cells_of cells.now) at t → k ≡ new_key name.now t) }
{
    let stamp = stamp_at(cells, at);
    let security = descriptor_at(cells, at);
    let key = bare(alloc, name, stamp, security)?;
    Ok(key)
}

/// How many bytes the node of a key of this name takes.
fn node_len(name: &[u16]) -> u32
    requires { length name.now ≤ longest_key_name }
    ensures exact { result ≡ cell (76 + name_bytes name.now) }
    ensures some { 0 < result }
    ensures few { result ≤ most_bins }
{
    cell_size(76 + name_len(name)) as u32
}

impl HiveBytes {
    /// Where a key may be made, in the order of the book. `None` where it is there.
    fn open_place(&self, parent: &Names, name: &[u16]) -> Result<Option<u32>, EditStop>
        ensures judged { MatchResult result
            (λ r. MatchOption r (IsToldStep self.now (make_key parent.now name.now) self.now) (IsOpen self.now parent.now name.now))
            (IsRefused (after_step (make_key parent.now name.now) self.now.tree)) }
    {
        let source = Source {
            heap: self.cells.cells(),
            version: self.version,
        };
        let at = match key_at(&source, self.root, parent) {
            None => return Err(EditStop::NoKey),
            Some(at) => at,
        };
        if is_bad_name(name) {
            return Err(EditStop::BadName);
        }
        if name.len() > LONGEST_KEY_NAME {
            return Err(EditStop::NameTooLong);
        }
        if parent.as_slice().len() > MOST_PARENTS {
            return Err(EditStop::TooDeep);
        }
        if child_at(&source, at, name).is_some() {
            return Ok(None);
        }
        Ok(Some(at))
    }

    /// How many children the key at an offset has.
    fn count_at(&self, at: u32, parent: &Names, name: &[u16]) -> u32
        requires { IsOpen self.now parent.now name.now at }
        ensures { (n : KeyNode) → reading key_node_at (cells_in self.now) at ≡ Ok n → result ≡ n.child_count }
    {
        let source = Source {
            heap: self.cells.cells(),
            version: self.version,
        };
        above_at(&source, at).count
    }

    /// Where the key may be made, with the bulk of the tree then. `None` where the key above has too many children for it.
    fn new_place(&self, at: u32, parent: &Names, name: &[u16]) -> Option<NewPlace>
        requires { IsOpen self.now parent.now name.now at }
        ensures { MatchOption result (LacksStepRoom self.now (make_key parent.now name.now)) (MayMake self.now parent.now name.now) }
    {
        bins_fit(&self.cells);
        let count = self.count_at(at, parent, name);
        if count > 2_097_150 {
            return None;
        }
        let bulk = grown_bulk(self.bulk, count, name);
        Some(NewPlace { at, bulk })
    }

    /// Makes a key that may be made, whatever the bulk then; the node of the key above it records no less than the length of the
    /// name. `false` where there is no room for its node, or for the lists of the key above it.
    fn make_at(
        &mut self,
        alloc: Global,
        place: NewPlace,
        parent: &Names,
        name: &[u16],
    ) -> Result<bool, AllocError>
        requires may { MayMake self.old parent.now name.now place }
        ensures made { IfOk result (λ done. MatchBool done (IsToldStep self.old (make_key parent.now name.now) self.new)
            (LacksStepRoom self.old (make_key parent.now name.now))) }
        ensures base { self.new.base ≡ self.old.base }
        ensures grown { bins_size self.old.bins ≤ bins_size self.new.bins }
    {
        self.stands();
        let source = Source {
            heap: self.cells.cells(),
            version: self.version,
        };
        let above = above_at(&source, place.at);
        offset_fits(place.at);
        offset_fits(above.security);
        let key = new_child(alloc, &source, place.at, name)?;
        let shared = key.security();
        let size = node_len(name);
        let at = match place_for(&self.cells, size) {
            None => return Ok(false),
            Some(at) => at,
        };
        let version = self.version;
        // One cell is the same wherever it is put: no bytes are made for those before it.
        let run = cells_below(alloc, version, place.at, shared, above.security, 0, &key)?;
        let done = graft_cells(
            alloc,
            &mut self.cells,
            version,
            place.at,
            above,
            shared,
            &key,
            at,
            run.as_slice(),
        )?;
        if !done {
            return Ok(false);
        }
        self.bulk = place.bulk;
        are_bytes(&self.cells);
        let wide = wide_len(name);
        self.tell(parent, CHILDREN, wide, 0);
        Ok(true)
    }

    /// Gives the key that a path leads to a child of this name, unless it has one, whatever the bulk of the tree then: with
    /// its stamp and its security, and nothing else, in the order of folded names. Its node is put into a cell that was
    /// none, the parent's lists are rewritten, and the security, if there is any, counts one key more. `false` where there is no room for
    /// the node or the lists. The hive is to be dropped or restored then, and after an `Err`.
    pub(crate) fn make_key_step(
        &mut self,
        alloc: Global,
        parent: &Names,
        name: &[u16],
    ) -> Result<bool, EditStop>
        ensures made { MatchResult result
            (λ done. MatchBool done (IsToldStep self.old (make_key parent.now name.now) self.new) (LacksStepRoom self.old (make_key parent.now name.now)))
            (IsRefused (after_step (make_key parent.now name.now) self.old.tree)) }
        ensures base { self.new.base ≡ self.old.base }
        ensures grown { bins_size self.old.bins ≤ bins_size self.new.bins }
    {
        match self.open_place(parent, name) {
            Err(stop) => Err(stop),
            Ok(None) => Ok(true),
            Ok(Some(at)) => match self.new_place(at, parent, name) {
                None => Ok(false),
                Some(place) => match self.make_at(alloc, place, parent, name) {
                    Ok(true) => Ok(true),
                    Ok(false) => Ok(false),
                    Err(_) => Err(EditStop::Memory),
                },
            },
        }
    }
}
