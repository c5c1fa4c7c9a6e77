//! A key deleted in place, with all below it.

ghost use Rattle.std.specs.Prelude.{◌≡◌, ◌≤◌, ◌<◌, ◌⊎◌, [], ◌∷◌, length, map, true, false, Some, Ok, Err, IfOk, IfErr, OnOk, OnErr, MatchBool, MatchOption, MatchResult};
ghost use Rattle.std.specs.List.{All};
ghost use Rattle.hive_model.specs.Bins.{bins_size};
ghost use Rattle.hive_model.specs.Size.{bulk_of};
ghost use Rattle.hive_model.specs.Edit.{after_step, delete_key, edited, no_key, without_key};
ghost use Rattle.hive_cells.specs.Sources.{cells_of};
ghost use Rattle.edited_cells.specs.Uses.{tree_uses};
ghost use Rattle.reg_tree.specs.Fitting.{Fits};
ghost use Rattle.reg_tree.specs.Makes.{IsRefused, Makes, step_of};
ghost use Rattle.reg_tree.specs.declared.stop.EditStop.TheVariants.{Memory};
ghost use Rattle.hive_edit.specs.Hive.{cells_in};
ghost use Rattle.hive_look.specs.Places.{IsKeyAt};
ghost use Rattle.hive_edit.specs.Edits.{IsEditedInPlace, IsPackedAnew, IsPackedForRoom, KeepsParents};
ghost use Rattle.hive_edit.specs.Stepped.{IsStepped, LacksStepRoom};
ghost use Rattle.hive_edit.specs.Deleting.{levels_left, pair_place, DropsUses, IsPairKept, IsPairTaken, IsPairThere};

use crate::adding::above_at;
use crate::cells::are_bytes;
use crate::dropping::take_child;
use crate::hive::HiveBytes;
use crate::key_size::{below_len, descriptor_at, list_len};
use hive_cells::{OpenHeap, Source};
use hive_look::{child_at, push_key};
use key_index::bins_fit;
use nt_bytes::{HiveVersion, Names, Row};
use reg_tree::{EditStop, MOST_BULK, Steps, TreeStep};
use std::alloc::{AllocError, Global};

/// Where a key is, and the key above it.
#[derive(Clone, Copy)]
pub(crate) struct KeyPair {
    pub(crate) above: u32,
    pub(crate) at: u32,
}

/// The key that a path leads to, and the key above it. None where there is none, and for the root.
fn pair_at(cells: &Source, root: u32, path: &Names) -> Option<KeyPair>
    requires { IsKeyAt (cells_of cells.now) root }
    ensures { result ≡ pair_place (cells_of cells.now) path.now root }
{
    if path.as_slice().is_empty() {
        return None;
    }
    let mut above = root;
    let mut at = root;
    let mut rest = path.as_slice();
    'path: loop {
        let [name, more @ ..] = rest else {
            return Some(KeyPair { above, at });
        };
        match child_at(cells, at, name.as_slice()) {
            None => return None,
            Some(child) => {
                above = at;
                at = child;
                rest = more;
            }
        }
    }
}

/// The cells that the key at a path and the keys below it use.
fn uses_of(
    alloc: Global,
    cells: &Source,
    path: &Names,
    at: u32,
) -> Result<Vec<(u32, bool)>, AllocError>
    requires here { IsKeyAt (cells_of cells.now) at }
    requires shallow { length path.now ≤ 512 }
    ensures { IfOk result (λ uses. uses.items ≡ tree_uses (levels_left path.now) (cells_of cells.now) at) }
{
    let mut uses = Vec::new(alloc);
    let left = 512 - path.as_slice().len() as u32;
    push_key(alloc, cells, left, at, &mut uses)?;
    Ok(uses)
}

/// Takes the key that a path leads to out of the key above it, with the cells that it and the keys below it use. `false`
/// where there is no room for the lists of the key above; the cells are then as they were.
fn take_pair(
    alloc: Global,
    heap: &mut OpenHeap,
    version: HiveVersion,
    root: u32,
    path: &Names,
    pair: KeyPair,
) -> Result<bool, AllocError>
    requires { IsPairThere version root path.now pair heap.old.bins }
    ensures taken { IfOk result (λ done. MatchBool done (IsPairTaken version path.now pair heap.old.bins heap.new.bins)
        (IsPairKept version pair heap.old.bins heap.new.bins)) }
    ensures refused { OnErr result (heap.new ≡ heap.old) }
    ensures base { heap.new.base ≡ heap.old.base }
{
    let source = Source {
        heap: heap.cells(),
        version,
    };
    let above = above_at(&source, pair.above);
    let uses = uses_of(alloc, &source, path, pair.at)?;
    take_child(
        alloc,
        heap,
        version,
        pair.above,
        above,
        pair.at,
        uses.as_slice(),
    )
}

/// The step that deletes a key.
fn deleting(alloc: Global, path: &Names) -> Result<Steps, EditStop>
    ensures made { IfOk result (λ steps. map step_of steps ≡ delete_key path.now ∷ []) }
    ensures fits { IfOk result (λ steps. All Fits (map step_of steps)) }
    ensures memory { IfErr result (λ stop. stop ≡ Memory) }
{
    let mut steps = Row::new(alloc);
    steps.push(TreeStep::DeleteKey {
        path: path.copy(alloc)?,
    })?;
    Ok(steps)
}

impl HiveBytes {
    /// The key that a path leads to, and the key above it.
    fn key_pair(&self, path: &Names) -> Option<KeyPair>
        ensures place { result ≡ pair_place (cells_in self.now) path.now self.now.root }
        ensures step { MatchOption result (after_step (delete_key path.now) self.now.tree ≡ Err no_key)
            (λ p. after_step (delete_key path.now) self.now.tree ≡ Ok (without_key path.now self.now.tree)) }
    {
        let source = Source {
            heap: self.cells.cells(),
            version: self.version,
        };
        pair_at(&source, self.root, path)
    }

    /// The bulk without a key, by its own cells and the lists of the key above.
    fn bulk_without_key(
        &self,
        alloc: Global,
        path: &Names,
        pair: KeyPair,
    ) -> Result<u64, AllocError>
        requires place { pair_place (cells_in self.now) path.now self.now.root ≡ Some pair }
        ensures { IfOk result (λ n. n ≡ bulk_of self.now.version (without_key path.now self.now.tree)) }
    {
        bins_fit(&self.cells);
        let source = Source {
            heap: self.cells.cells(),
            version: self.version,
        };
        let count = above_at(&source, pair.above).count;
        let shared = descriptor_at(&source, pair.above);
        let below = below_len(alloc, &source, shared, pair.at)?;
        let less = list_len(count) + below;
        Ok(self.bulk + list_len(count - 1) - less)
    }

    /// Deletes the key in place, where this is the bulk without it. `false` where there is no room.
    fn take_at(
        &mut self,
        alloc: Global,
        path: &Names,
        pair: KeyPair,
        bulk: u64,
    ) -> Result<bool, AllocError>
        requires place { pair_place (cells_in self.old) path.now self.old.root ≡ Some pair }
        requires bulk { bulk ≡ bulk_of self.old.version (without_key path.now self.old.tree) }
        ensures made { IfOk result (λ done. MatchBool done (IsStepped self.old (delete_key path.now) self.new) (LacksStepRoom self.old (delete_key path.now))) }
        ensures drops { result ≡ Ok true → DropsUses self.old path.now self.new }
        ensures kept { result ≡ Ok false → self.new ≡ self.old }
        ensures refused { OnErr result (self.new ≡ self.old) }
        ensures base { self.new.base ≡ self.old.base }
    {
        let version = self.version;
        let done = take_pair(alloc, &mut self.cells, version, self.root, path, pair)?;
        if !done {
            return Ok(false);
        }
        are_bytes(&self.cells);
        self.bulk = bulk;
        Ok(true)
    }

    /// Deletes the key that a path leads to, with all below it, whatever the bulk. `false` where there is no room for the
    /// lists of the key above without it; the hive is as before then, and after an `Err`.
    pub(crate) fn delete_key_step(&mut self, alloc: Global, path: &Names) -> Result<bool, EditStop>
        ensures made { MatchResult result
            (λ done. MatchBool done (IsStepped self.old (delete_key path.now) self.new) (LacksStepRoom self.old (delete_key path.now)))
            (IsRefused (after_step (delete_key path.now) self.old.tree)) }
        ensures drops { result ≡ Ok true → DropsUses self.old path.now self.new }
        ensures kept { result ≡ Ok false → self.new ≡ self.old }
        ensures refused { OnErr result (self.new ≡ self.old) }
        ensures base { self.new.base ≡ self.old.base }
        ensures grown { bins_size self.old.bins ≤ bins_size self.new.bins }
    {
        match self.key_pair(path) {
            None => Err(EditStop::NoKey),
            Some(pair) => {
                let bulk = self.bulk_without_key(alloc, path, pair)?;
                let done = self.take_at(alloc, path, pair, bulk)?;
                Ok(done)
            }
        }
    }

    /// Deletes a key, and repacks the tree.
    fn delete_anew(&mut self, alloc: Global, path: &Names) -> Result<(), EditStop>
        ensures made { Makes self.old.tree self.new.tree result (edited self.old.version self.old.tree (delete_key path.now ∷ [])) }
        ensures refused { OnErr result (self.new ≡ self.old) }
        ensures version { self.new.version ≡ self.old.version }
        ensures anew { OnOk result (IsPackedAnew self.new) }
        ensures base { self.new.base ≡ self.old.base }
    {
        let steps = deleting(alloc, path)?;
        self.apply_anew(alloc, steps)
    }

    /// Deletes a key, where this is the bulk without it, in place where there is room, else repacks the tree.
    fn delete_or_pack(
        &mut self,
        alloc: Global,
        path: &Names,
        pair: KeyPair,
        bulk: u64,
    ) -> Result<(), EditStop>
        requires place { pair_place (cells_in self.old) path.now self.old.root ≡ Some pair }
        requires step { after_step (delete_key path.now) self.old.tree ≡ Ok (without_key path.now self.old.tree) }
        requires bulk { bulk ≡ bulk_of self.old.version (without_key path.now self.old.tree) }
        ensures made { Makes self.old.tree self.new.tree result (edited self.old.version self.old.tree (delete_key path.now ∷ [])) }
        ensures refused { OnErr result (self.new ≡ self.old) }
        ensures version { self.new.version ≡ self.old.version }
        ensures cells { OnOk result (IsEditedInPlace self.old (delete_key path.now ∷ []) self.new
            ⊎ IsPackedForRoom self.old (delete_key path.now ∷ []) self.new) }
        ensures parents { OnOk result (KeepsParents self.old self.new) }
        ensures drops { OnOk result (DropsUses self.old path.now self.new ⊎ IsPackedForRoom self.old (delete_key path.now ∷ []) self.new) }
        ensures base { self.new.base ≡ self.old.base }
    {
        if bulk > MOST_BULK {
            return Err(EditStop::Full);
        }
        if self.take_at(alloc, path, pair, bulk)? {
            return Ok(());
        }
        self.delete_anew(alloc, path)
    }

    /// Deletes the key that a path leads to, with all below it, but never the root. The lists of the key above are
    /// rewritten without it, and the cells that it and the keys below it used are freed, but those of security, which
    /// count these keys no more. What there is no room for repacks the tree. After an `Err` the hive is as before.
    pub fn delete_key(&mut self, alloc: Global, path: &Names) -> Result<(), EditStop>
        ensures made { Makes self.old.tree self.new.tree result (edited self.old.version self.old.tree (delete_key path.now ∷ [])) }
        ensures refused { OnErr result (self.new ≡ self.old) }
        ensures version { self.new.version ≡ self.old.version }
        ensures cells { OnOk result (IsEditedInPlace self.old (delete_key path.now ∷ []) self.new
            ⊎ IsPackedForRoom self.old (delete_key path.now ∷ []) self.new) }
        ensures parents { OnOk result (KeepsParents self.old self.new) }
        ensures drops { OnOk result (DropsUses self.old path.now self.new ⊎ IsPackedForRoom self.old (delete_key path.now ∷ []) self.new) }
        ensures base { self.new.base ≡ self.old.base }
    {
        match self.key_pair(path) {
            None => Err(EditStop::NoKey),
            Some(pair) => {
                let bulk = self.bulk_without_key(alloc, path, pair)?;
                self.delete_or_pack(alloc, path, pair, bulk)
            }
        }
    }
}
