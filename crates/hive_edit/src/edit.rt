//! A value set, where it stands or with all cells repacked, and steps in order.

ghost use Rattle.std.specs.Prelude.{◌≡◌, ◌≤◌, ◌<◌, ℕ, ◌+◌, ◌⊎◌, [], ◌∷◌, length, map, is_some, true, Some, Ok, Err, IfOk, IfErr, OnOk, OnErr, MatchResult};
ghost use Rattle.std.specs.List.{All};
ghost use Rattle.std.specs.Int.{w32, from_le_bytes};
ghost use Rattle.hive_model.specs.Edit.{edited, set_value, most_bulk};
ghost use Rattle.reg_tree.specs.Fitting.{Fits};
ghost use Rattle.hive_model.specs.Size.{bulk_of};
ghost use Rattle.hive_model.specs.Tree.{Tree};
ghost use Rattle.hive_model.specs.Valid.{IsValid};
ghost use Rattle.hive_model.specs.Stands.{IsWellFormed};
ghost use Rattle.reg_tree.specs.Makes.{IsRefused, Makes, step_of};
ghost use Rattle.reg_tree.specs.declared.stop.EditStop.TheVariants.{Full, Memory};
ghost use Rattle.hive_cells.specs.Sources.{cells_of};
ghost use Rattle.hive_look.specs.Places.{IsItemHere};
ghost use Rattle.hive_edit.specs.Hive.{cells_in, settled_as};
ghost use Rattle.hive_edit.specs.Edits.{if_inside, inside_place, value_fields, IsEditedInPlace, IsPackedAnew, IsPackedForRoom, KeepsParents, WritesFields};
ghost use Rattle.hive_edit.specs.Stepped.{IsStepped};
ghost use Rattle.hive_edit.specs.Tells.{IsToldStep};
ghost use Rattle.hive_edit.specs.Told.{WritesValue};
ghost use Rattle.hive_edit.specs.Freed.{FreesData};
ghost use Rattle.hive_edit.specs.NewValue.{MaySet};

use crate::cells::are_bytes;
use crate::give::inside_fields;
use crate::hive::HiveBytes;
use crate::new_value::ValuePlace;
use crate::strain::{MOST_PAGES, count_sets};
use crate::telling::VALUES;
use hive_cells::{Source, read_cells};
use hive_look::{key_at, value_at};
use hive_pack::{pack, tree_fits};
use hive_read::read_tree;
use key_index::payload;
use nt_bytes::{Bytes, HiveVersion, Names, ReadStop, Row, Units, u32_at};
use reg_tree::{EditStop, Key, LONGEST_DATA, MOST_BULK, Steps, TreeStep};
use std::alloc::Global;
use tree_draft::apply;

/// Where the packed form has the root.
const ROOT: u32 = 32;

/// The step that sets a value.
fn setting(
    alloc: Global,
    path: &Names,
    name: &[u16],
    kind: u32,
    bytes: &[u8],
) -> Result<Steps, EditStop>
    ensures made { IfOk result (λ steps. map step_of steps ≡ set_value path.now name.now kind bytes.now ∷ []) }
    ensures fits { IfOk result (λ steps. All Fits (map step_of steps)) }
    ensures memory { IfErr result (λ stop. stop ≡ Memory) }
{
    let mut steps = Row::new(alloc);
    steps.push(TreeStep::SetValue {
        path: path.copy(alloc)?,
        name: Units::from_slice(alloc, name)?,
        kind,
        bytes: Bytes::from_slice(alloc, bytes)?,
    })?;
    Ok(steps)
}

impl HiveBytes {
    /// A tree is in the cells.
    pub(crate) fn stands(&self)
        ensures { IsWellFormed (cells_in self.now) self.now.root self.now.tree }
    {
        let _root = self.root();
    }

    /// The offset of the value of a name in the key that a path leads to, where it holds its data itself.
    fn inside_at(&self, path: &Names, name: &[u16]) -> Option<u32>
        ensures { result ≡ inside_place (cells_in self.now) path.now name.now self.now.root }
    {
        let source = Source {
            heap: self.cells.cells(),
            version: self.version,
        };
        match key_at(&source, self.root, path) {
            None => None,
            Some(key) => match value_at(&source, key, name) {
                None => None,
                Some(value) => if_inside(&source, value),
            },
        }
    }

    /// The hive of the packed tree after the steps.
    fn packed_anew(&self, alloc: Global, steps: Steps) -> Result<HiveBytes, EditStop>
        requires fits { All Fits (map step_of steps) }
        ensures made { MatchResult result (λ h. edited self.now.version self.now.tree (map step_of steps) ≡ Ok h.tree)
            (IsRefused (edited self.now.version self.now.tree (map step_of steps))) }
        ensures version { IfOk result (λ h. h.version ≡ self.now.version) }
        ensures anew { IfOk result IsPackedAnew }
    {
        let version = self.version;
        let mut tree = match read_tree(alloc, self.cells.cells(), self.root, version) {
            Ok(tree) => tree,
            Err(ReadStop::Memory) => return Err(EditStop::Memory),
            Err(ReadStop::Fault(_)) => unreachable!(),
        };
        apply(&mut tree, alloc, steps, version)?;
        of_packed(alloc, &tree, version)
    }

    /// Takes the cells of another hive, and keeps what they were when they were settled last.
    fn replace(&mut self, other: HiveBytes)
        ensures { self.new ≡ settled_as self.old.base other }
    {
        self.cells.replace(other.cells);
        self.root = other.root;
        self.version = other.version;
        self.bulk = other.bulk;
    }

    /// Makes the steps in order, all or none, and repacks the tree.
    pub(crate) fn apply_anew(&mut self, alloc: Global, steps: Steps) -> Result<(), EditStop>
        requires fits { All Fits (map step_of steps) }
        ensures made { Makes self.old.tree self.new.tree result (edited self.old.version self.old.tree (map step_of steps)) }
        ensures refused { OnErr result (self.new ≡ self.old) }
        ensures version { self.new.version ≡ self.old.version }
        ensures anew { OnOk result (IsPackedAnew self.new) }
        ensures base { self.new.base ≡ self.old.base }
    {
        let after = self.packed_anew(alloc, steps)?;
        self.replace(after);
        Ok(())
    }

    /// Makes the steps in order, all or none, in the cells; where there is no room there for one of them, repacks the tree.
    fn apply_in_order(&mut self, alloc: Global, steps: Steps) -> Result<(), EditStop>
        requires fits { All Fits (map step_of steps) }
        ensures made { Makes self.old.tree self.new.tree result (edited self.old.version self.old.tree (map step_of steps)) }
        ensures refused { OnErr result (self.new ≡ self.old) }
        ensures version { self.new.version ≡ self.old.version }
        ensures cells { OnOk result (IsEditedInPlace self.old (map step_of steps) self.new ⊎ IsPackedForRoom self.old (map step_of steps) self.new) }
        ensures parents { OnOk result (KeepsParents self.old self.new) }
        ensures base { self.new.base ≡ self.old.base }
    {
        self.stands();
        let done = self.make_all(alloc, steps.as_slice())?;
        if done {
            return Ok(());
        }
        self.apply_anew(alloc, steps)
    }

    /// Makes the steps in order, all or none. Each value list that is rewritten takes a page of the strain at the least: where
    /// that many steps set a value that the strain is over the limit, the tree is repacked at once.
    fn apply_many(&mut self, alloc: Global, steps: Steps) -> Result<(), EditStop>
        requires fits { All Fits (map step_of steps) }
        ensures made { Makes self.old.tree self.new.tree result (edited self.old.version self.old.tree (map step_of steps)) }
        ensures refused { OnErr result (self.new ≡ self.old) }
        ensures version { self.new.version ≡ self.old.version }
        ensures cells { OnOk result (IsEditedInPlace self.old (map step_of steps) self.new ⊎ IsPackedForRoom self.old (map step_of steps) self.new) }
        ensures parents { OnOk result (KeepsParents self.old self.new) }
        ensures base { self.new.base ≡ self.old.base }
    {
        let sets = count_sets(steps.as_slice());
        if sets > MOST_PAGES {
            return self.apply_anew(alloc, steps);
        }
        self.apply_in_order(alloc, steps)
    }

    /// Makes the steps in order, all or none. A hive can hold each key that a step brings along. One value that is set
    /// or deleted and one key that is deleted change few cells, as `set_value`, `delete_value` and `delete_key` say; other
    /// steps do so in sequence, where there is room, and else repack the tree. The cells are copied only where they are not
    /// settled. After an `Err` the hive is as before.
    pub fn apply(&mut self, alloc: Global, steps: Steps) -> Result<(), EditStop>
        requires fits { All Fits (map step_of steps) }
        ensures made { Makes self.old.tree self.new.tree result (edited self.old.version self.old.tree (map step_of steps)) }
        ensures refused { OnErr result (self.new ≡ self.old) }
        ensures version { self.new.version ≡ self.old.version }
        ensures cells { OnOk result (IsEditedInPlace self.old (map step_of steps) self.new ⊎ IsPackedForRoom self.old (map step_of steps) self.new) }
        ensures parents { OnOk result (KeepsParents self.old self.new) }
        ensures base { self.new.base ≡ self.old.base }
    {
        match steps.as_slice() {
            [
                TreeStep::SetValue {
                    path,
                    name,
                    kind,
                    bytes,
                },
            ] => self.set_value(alloc, path, name.as_slice(), *kind, bytes.as_slice()),
            [TreeStep::DeleteValue { path, name }] => self.delete_value(path, name.as_slice()),
            [TreeStep::DeleteKey { path }] => self.delete_key(alloc, path),
            _ => self.apply_many(alloc, steps),
        }
    }

    /// Sets one value, and repacks the tree.
    fn set_anew(
        &mut self,
        alloc: Global,
        path: &Names,
        name: &[u16],
        kind: u32,
        bytes: &[u8],
    ) -> Result<(), EditStop>
        ensures made { Makes self.old.tree self.new.tree result (edited self.old.version self.old.tree (set_value path.now name.now kind bytes.now ∷ [])) }
        ensures refused { OnErr result (self.new ≡ self.old) }
        ensures version { self.new.version ≡ self.old.version }
        ensures anew { OnOk result (IsPackedAnew self.new) }
        ensures base { self.new.base ≡ self.old.base }
    {
        let steps = setting(alloc, path, name, kind, bytes)?;
        self.apply_anew(alloc, steps)
    }

    /// Sets one value at a place, in place where there is room for it, else repacks the tree.
    fn set_or_pack(
        &mut self,
        alloc: Global,
        path: &Names,
        name: &[u16],
        place: ValuePlace,
        kind: u32,
        bytes: &[u8],
    ) -> Result<(), EditStop>
        requires may { MaySet self.old path.now name.now bytes.now place }
        ensures made { Makes self.old.tree self.new.tree result (edited self.old.version self.old.tree (set_value path.now name.now kind bytes.now ∷ [])) }
        ensures refused { OnErr result (self.new ≡ self.old) }
        ensures version { self.new.version ≡ self.old.version }
        ensures cells { OnOk result (IsEditedInPlace self.old (set_value path.now name.now kind bytes.now ∷ []) self.new ⊎ IsPackedAnew self.new) }
        ensures room { OnOk result (IsEditedInPlace self.old (set_value path.now name.now kind bytes.now ∷ []) self.new
            ⊎ IsPackedForRoom self.old (set_value path.now name.now kind bytes.now ∷ []) self.new) }
        ensures parents { OnOk result (KeepsParents self.old self.new) }
        ensures freed { OnOk result (FreesData self.old path.now name.now self.new
            ⊎ IsPackedForRoom self.old (set_value path.now name.now kind bytes.now ∷ []) self.new) }
        ensures only_made { result ≡ Err Memory → (t : Tree) × (edited self.old.version self.old.tree (set_value path.now name.now kind bytes.now ∷ []) ≡ Ok t) }
        ensures base { self.new.base ≡ self.old.base }
    {
        let bulk = self.bulk_set(path, name, place, kind, bytes);
        if bulk > MOST_BULK {
            return Err(EditStop::Full);
        }
        if self.set_at(alloc, path, name, place, kind, bytes, bulk)? {
            return Ok(());
        }
        self.set_anew(alloc, path, name, kind, bytes)
    }

    /// Sets one value, where the one that is there does not hold its data itself, or is not to.
    fn set_judged(
        &mut self,
        alloc: Global,
        path: &Names,
        name: &[u16],
        kind: u32,
        bytes: &[u8],
    ) -> Result<(), EditStop>
        ensures made { Makes self.old.tree self.new.tree result (edited self.old.version self.old.tree (set_value path.now name.now kind bytes.now ∷ [])) }
        ensures refused { OnErr result (self.new ≡ self.old) }
        ensures version { self.new.version ≡ self.old.version }
        ensures cells { OnOk result (IsEditedInPlace self.old (set_value path.now name.now kind bytes.now ∷ []) self.new ⊎ IsPackedAnew self.new) }
        ensures room { OnOk result (IsEditedInPlace self.old (set_value path.now name.now kind bytes.now ∷ []) self.new
            ⊎ IsPackedForRoom self.old (set_value path.now name.now kind bytes.now ∷ []) self.new) }
        ensures parents { OnOk result (KeepsParents self.old self.new) }
        ensures freed { OnOk result (FreesData self.old path.now name.now self.new
            ⊎ IsPackedForRoom self.old (set_value path.now name.now kind bytes.now ∷ []) self.new) }
        ensures only_made { result ≡ Err Memory → (t : Tree) × (edited self.old.version self.old.tree (set_value path.now name.now kind bytes.now ∷ []) ≡ Ok t) }
        ensures base { self.new.base ≡ self.old.base }
    {
        match self.settable(path, name, bytes) {
            Err(stop) => Err(stop),
            Ok(place) => self.set_or_pack(alloc, path, name, place, kind, bytes),
        }
    }

    /// Writes twelve bytes of a value that holds its data itself, and is to hold these.
    fn write_inside(&mut self, path: &Names, name: &[u16], at: u32, kind: u32, bytes: &[u8])
        requires there { inside_place (cells_in self.old) path.now name.now self.old.root ≡ Some at }
        requires few { length bytes.now ≤ 4 }
        ensures stepped { IsStepped self.old (set_value path.now name.now kind bytes.now) self.new }
        ensures bulk { bulk_of self.old.version self.new.tree ≡ bulk_of self.old.version self.old.tree }
        ensures written { WritesFields at (value_fields (2147483648 + length bytes.now) (from_le_bytes w32 bytes.now) kind) self.old.bins self.new.bins }
        ensures base { self.new.base ≡ self.old.base }
    {
        let fields = inside_fields(kind, bytes);
        self.cells.patch(at, 4, &fields);
        are_bytes(&self.cells);
    }

    /// The same, and the node of the key records no less than the length of the data.
    fn set_inside(&mut self, path: &Names, name: &[u16], at: u32, kind: u32, bytes: &[u8])
        requires there { inside_place (cells_in self.old) path.now name.now self.old.root ≡ Some at }
        requires few { length bytes.now ≤ 4 }
        ensures stepped { IsToldStep self.old (set_value path.now name.now kind bytes.now) self.new }
        ensures bulk { bulk_of self.old.version self.new.tree ≡ bulk_of self.old.version self.old.tree }
        ensures written { WritesValue self.old path.now at (value_fields (2147483648 + length bytes.now) (from_le_bytes w32 bytes.now) kind)
            (length bytes.now) self.new }
        ensures base { self.new.base ≡ self.old.base }
    {
        self.stands();
        self.write_inside(path, name, at, kind, bytes);
        self.tell(path, VALUES, 0, bytes.len() as u32);
    }

    /// Gives the key that a path leads to a value: in place of the one that has the name, letters of either case
    /// taken for one, which keeps its own, or as the last. Where the value is there, twelve bytes of its cell are
    /// written, new cells take data of over four bytes, and the cells of the old data are freed; where these were in the
    /// value itself, and so are the new, no memory is wanted. For a value of a new name one run of cells takes the list
    /// with it, its own cell and those of its data, eight bytes of the key's node say so, and the old list is freed.
    /// Where the node recorded smaller greatest lengths of its values, it records these. What there is no room for repacks the
    /// tree. After an `Err` the hive is as before; that it is out of memory is reported only where the edit would be made.
    pub fn set_value(
        &mut self,
        alloc: Global,
        path: &Names,
        name: &[u16],
        kind: u32,
        bytes: &[u8],
    ) -> Result<(), EditStop>
        ensures made { Makes self.old.tree self.new.tree result (edited self.old.version self.old.tree (set_value path.now name.now kind bytes.now ∷ [])) }
        ensures refused { OnErr result (self.new ≡ self.old) }
        ensures version { self.new.version ≡ self.old.version }
        ensures cells { OnOk result (IsEditedInPlace self.old (set_value path.now name.now kind bytes.now ∷ []) self.new ⊎ IsPackedAnew self.new) }
        ensures room { OnOk result (IsEditedInPlace self.old (set_value path.now name.now kind bytes.now ∷ []) self.new
            ⊎ IsPackedForRoom self.old (set_value path.now name.now kind bytes.now ∷ []) self.new) }
        ensures parents { OnOk result (KeepsParents self.old self.new) }
        ensures freed { OnOk result (FreesData self.old path.now name.now self.new
            ⊎ IsPackedForRoom self.old (set_value path.now name.now kind bytes.now ∷ []) self.new) }
        ensures in_place { is_some (inside_place (cells_in self.old) path.now name.now self.old.root) ≡ true → length bytes.now ≤ 4
            → OnOk result (IsEditedInPlace self.old (set_value path.now name.now kind bytes.now ∷ []) self.new) }
        ensures twelve_bytes { (at : ℕ) → inside_place (cells_in self.old) path.now name.now self.old.root ≡ Some at → length bytes.now ≤ 4
            → OnOk result (WritesValue self.old path.now at (value_fields (2147483648 + length bytes.now) (from_le_bytes w32 bytes.now) kind) (length bytes.now) self.new) }
        ensures no_memory { is_some (inside_place (cells_in self.old) path.now name.now self.old.root) ≡ true → length bytes.now ≤ 4
            → IfErr result (λ stop. stop ≡ Full) }
        ensures only_made { result ≡ Err Memory → (t : Tree) × (edited self.old.version self.old.tree (set_value path.now name.now kind bytes.now ∷ []) ≡ Ok t) }
        ensures base { self.new.base ≡ self.old.base }
    {
        let size = bytes.len();
        if size > 4 {
            return self.set_judged(alloc, path, name, kind, bytes);
        }
        match self.inside_at(path, name) {
            None => self.set_judged(alloc, path, name, kind, bytes),
            Some(at) => {
                let bulk = self.bulk;
                if bulk > MOST_BULK {
                    return Err(EditStop::Full);
                }
                self.set_inside(path, name, at, kind, bytes);
                Ok(())
            }
        }
    }
}

/// The hive of a packed tree.
fn of_packed(alloc: Global, tree: &Key, version: HiveVersion) -> Result<HiveBytes, EditStop>
    requires valid { IsValid tree.now }
    requires room { bulk_of version tree.now ≤ most_bulk }
    ensures tree { IfOk result (λ h. h.tree ≡ tree.now) }
    ensures version { IfOk result (λ h. h.version ≡ version) }
    ensures anew { IfOk result IsPackedAnew }
    ensures memory { IfErr result (λ stop. stop ≡ Memory) }
{
    tree_fits(tree);
    let packed = pack(alloc, tree, version)?;
    let cells = match read_cells(alloc, packed) {
        Ok(cells) => cells,
        Err(ReadStop::Memory) => return Err(EditStop::Memory),
        Err(ReadStop::Fault(_)) => unreachable!(),
    };
    let heap = cells.opened(alloc)?;
    let bulk = tree.bulk(version);
    Ok(HiveBytes {
        cells: heap,
        root: ROOT,
        version,
        bulk,
    })
}

/// The offset of a value again, where it holds its data itself.
fn if_inside(cells: &Source, at: u32) -> Option<u32>
    requires { IsItemHere (cells_of cells.now) at }
    ensures { result ≡ if_inside (cells_of cells.now) at }
{
    let value = payload(cells, at);
    let size = u32_at(value, 4);
    if size >= 0x8000_0000 {
        return Some(at);
    }
    if size == 0 {
        return Some(at);
    }
    None
}
