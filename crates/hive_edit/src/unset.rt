//! A value taken out of the cells of its key. Nothing here wants memory or room.

ghost use Rattle.std.specs.Prelude.{◌≡◌, ◌≤◌, ◌<◌, ◌+◌, ◌-◌, ◌*◌, ◌∷◌, [], ℕ, List, length, slice_range, Some, Ok, IfOk, IfErr, OnOk, OnErr, Err, MatchBool, MatchResult};
ghost use Rattle.std.specs.Option.{IsSomeAnd};
ghost use Rattle.std.specs.Result.{IsOk};
ghost use Rattle.nt_bytes.specs.Fields.{u32_in};
ghost use Rattle.hive_model.specs.Bins.{bins_size, look_up};
ghost use Rattle.hive_model.specs.Edit.{edited, delete_value, after_step};
ghost use Rattle.hive_model.specs.Size.{bulk_of};
ghost use Rattle.hive_model.specs.KeyNode.{KeyNode, key_node_at};
ghost use Rattle.hive_model.specs.Walk.{reading, value_checks};
ghost use Rattle.hive_model.specs.Footprint.{key_place, used_in};
ghost use Rattle.hive_cells.specs.Held.{held_at};
ghost use Rattle.edited_cells.specs.Owned.{In};
ghost use Rattle.edited_cells.specs.Written.{two_numbers};
ghost use Rattle.reg_tree.specs.Makes.{IsRefused, Makes};
ghost use Rattle.reg_tree.specs.declared.stop.EditStop.TheVariants.{Full, Memory, NoKey, NoValue};
ghost use Rattle.hive_edit.specs.Edits.{IsEditedInPlace, KeepsParents};
ghost use Rattle.hive_edit.specs.Freed.{FreesValue};
ghost use Rattle.hive_edit.specs.Gone.{AreGone, CanGo, CanTake, ClosesGap, HasData, HasOffsets, HasSegments, TakesOut, Unlists, data_cells, list_room, unset_tree};
ghost use Rattle.hive_edit.specs.Hive.{cells_in};
ghost use Rattle.hive_look.specs.Places.{IsItemHere, value_place};
ghost use Rattle.hive_edit.specs.Stepped.{IsStepped, LacksStepRoom};

use crate::cells::are_bytes;
use crate::hive::HiveBytes;
use hive_cells::{OpenHeap, Source};
use hive_look::{cell_len, key_at, value_at, value_len};
use hive_pack::{NOWHERE, is_big};
use key_index::{bins_fit, payload};
use nt_bytes::{HiveVersion, Names, put_u32, u16_at, u32_at};
use reg_tree::{EditStop, MOST_BULK};

// ---- lists of offsets

/// A number of four bytes in the payload of a cell, each number after the one before.
fn number_in(heap: &OpenHeap, at: u32, place: u32) -> u32
    requires { IsSomeAnd (held_at heap.now.bins at) (λ p. 4 * place + 4 ≤ length p) }
    ensures { (p : List ℕ) → held_at heap.now.bins at ≡ Some p → result ≡ u32_in p (4 * place) }
{
    match heap.payload(at) {
        Ok(bytes) => u32_at(bytes, 4 * place as usize),
        Err(_) => unreachable!(),
    }
}

/// Frees the cells that a list of that many offsets names, then the list.
fn free_listed(heap: &mut OpenHeap, list: u32, count: u32)
    requires { (offsets : List ℕ) × HasOffsets heap.old.bins list count offsets × CanGo heap.old.bins (list ∷ offsets) }
    ensures gone { (offsets : List ℕ) → HasOffsets heap.old.bins list count offsets → AreGone (list ∷ offsets) heap.old.bins heap.new.bins }
    ensures base { heap.new.base ≡ heap.old.base }
{
    for place in 0..count {
        let at = number_in(heap, list, place);
        heap.free(at);
    }
    heap.free(list);
}

/// Fills these bytes with what is in the payload of a cell from a byte of it on.
fn copy_part(heap: &OpenHeap, at: u32, from: usize, into: &mut [u8])
    requires { IsSomeAnd (held_at heap.now.bins at) (λ p. from + length into.old ≤ length p) }
    ensures long { length into.new ≡ length into.old }
    ensures read { (p : List ℕ) → held_at heap.now.bins at ≡ Some p → into.new ≡ slice_range p from (from + length into.old) }
{
    match heap.payload(at) {
        Ok(bytes) => {
            let part = &bytes[from..from + into.len()];
            into.copy_from_slice(part);
        }
        Err(_) => unreachable!(),
    }
}

/// Moves that many numbers of a list, at most 1024, down by one, over the one at this place.
fn move_down(heap: &mut OpenHeap, list: u32, place: u32, numbers: u32)
    requires few { numbers ≤ 1024 }
    requires low { place ≤ 4194304 }
    requires long { IsSomeAnd (held_at heap.old.bins list) (λ p. 4 * (place + 1) + 4 * numbers ≤ length p) }
    ensures closed { ClosesGap place (place + numbers) list heap.old.bins heap.new.bins }
    ensures base { heap.new.base ≡ heap.old.base }
{
    let mut room = [0; 4096];
    let part = &mut room[..4 * numbers as usize];
    copy_part(heap, list, 4 * (place as usize + 1), part);
    heap.patch(list, 4 * place, part);
}

/// Moves the numbers of a list after a place down by one, over the one that is there.
fn close_gap(heap: &mut OpenHeap, list: u32, from: u32, count: u32)
    requires some { from < count }
    requires few { count ≤ 4194304 }
    requires long { IsSomeAnd (held_at heap.old.bins list) (λ p. 4 * count ≤ length p) }
    ensures closed { ClosesGap from (count - 1) list heap.old.bins heap.new.bins }
    ensures base { heap.new.base ≡ heap.old.base }
{
    let mut place = from;
    'parts: while place < count - 1 {
        let numbers = (count - 1 - place).min(1024);
        move_down(heap, list, place, numbers);
        place += numbers;
    }
}

/// The place of an offset in a list of that many.
fn place_of(heap: &OpenHeap, list: u32, count: u32, offset: u32) -> u32
    requires { (offsets : List ℕ) × HasOffsets heap.now.bins list count offsets × In offsets offset }
    ensures within { result < count }
    ensures here { (p : List ℕ) → held_at heap.now.bins list ≡ Some p → u32_in p (4 * result) ≡ offset }
{
    for place in 0..count {
        if number_in(heap, list, place) == offset {
            return place;
        }
    }
    unreachable!()
}

// ---- the cells of a value

/// Where the list of the segments of big data is, and how many it names.
fn segments_of(heap: &OpenHeap, place: u32) -> (u32, u32)
    requires { (list : ℕ) × (offsets : List ℕ) × HasSegments heap.now.bins place list offsets }
    ensures { (list : ℕ) (offsets : List ℕ) → HasSegments heap.now.bins place list offsets → (result.0 ≡ list) × HasOffsets heap.now.bins list result.1 offsets }
{
    match heap.payload(place) {
        Ok(bytes) => {
            let list = u32_at(bytes, 4);
            let count = u32::from(u16_at(bytes, 2));
            (list, count)
        }
        Err(_) => unreachable!(),
    }
}

/// Frees the cells of big data: each segment, their list, and the cell that names the list.
fn free_big(heap: &mut OpenHeap, place: u32)
    requires { (list : ℕ) × (offsets : List ℕ) × HasSegments heap.old.bins place list offsets × CanGo heap.old.bins (place ∷ list ∷ offsets) }
    ensures gone { (list : ℕ) (offsets : List ℕ) → HasSegments heap.old.bins place list offsets → AreGone (place ∷ list ∷ offsets) heap.old.bins heap.new.bins }
    ensures base { heap.new.base ≡ heap.old.base }
{
    let (list, count) = segments_of(heap, place);
    free_listed(heap, list, count);
    heap.free(place);
}

/// Frees the cells of that many data, where they have any.
fn free_data(heap: &mut OpenHeap, version: HiveVersion, size: u32, place: u32)
    requires data { HasData (look_up version heap.old.bins) size place }
    requires can { CanGo heap.old.bins (data_cells (look_up version heap.old.bins) size place) }
    ensures gone { AreGone (data_cells (look_up version heap.old.bins) size place) heap.old.bins heap.new.bins }
    ensures base { heap.new.base ≡ heap.old.base }
{
    if size >= 0x8000_0000 {
        return;
    }
    if size == 0 {
        return;
    }
    if is_big(version, size as usize) {
        free_big(heap, place);
    } else {
        heap.free(place);
    }
}

/// Where the data of a value are, and how many.
fn data_at(heap: &OpenHeap, version: HiveVersion, at: u32) -> (u32, u32)
    requires { IsItemHere (look_up version heap.now.bins) at }
    ensures data { HasData (look_up version heap.now.bins) result.0 result.1 }
    ensures cells { used_in (value_checks (look_up version heap.now.bins) [] at) ≡ at ∷ data_cells (look_up version heap.now.bins) result.0 result.1 }
{
    let source = Source {
        heap: heap.cells(),
        version,
    };
    let value = payload(&source, at);
    let size = u32_at(value, 4);
    let place = u32_at(value, 8);
    (size, place)
}

/// Frees the cells of a value: those of its data, and its own.
pub(crate) fn free_value(heap: &mut OpenHeap, version: HiveVersion, at: u32)
    requires item { IsItemHere (look_up version heap.old.bins) at }
    requires can { CanGo heap.old.bins (used_in (value_checks (look_up version heap.old.bins) [] at)) }
    ensures gone { AreGone (used_in (value_checks (look_up version heap.old.bins) [] at)) heap.old.bins heap.new.bins }
    ensures base { heap.new.base ≡ heap.old.base }
{
    let (size, place) = data_at(heap, version, at);
    free_data(heap, version, size, place);
    heap.free(at);
}

// ---- a value of a key

/// Takes an offset out of a list of that many. The list goes where it names no other. Answers where it is then.
fn unlist(heap: &mut OpenHeap, list: u32, count: u32, offset: u32) -> u32
    requires { (offsets : List ℕ) × HasOffsets heap.old.bins list count offsets × In offsets offset }
    ensures unlisted { (offsets : List ℕ) → HasOffsets heap.old.bins list count offsets → Unlists heap.old.bins heap.new.bins list result offsets offset }
    ensures base { heap.new.base ≡ heap.old.base }
{
    if count == 1 {
        heap.free(list);
        return NOWHERE;
    }
    bins_fit(heap);
    let place = place_of(heap, list, count, offset);
    close_gap(heap, list, place, count);
    list
}

/// How many values a key has, and where their list is.
pub(crate) fn values_of(heap: &OpenHeap, version: HiveVersion, key: u32) -> (u32, u32)
    requires { IsOk (reading key_node_at (look_up version heap.now.bins) key) }
    ensures { (n : KeyNode) → reading key_node_at (look_up version heap.now.bins) key ≡ Ok n → (result.0 ≡ n.value_count) × (result.1 ≡ n.value_list) }
{
    let source = Source {
        heap: heap.cells(),
        version,
    };
    let node = payload(&source, key);
    (u32_at(node, 36), u32_at(node, 40))
}

/// Two numbers as the bytes of two fields.
pub(crate) fn two_fields(a: u32, b: u32) -> [u8; 8]
    ensures { result ≡ two_numbers a b }
{
    let mut fields = [0; 8];
    put_u32(&mut fields, 0, a);
    put_u32(&mut fields, 4, b);
    fields
}

/// Takes a value out of a key: its cells are freed, the list names the others, and the node counts them.
fn take_out(heap: &mut OpenHeap, version: HiveVersion, key: u32, value: u32)
    requires { CanTake (look_up version heap.old.bins) heap.old.bins key value }
    ensures taken { TakesOut version heap.old.bins heap.new.bins key value }
    ensures base { heap.new.base ≡ heap.old.base }
{
    let (count, list) = values_of(heap, version, key);
    free_value(heap, version, value);
    let now = unlist(heap, list, count, value);
    let fields = two_fields(count - 1, now);
    heap.patch(key, 36, &fields);
}

// ---- the hive

/// The cell of a value list of that many; none for none.
pub(crate) fn list_len(count: u32) -> u64
    ensures { result ≡ list_room count }
{
    if count == 0 {
        0
    } else {
        cell_len(4 * u64::from(count))
    }
}

impl HiveBytes {
    /// Where a key and a value of it are, or why they are not.
    fn named(&self, path: &Names, name: &[u16]) -> Result<(u32, u32), EditStop>
        ensures key { IfOk result (λ r. key_place (cells_in self.now) path.now self.now.root ≡ Some r.0) }
        ensures value { IfOk result (λ r. value_place (cells_in self.now) name.now r.0 ≡ Some r.1) }
        ensures refused { IfErr result (λ stop. IsRefused (after_step (delete_value path.now name.now) self.now.tree) stop) }
        ensures no_memory { IfErr result (λ stop. stop ≡ Memory → ⊥) }
    {
        let source = Source {
            heap: self.cells.cells(),
            version: self.version,
        };
        match key_at(&source, self.root, path) {
            None => Err(EditStop::NoKey),
            Some(key) => match value_at(&source, key, name) {
                None => Err(EditStop::NoValue),
                Some(value) => Ok((key, value)),
            },
        }
    }

    /// The bulk without a value of a key.
    fn bulk_without(&self, path: &Names, name: &[u16], key: u32, value: u32) -> u64
        requires key { key_place (cells_in self.now) path.now self.now.root ≡ Some key }
        requires value { value_place (cells_in self.now) name.now key ≡ Some value }
        ensures bulk { result ≡ bulk_of self.now.version (unset_tree path.now name.now self.now.tree) }
        ensures step { after_step (delete_value path.now name.now) self.now.tree ≡ Ok (unset_tree path.now name.now self.now.tree) }
    {
        bins_fit(&self.cells);
        let source = Source {
            heap: self.cells.cells(),
            version: self.version,
        };
        let (count, _list) = values_of(&self.cells, self.version, key);
        let own = value_len(&source, value);
        let less = (own + list_len(count)) - list_len(count - 1);
        self.bulk - less
    }

    /// Deletes the value that is there, whatever the bulk then, which is reported.
    fn take_named(&mut self, path: &Names, name: &[u16], key: u32, value: u32, bulk: u64)
        requires key { key_place (cells_in self.old) path.now self.old.root ≡ Some key }
        requires value { value_place (cells_in self.old) name.now key ≡ Some value }
        requires bulk { bulk ≡ bulk_of self.old.version (unset_tree path.now name.now self.old.tree) }
        ensures stepped { IsStepped self.old (delete_value path.now name.now) self.new }
        ensures freed { FreesValue self.old path.now name.now self.new }
        ensures bulk { bulk ≡ bulk_of self.old.version self.new.tree }
        ensures long { bins_size self.new.bins ≡ bins_size self.old.bins }
        ensures base { self.new.base ≡ self.old.base }
    {
        take_out(&mut self.cells, self.version, key, value);
        self.bulk = bulk;
        are_bytes(&self.cells);
    }

    /// Deletes the value that is there.
    fn unset(&mut self, path: &Names, name: &[u16], key: u32, value: u32) -> Result<(), EditStop>
        requires key { key_place (cells_in self.old) path.now self.old.root ≡ Some key }
        requires value { value_place (cells_in self.old) name.now key ≡ Some value }
        ensures made { Makes self.old.tree self.new.tree result (edited self.old.version self.old.tree (delete_value path.now name.now ∷ [])) }
        ensures refused { OnErr result (self.new ≡ self.old) }
        ensures version { self.new.version ≡ self.old.version }
        ensures done { OnOk result (IsEditedInPlace self.old (delete_value path.now name.now ∷ []) self.new) }
        ensures parents { OnOk result (KeepsParents self.old self.new) }
        ensures freed { OnOk result (FreesValue self.old path.now name.now self.new) }
        ensures long { bins_size self.new.bins ≡ bins_size self.old.bins }
        ensures no_memory { IfErr result (λ stop. stop ≡ Memory → ⊥) }
        ensures base { self.new.base ≡ self.old.base }
    {
        let bulk = self.bulk_without(path, name, key, value);
        if bulk > MOST_BULK {
            return Err(EditStop::Full);
        }
        self.take_named(path, name, key, value, bulk);
        Ok(())
    }

    /// Deletes a value of the key that a path leads to, by its name, letters of either case taken for one. Its
    /// cells are freed, and the list closes over its place where it stands, or is freed with it. So it wants no
    /// memory and no room. After an `Err` the hive is as before.
    pub fn delete_value(&mut self, path: &Names, name: &[u16]) -> Result<(), EditStop>
        ensures made { Makes self.old.tree self.new.tree result (edited self.old.version self.old.tree (delete_value path.now name.now ∷ [])) }
        ensures refused { OnErr result (self.new ≡ self.old) }
        ensures version { self.new.version ≡ self.old.version }
        ensures done { OnOk result (IsEditedInPlace self.old (delete_value path.now name.now ∷ []) self.new) }
        ensures parents { OnOk result (KeepsParents self.old self.new) }
        ensures freed { OnOk result (FreesValue self.old path.now name.now self.new) }
        ensures long { bins_size self.new.bins ≡ bins_size self.old.bins }
        ensures no_memory { IfErr result (λ stop. stop ≡ Memory → ⊥) }
        ensures base { self.new.base ≡ self.old.base }
    {
        match self.named(path, name) {
            Ok((key, value)) => self.unset(path, name, key, value),
            Err(stop) => Err(stop),
        }
    }

    /// Deletes a value of the key that a path leads to, whatever the bulk of the tree then.
    pub(crate) fn delete_value_step(&mut self, path: &Names, name: &[u16]) -> Result<bool, EditStop>
        ensures made { MatchResult result
            (λ done. MatchBool done (IsStepped self.old (delete_value path.now name.now) self.new) (LacksStepRoom self.old (delete_value path.now name.now)))
            (IsRefused (after_step (delete_value path.now name.now) self.old.tree)) }
        ensures base { self.new.base ≡ self.old.base }
        ensures grown { bins_size self.old.bins ≤ bins_size self.new.bins }
    {
        match self.named(path, name) {
            Ok((key, value)) => {
                let bulk = self.bulk_without(path, name, key, value);
                self.take_named(path, name, key, value, bulk);
                Ok(true)
            }
            Err(stop) => Err(stop),
        }
    }
}
