//! A value of a new name, put after the others of its key: one run of the list with it, its cell and those of its data.

ghost use Rattle.std.specs.Prelude.{◌≡◌, ◌≤◌, ◌<◌, ◌+◌, ◌-◌, ◌*◌, ◌++◌, ◌∷◌, [], ℕ, List, suc, true, false, nat_lt, if◌then◌else◌, length, take, None, Some, Ok, IfOk, IfErr, OnErr, OnOk, MatchBool, MatchResult};
ghost use Rattle.std.specs.Option.{IsSome, IsSomeAnd};
ghost use Rattle.hive_model.specs.Limits.{most_bins};
ghost use Rattle.hive_model.specs.Bins.{bins_size, look_up};
ghost use Rattle.std.specs.Int.{w32, from_le_bytes};
ghost use lib.ListN.{replicate};
ghost use Rattle.hive_model.specs.Edit.{set_value, after_step};
ghost use Rattle.hive_model.specs.Size.{cell, cells_sum, data_sizes, bulk_of, item_size, name_bytes};
ghost use Rattle.hive_model.specs.KeyNode.{KeyNode, key_node_at};
ghost use Rattle.hive_model.specs.KeyValue.{key_value_text};
ghost use Rattle.hive_model.specs.Lists.{AreOffsets, numbers_in, offsets_text};
ghost use Rattle.hive_model.specs.Packed.{item_cells, item_form, text};
ghost use Rattle.hive_model.specs.Walk.{reading};
ghost use Rattle.cell_forms.specs.Views.{key_value_of};
ghost use Rattle.hive_cells.specs.Held.{held_at, IsRun};
ghost use Rattle.edited_cells.specs.Done.{item};
ghost use Rattle.reg_tree.specs.Makes.{IsRefused};
ghost use Rattle.hive_edit.specs.Freed.{FreesData};
ghost use Rattle.hive_edit.specs.NewValue.{added_cells, added_size, CanAdd, IsNewIn, IsRelistedAt, LacksRoomForValue, ListsThese, MaySet, PutsValue, set_tree};
ghost use Rattle.hive_edit.specs.Runs.{IsPlace};
ghost use Rattle.hive_edit.specs.Stepped.{LacksStepRoom};
ghost use Rattle.hive_edit.specs.Tells.{IsToldStep};
ghost use Rattle.hive_model.specs.Valid.{longest_data, longest_value_name};

use crate::cells::{are_bytes, place_for, put_run};
use crate::give::own_number;
use crate::hive::HiveBytes;
use crate::telling::{VALUES, wide_len};
use crate::unset::{list_len, two_fields, values_of};
use cell_forms::{VkForm, vk_bytes};
use hive_cells::{MOST_BINS, OpenHeap, Source};
use hive_look::{cell_len, data_len, key_at, value_at};
use hive_pack::{cell_size, is_narrow, name_len, put_cell, write_data};
use key_index::bins_fit;
use nt_bytes::{Bytes, HiveVersion, Names, Units};
use reg_tree::{EditStop, LONGEST_DATA, LONGEST_VALUE_NAME};
use std::alloc::{AllocError, Global};

// ---- the run

/// The bytes of the value list of that many; none where there is none.
fn list_bytes(heap: &OpenHeap, list: u32, count: u32) -> &[u8]
    requires { (offsets : List ℕ) × ListsThese heap.now.bins list count offsets }
    ensures long { 4 * count ≤ length result.now }
    ensures offsets { (offsets : List ℕ) → ListsThese heap.now.bins list count offsets → numbers_in 4 count result.now ≡ offsets }
{
    if count == 0 {
        return &[];
    }
    match heap.payload(list) {
        Ok(bytes) => bytes,
        Err(_) => unreachable!(),
    }
}

/// The offsets of a list fit their fields.
fn offsets_fit(list: &[u8], count: u32)
    requires { 4 * count ≤ length list.now }
    ensures { AreOffsets (numbers_in 4 count list.now) }
{}

/// The first that many bytes.
fn first_bytes(bytes: &[u8], end: usize) -> &[u8]
    requires { end ≤ length bytes.now }
    ensures { result.now ≡ take end bytes.now }
{
    &bytes[..end]
}

/// The offsets of a list of that many, and one more after them.
fn longer_list(alloc: Global, list: &[u8], count: u32, more: u32) -> Result<Bytes, AllocError>
    requires few { count ≤ 4194304 }
    requires long { 4 * count ≤ length list.now }
    ensures { IfOk result (λ b. b ≡ offsets_text (numbers_in 4 count list.now ++ more ∷ [])) }
{
    let first = first_bytes(list, 4 * count as usize);
    let mut offsets = Bytes::from_slice(alloc, first)?;
    offsets.put_u32(more)?;
    Ok(offsets)
}

/// The size field of a value with these data.
fn size_field(bytes: &[u8]) -> u32
    requires { length bytes.now ≤ longest_data }
    ensures { result ≡ (if nat_lt 4 (length bytes.now) then length bytes.now else 2147483648 + length bytes.now) }
{
    let size = bytes.len() as u32;
    if size > 4 { size } else { 0x8000_0000 + size }
}

/// The offset field of a value with these data, which stand here where they are over four bytes.
fn offset_field(at: u32, bytes: &[u8]) -> u32
    ensures { result ≡ (if nat_lt 4 (length bytes.now) then at else from_le_bytes w32 (bytes.now ++ replicate (4 - length bytes.now) 0)) }
{
    if bytes.len() > 4 {
        at
    } else {
        own_number(bytes)
    }
}

/// What the cell of a value says that stands here.
fn value_form(
    alloc: Global,
    at: u32,
    name: &[u16],
    kind: u32,
    bytes: &[u8],
) -> Result<VkForm, AllocError>
    requires place { at ≤ most_bins }
    requires short { length name.now ≤ longest_value_name }
    requires few { length bytes.now ≤ longest_data }
    ensures { IfOk result (λ f. key_value_of f ≡ item_form at (item name.now kind bytes.now)) }
{
    let data = at + cell_size(20 + name_len(name)) as u32;
    Ok(VkForm {
        size: size_field(bytes),
        offset: offset_field(data, bytes),
        kind,
        flags: if is_narrow(name) { 1 } else { 0 },
        name: Units::from_slice(alloc, name)?,
    })
}

/// The payload of the cell of a value that stands here.
fn value_bytes(
    alloc: Global,
    at: u32,
    name: &[u16],
    kind: u32,
    bytes: &[u8],
) -> Result<Bytes, AllocError>
    requires place { at ≤ most_bins }
    requires short { length name.now ≤ longest_value_name }
    requires few { length bytes.now ≤ longest_data }
    ensures { IfOk result (λ b. b ≡ key_value_text (item_form at (item name.now kind bytes.now))) }
{
    let form = value_form(alloc, at, name, kind, bytes)?;
    vk_bytes(alloc, &form)
}

/// Writes the cell of a value that stands here, and those of its data.
fn write_value(
    alloc: Global,
    out: &mut Bytes,
    version: HiveVersion,
    at: u32,
    name: &[u16],
    kind: u32,
    bytes: &[u8],
) -> Result<(), AllocError>
    requires room { at + item_size version (item name.now kind bytes.now) ≤ most_bins }
    requires short { length name.now ≤ longest_value_name }
    requires few { length bytes.now ≤ longest_data }
    ensures { OnOk result (out.new ≡ out.old ++ text (item_cells version at (item name.now kind bytes.now))) }
{
    let value = value_bytes(alloc, at, name, kind, bytes)?;
    put_cell(out, value.as_slice())?;
    let data = at as usize + cell_size(20 + name_len(name));
    write_data(alloc, out, version, data, bytes)
}

/// The run of a value that is put after that many others, to be at a place.
fn added_run(
    alloc: Global,
    old: &[u8],
    version: HiveVersion,
    count: u32,
    place: u32,
    name: &[u16],
    kind: u32,
    bytes: &[u8],
) -> Result<Bytes, AllocError>
    requires list { 4 * count ≤ length old.now }
    requires room { place + added_size version count (item name.now kind bytes.now) ≤ most_bins }
    requires short { length name.now ≤ longest_value_name }
    requires few { length bytes.now ≤ longest_data }
    ensures { IfOk result (λ b. b ≡ text (added_cells version place (numbers_in 4 count old.now) (item name.now kind bytes.now))) }
{
    let mut run = Bytes::new(alloc);
    write_value(alloc, &mut run, version, place, name, kind, bytes)?;
    let offsets = longer_list(alloc, old, count, place)?;
    put_cell(&mut run, offsets.as_slice())?;
    Ok(run)
}

/// How many bytes the run takes.
fn added_len(version: HiveVersion, count: u32, name: &[u16], size: u32) -> u64
    requires { length name.now ≤ longest_value_name }
    ensures exact { result ≡ cell (4 * suc count) + (cell (20 + name_bytes name.now) + cells_sum (data_sizes version size)) }
    ensures few { result ≤ 68719476736 }
{
    let list = cell_len(4 * (u64::from(count) + 1));
    list + (cell_len(20 + name_len(name) as u64) + data_len(version, size))
}

// ---- the cells

/// Frees the value list of that many, if there is one.
fn free_list(heap: &mut OpenHeap, list: u32, count: u32)
    requires { (count ≡ 0 → ⊥) → IsSome (held_at heap.old.bins list) }
    ensures freed { (count ≡ 0 → ⊥) → held_at heap.new.bins list ≡ None }
    ensures others { (o : ℕ) → ((count ≡ 0 → ⊥) → o ≡ list → ⊥) → held_at heap.new.bins o ≡ held_at heap.old.bins o }
    ensures long { bins_size heap.new.bins ≡ bins_size heap.old.bins }
    ensures base { heap.new.base ≡ heap.old.base }
{
    if count > 0 {
        heap.free(list);
    }
}

/// Puts a run at a place in which a key's longer value list is at an offset; the key's node says so, and the old list is freed.
fn relist(
    heap: &mut OpenHeap,
    key: u32,
    list: u32,
    count: u32,
    place: u32,
    at: u32,
    run: &[u8],
) -> Result<(), AllocError>
    requires few { count ≤ 4194304 }
    requires place { IsPlace (length run.now) heap.old.bins place }
    requires run { IsRun run.now }
    requires node { IsSomeAnd (held_at heap.old.bins key) (λ p. 76 ≤ length p) }
    requires list { (count ≡ 0 → ⊥) → IsSome (held_at heap.old.bins list) }
    requires apart { (count ≡ 0 → ⊥) → list ≡ key → ⊥ }
    ensures put { OnOk result (IsRelistedAt key list count place at run.now heap.old.bins heap.new.bins) }
    ensures refused { OnErr result (heap.new ≡ heap.old) }
    ensures base { heap.new.base ≡ heap.old.base }
{
    put_run(heap, place, run)?;
    let fields = two_fields(count + 1, at);
    heap.patch(key, 36, &fields);
    free_list(heap, list, count);
    Ok(())
}

/// Puts a value after the others of a key at a place that has room for its run.
fn add_at(
    alloc: Global,
    heap: &mut OpenHeap,
    version: HiveVersion,
    key: u32,
    place: u32,
    name: &[u16],
    kind: u32,
    bytes: &[u8],
) -> Result<(), AllocError>
    requires can { CanAdd (look_up version heap.old.bins) heap.old.bins key }
    requires place { (n : KeyNode) → reading key_node_at (look_up version heap.old.bins) key ≡ Ok n
        → IsPlace (added_size version n.value_count (item name.now kind bytes.now)) heap.old.bins place }
    requires short { length name.now ≤ longest_value_name }
    requires few { length bytes.now ≤ longest_data }
    ensures put { OnOk result (PutsValue version heap.old.bins heap.new.bins key (item name.now kind bytes.now)) }
    ensures refused { OnErr result (heap.new ≡ heap.old) }
    ensures base { heap.new.base ≡ heap.old.base }
{
    bins_fit(heap);
    let (count, list) = values_of(heap, version, key);
    let old = list_bytes(heap, list, count);
    offsets_fit(old, count);
    let run = added_run(alloc, old, version, count, place, name, kind, bytes)?;
    let at = place + (run.len() - cell_size(4 * (count as usize + 1))) as u32;
    relist(heap, key, list, count, place, at, run.as_slice())
}

/// Puts a value after the others of a key. `false` where there is no room for its run; the heap is as it was then, and
/// where there is no memory.
fn add_value(
    alloc: Global,
    heap: &mut OpenHeap,
    version: HiveVersion,
    key: u32,
    name: &[u16],
    kind: u32,
    bytes: &[u8],
) -> Result<bool, AllocError>
    requires can { CanAdd (look_up version heap.old.bins) heap.old.bins key }
    requires short { length name.now ≤ longest_value_name }
    requires few { length bytes.now ≤ longest_data }
    ensures put { IfOk result (λ done. MatchBool done (PutsValue version heap.old.bins heap.new.bins key (item name.now kind bytes.now))
        (LacksRoomForValue version heap.old.bins key (item name.now kind bytes.now) × (heap.new ≡ heap.old))) }
    ensures refused { OnErr result (heap.new ≡ heap.old) }
    ensures base { heap.new.base ≡ heap.old.base }
{
    let (count, _list) = values_of(heap, version, key);
    let size = added_len(version, count, name, bytes.len() as u32);
    if size > MOST_BINS {
        return Ok(false);
    }
    match place_for(heap, size as u32) {
        None => Ok(false),
        Some(place) => {
            add_at(alloc, heap, version, key, place, name, kind, bytes)?;
            Ok(true)
        }
    }
}

// ---- the hive

/// Where a value is to be set: the key that gets it, and the value of the name that it has, if there is one.
#[derive(Clone, Copy)]
pub(crate) struct ValuePlace {
    pub(crate) key: u32,
    pub(crate) value: Option<u32>,
}

impl HiveBytes {
    /// The bulk with a value of a new name in a key.
    fn bulk_with(&self, path: &Names, name: &[u16], key: u32, kind: u32, bytes: &[u8]) -> u64
        requires new { IsNewIn self.now path.now name.now key }
        requires few { length bytes.now ≤ longest_data }
        ensures bulk { result ≡ bulk_of self.now.version (set_tree path.now name.now kind bytes.now self.now.tree) }
        ensures step { after_step (set_value path.now name.now kind bytes.now) self.now.tree ≡ Ok (set_tree path.now name.now kind bytes.now self.now.tree) }
    {
        bins_fit(&self.cells);
        let (count, _list) = values_of(&self.cells, self.version, key);
        let more = added_len(self.version, count, name, bytes.len() as u32);
        self.bulk + more - list_len(count)
    }

    /// Puts a value of a new name into a key, whatever the bulk then, which is reported; the key's node records no less than the
    /// lengths of the name and of the data. `false` where there is no room for it; the hive is as before then, and where
    /// there is no memory.
    fn put_new(
        &mut self,
        alloc: Global,
        path: &Names,
        name: &[u16],
        key: u32,
        kind: u32,
        bytes: &[u8],
        bulk: u64,
    ) -> Result<bool, AllocError>
        requires new { IsNewIn self.old path.now name.now key }
        requires few { length bytes.now ≤ longest_data }
        requires bulk { bulk ≡ bulk_of self.old.version (set_tree path.now name.now kind bytes.now self.old.tree) }
        ensures stepped { IfOk result (λ done. MatchBool done (IsToldStep self.old (set_value path.now name.now kind bytes.now) self.new)
            (LacksStepRoom self.old (set_value path.now name.now kind bytes.now))) }
        ensures kept { result ≡ Ok false → self.new ≡ self.old }
        ensures bulk { result ≡ Ok true → bulk ≡ bulk_of self.old.version self.new.tree }
        ensures refused { OnErr result (self.new ≡ self.old) }
        ensures base { self.new.base ≡ self.old.base }
    {
        self.stands();
        let version = self.version;
        if add_value(alloc, &mut self.cells, version, key, name, kind, bytes)? {
            self.bulk = bulk;
            are_bytes(&self.cells);
            let wide = wide_len(name);
            self.tell(path, VALUES, wide, bytes.len() as u32);
            return Ok(true);
        }
        Ok(false)
    }

    /// Where a value is to be set, or why it is refused: that there is no key, or that the name or the data are too long.
    pub(crate) fn settable(
        &self,
        path: &Names,
        name: &[u16],
        bytes: &[u8],
    ) -> Result<ValuePlace, EditStop>
        ensures may { IfOk result (MaySet self.now path.now name.now bytes.now) }
        ensures refused { IfErr result (λ stop. (kind : ℕ) → IsRefused (after_step (set_value path.now name.now kind bytes.now) self.now.tree) stop) }
        ensures no_memory { IfErr result (λ stop. stop ≡ EditStop.Memory → ⊥) }
    {
        let source = Source {
            heap: self.cells.cells(),
            version: self.version,
        };
        match key_at(&source, self.root, path) {
            None => Err(EditStop::NoKey),
            Some(key) => {
                if name.len() > LONGEST_VALUE_NAME {
                    return Err(EditStop::NameTooLong);
                }
                if bytes.len() > LONGEST_DATA {
                    return Err(EditStop::DataTooLong);
                }
                let value = value_at(&source, key, name);
                Ok(ValuePlace { key, value })
            }
        }
    }

    /// The bulk of the tree with the value.
    pub(crate) fn bulk_set(
        &self,
        path: &Names,
        name: &[u16],
        place: ValuePlace,
        kind: u32,
        bytes: &[u8],
    ) -> u64
        requires may { MaySet self.now path.now name.now bytes.now place }
        ensures bulk { result ≡ bulk_of self.now.version (set_tree path.now name.now kind bytes.now self.now.tree) }
        ensures step { after_step (set_value path.now name.now kind bytes.now) self.now.tree ≡ Ok (set_tree path.now name.now kind bytes.now self.now.tree) }
    {
        match place.value {
            None => self.bulk_with(path, name, place.key, kind, bytes),
            Some(at) => self.bulk_given(path, name, at, kind, bytes),
        }
    }

    /// Sets a value in place, where this is the bulk with it. `false` where there is no room for it; the hive is as before
    /// then, and where there is no memory.
    pub(crate) fn set_at(
        &mut self,
        alloc: Global,
        path: &Names,
        name: &[u16],
        place: ValuePlace,
        kind: u32,
        bytes: &[u8],
        bulk: u64,
    ) -> Result<bool, AllocError>
        requires may { MaySet self.old path.now name.now bytes.now place }
        requires bulk { bulk ≡ bulk_of self.old.version (set_tree path.now name.now kind bytes.now self.old.tree) }
        ensures stepped { IfOk result (λ done. MatchBool done (IsToldStep self.old (set_value path.now name.now kind bytes.now) self.new)
            (LacksStepRoom self.old (set_value path.now name.now kind bytes.now))) }
        ensures kept { result ≡ Ok false → self.new ≡ self.old }
        ensures freed { result ≡ Ok true → FreesData self.old path.now name.now self.new }
        ensures bulk { result ≡ Ok true → bulk ≡ bulk_of self.old.version self.new.tree }
        ensures refused { OnErr result (self.new ≡ self.old) }
        ensures base { self.new.base ≡ self.old.base }
    {
        match place.value {
            None => self.put_new(alloc, path, name, place.key, kind, bytes, bulk),
            Some(at) => self.give_there(alloc, path, name, at, kind, bytes, bulk),
        }
    }

    /// Gives the key that a path leads to a value, whatever the bulk of the tree then. `false` where there is no room for
    /// it.
    pub(crate) fn set_value_step(
        &mut self,
        alloc: Global,
        path: &Names,
        name: &[u16],
        kind: u32,
        bytes: &[u8],
    ) -> Result<bool, EditStop>
        ensures made { MatchResult result
            (λ done. MatchBool done (IsToldStep self.old (set_value path.now name.now kind bytes.now) self.new)
            (LacksStepRoom self.old (set_value path.now name.now kind bytes.now)))
            (IsRefused (after_step (set_value path.now name.now kind bytes.now) self.old.tree)) }
        ensures base { self.new.base ≡ self.old.base }
        ensures grown { bins_size self.old.bins ≤ bins_size self.new.bins }
    {
        match self.settable(path, name, bytes) {
            Err(stop) => Err(stop),
            Ok(place) => {
                let bulk = self.bulk_set(path, name, place, kind, bytes);
                match self.set_at(alloc, path, name, place, kind, bytes, bulk) {
                    Ok(true) => Ok(true),
                    Ok(false) => Ok(false),
                    Err(_) => Err(EditStop::Memory),
                }
            }
        }
    }
}
