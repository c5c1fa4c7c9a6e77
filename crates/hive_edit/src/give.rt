//! Other data for a value that is there: twelve bytes of its cell, and cells of data.

ghost use Rattle.std.specs.Prelude.{◌≡◌, ◌≤◌, ◌<◌, ◌+◌, ℕ, length, Contains, None, IfOk, OnOk, OnErr};
ghost use Rattle.std.specs.Option.{IsSome, IsSomeAnd, option_map};
ghost use Rattle.std.specs.List.{All};
ghost use Rattle.std.specs.Int.{w32, from_le_bytes};
ghost use Rattle.hive_model.specs.Limits.{most_bins};
ghost use Rattle.hive_model.specs.Bins.{bins_size};
ghost use Rattle.hive_model.specs.Size.{data_size};
ghost use Rattle.hive_model.specs.Packed.{text, data_cells};
ghost use Rattle.hive_cells.specs.Held.{held_at, patched};
ghost use Rattle.key_index.specs.Relists.{AreApart};
ghost use Rattle.hive_edit.specs.Edits.{value_fields};
ghost use Rattle.hive_edit.specs.Given.{Gives, IsGiven};
ghost use Rattle.hive_edit.specs.Runs.{IsPlace};
ghost use Rattle.hive_model.specs.Valid.{longest_data};

use crate::cells::{place_for, put_run};
use hive_cells::OpenHeap;
use hive_pack::{data_len, write_data};
use key_index::free_all;
use nt_bytes::{Bytes, HiveVersion, put_u32};
use std::alloc::{AllocError, Global};

/// The number of up to four bytes, which are in the offset field of a value.
pub(crate) fn own_number(bytes: &[u8]) -> u32
    requires { length bytes.now ≤ 4 }
    ensures { result ≡ from_le_bytes w32 bytes.now }
{
    let mut own = [0; 4];
    for i in 0..bytes.len() {
        own[i] = bytes[i];
    }
    u32::from_le_bytes(own)
}

/// The fields of a value for its size, offset and type.
fn fields_of(size: u32, offset: u32, kind: u32) -> [u8; 12]
    ensures { result ≡ value_fields size offset kind }
{
    let mut fields = [0; 12];
    put_u32(&mut fields, 0, size);
    put_u32(&mut fields, 4, offset);
    put_u32(&mut fields, 8, kind);
    fields
}

/// The fields of a value of this type that holds these bytes itself.
pub(crate) fn inside_fields(kind: u32, bytes: &[u8]) -> [u8; 12]
    requires { length bytes.now ≤ 4 }
    ensures { result ≡ value_fields (2147483648 + length bytes.now) (from_le_bytes w32 bytes.now) kind }
{
    let size = 0x8000_0000 + bytes.len() as u32;
    let offset = own_number(bytes);
    fields_of(size, offset, kind)
}

/// The cells of data, written to be at a place.
fn data_run(
    alloc: Global,
    version: HiveVersion,
    place: u32,
    bytes: &[u8],
) -> Result<Bytes, AllocError>
    requires { place + data_size version bytes.now ≤ most_bins }
    ensures { IfOk result (λ b. b ≡ text (data_cells version place bytes.now)) }
{
    let mut run = Bytes::new(alloc);
    write_data(alloc, &mut run, version, place as usize, bytes)?;
    Ok(run)
}

/// Writes the fields of the value at an offset, and frees these cells.
fn refer(heap: &mut OpenHeap, at: u32, fields: &[u8; 12], gone: &[u32])
    requires room { IsSomeAnd (held_at heap.old.bins at) (λ p. 16 ≤ length p) }
    requires held { All (λ o. IsSome (held_at heap.old.bins o)) gone.now }
    requires apart { AreApart gone.now }
    requires outside { Contains gone.now at → ⊥ }
    ensures here { held_at heap.new.bins at ≡ option_map (patched 4 fields.now) (held_at heap.old.bins at) }
    ensures freed { (o : ℕ) → Contains gone.now o → held_at heap.new.bins o ≡ None }
    ensures others { (o : ℕ) → (o ≡ at → ⊥) → (Contains gone.now o → ⊥) → held_at heap.new.bins o ≡ held_at heap.old.bins o }
    ensures long { bins_size heap.new.bins ≡ bins_size heap.old.bins }
    ensures base { heap.new.base ≡ heap.old.base }
{
    heap.patch(at, 4, fields);
    free_all(heap, gone);
}

/// Puts the cells of over four bytes of data at a place, and has the value say so.
fn give_at(
    alloc: Global,
    heap: &mut OpenHeap,
    version: HiveVersion,
    at: u32,
    kind: u32,
    bytes: &[u8],
    gone: &[u32],
    place: u32,
) -> Result<(), AllocError>
    requires some { 4 < length bytes.now }
    requires few { length bytes.now ≤ longest_data }
    requires room { IsSomeAnd (held_at heap.old.bins at) (λ p. 16 ≤ length p) }
    requires held { All (λ o. IsSome (held_at heap.old.bins o)) gone.now }
    requires apart { AreApart gone.now }
    requires outside { Contains gone.now at → ⊥ }
    requires place { IsPlace (data_size version bytes.now) heap.old.bins place }
    ensures given { OnOk result (IsGiven version at kind bytes.now gone.now heap.old.bins heap.new.bins) }
    ensures refused { OnErr result (heap.new ≡ heap.old) }
    ensures base { heap.new.base ≡ heap.old.base }
{
    let run = data_run(alloc, version, place, bytes)?;
    put_run(heap, place, run.as_slice())?;
    let fields = fields_of(bytes.len() as u32, place, kind);
    refer(heap, at, &fields, gone);
    Ok(())
}

/// Gives the value at an offset a type and data, and frees these cells, which its data were in. `false` where there is
/// no room for the data; the heap is as it was then, and where there is no memory.
pub(crate) fn give(
    alloc: Global,
    heap: &mut OpenHeap,
    version: HiveVersion,
    at: u32,
    kind: u32,
    bytes: &[u8],
    gone: &[u32],
) -> Result<bool, AllocError>
    requires few { length bytes.now ≤ longest_data }
    requires room { IsSomeAnd (held_at heap.old.bins at) (λ p. 16 ≤ length p) }
    requires held { All (λ o. IsSome (held_at heap.old.bins o)) gone.now }
    requires apart { AreApart gone.now }
    requires outside { Contains gone.now at → ⊥ }
    ensures given { IfOk result (Gives version at kind bytes.now gone.now heap.old.bins heap.new.bins) }
    ensures refused { OnErr result (heap.new ≡ heap.old) }
    ensures base { heap.new.base ≡ heap.old.base }
{
    if bytes.len() <= 4 {
        let fields = inside_fields(kind, bytes);
        refer(heap, at, &fields, gone);
        return Ok(true);
    }
    match place_for(heap, data_len(version, bytes.len()) as u32) {
        None => Ok(false),
        Some(place) => {
            give_at(alloc, heap, version, at, kind, bytes, gone, place)?;
            Ok(true)
        }
    }
}
