//! The cells that a value's data are in.

ghost use Rattle.std.specs.Prelude.{◌≡◌, ◌<◌, ◌≤◌, [], ◌∷◌, true, Ok, IfOk};
ghost use Rattle.std.specs.Result.{IsOk};
ghost use Rattle.cell_forms.specs.Views.{big_data_of};
ghost use Rattle.hive_model.specs.Size.{is_big};
ghost use Rattle.hive_model.specs.BigData.{big_data_at};
ghost use Rattle.hive_model.specs.Lists.{offsets_in};
ghost use Rattle.hive_model.specs.Walk.{big_checks};
ghost use Rattle.hive_model.specs.Footprint.{used_in};
ghost use Rattle.hive_model.specs.Stands.{big_bytes_at};
ghost use Rattle.hive_cells.specs.Sources.{cells_of};
ghost use Rattle.hive_look.specs.Places.{IsItemHere, data_places, data_room, data_places_by, room_by};

use cell_forms::{DbForm, Offsets, read_db, read_offsets};
use hive_cells::Source;
use hive_pack::{data_len, is_big};
use key_index::payload;
use nt_bytes::{HiveVersion, ReadStop, u32_at};
use std::alloc::{AllocError, Global};

/// One offset.
fn one(alloc: Global, at: u32) -> Result<Offsets, AllocError>
    ensures { IfOk result (λ v. v ≡ at ∷ []) }
{
    let mut all = Offsets::new(alloc);
    all.push(at)?;
    Ok(all)
}

/// Two offsets, and more.
fn two_and(alloc: Global, first: u32, second: u32, more: &[u32]) -> Result<Offsets, AllocError>
    ensures { IfOk result (λ v. v ≡ first ∷ second ∷ more.now) }
{
    let mut all = Vec::new(alloc);
    all.push(first)?;
    all.push(second)?;
    all.extend_from_slice(more)?;
    Ok(Offsets::from_vec(all))
}

/// What the cell of big data in a payload says, which is known to be one.
pub fn db_in(payload: &[u8]) -> Result<DbForm, AllocError>
    requires { IsOk (big_data_at payload.now) }
    ensures { IfOk result (λ db. big_data_at payload.now ≡ Ok (big_data_of db)) }
{
    match read_db(payload, 0) {
        Ok(db) => Ok(db),
        Err(ReadStop::Memory) => Err(AllocError),
        Err(ReadStop::Fault(_)) => unreachable!(),
    }
}

/// That many offsets of segments, from the payload of the cell that lists them.
pub fn segments_in(alloc: Global, list: &[u8], count: u16) -> Result<Offsets, AllocError>
    requires { IsOk (offsets_in count list.now) }
    ensures { IfOk result (λ v. offsets_in count list.now ≡ Ok v) }
{
    match read_offsets(alloc, list, u32::from(count), 0) {
        Ok(segments) => Ok(segments),
        Err(ReadStop::Memory) => Err(AllocError),
        Err(ReadStop::Fault(_)) => unreachable!(),
    }
}

/// The cells of big data: `db`, the list of the segments, and the segments.
fn big_places(alloc: Global, cells: &Source, size: u32, at: u32) -> Result<Offsets, AllocError>
    requires { IsOk (big_bytes_at (cells_of cells.now) size at) }
    ensures { IfOk result (λ v. v ≡ used_in (big_checks (cells_of cells.now) size at)) }
{
    let db = db_in(payload(cells, at))?;
    let segments = segments_in(alloc, payload(cells, db.list), db.segments)?;
    two_and(alloc, at, db.list, segments.as_slice())
}

/// The cells of data of this size, where these are at a place.
fn places_of(alloc: Global, cells: &Source, size: u32, place: u32) -> Result<Offsets, AllocError>
    requires { size < 2147483648 → is_big (cells_of cells.now).version size ≡ true → IsOk (big_bytes_at (cells_of cells.now) size place) }
    ensures { IfOk result (λ v. v ≡ data_places_by (cells_of cells.now) size place) }
{
    if size >= 0x8000_0000 {
        return Ok(Offsets::new(alloc));
    }
    if size == 0 {
        return Ok(Offsets::new(alloc));
    }
    if is_big(cells.version, size as usize) {
        return big_places(alloc, cells, size, place);
    }
    one(alloc, place)
}

/// The cells of the data of the value at an offset.
pub fn data_places(alloc: Global, cells: &Source, at: u32) -> Result<Offsets, AllocError>
    requires { IsItemHere (cells_of cells.now) at }
    ensures { IfOk result (λ v. v ≡ data_places (cells_of cells.now) at) }
{
    let value = payload(cells, at);
    let size = u32_at(value, 4);
    let place = u32_at(value, 8);
    places_of(alloc, cells, size, place)
}

fn room_by(version: HiveVersion, size: u32) -> usize
    ensures room { result ≡ room_by version size }
    ensures few { result ≤ 4294967296 }
{
    if size >= 0x8000_0000 {
        return 0;
    }
    data_len(version, size as usize)
}

/// How many bytes packed cells for the data of the value at an offset take.
pub fn data_room(cells: &Source, at: u32) -> usize
    requires { IsItemHere (cells_of cells.now) at }
    ensures room { result ≡ data_room (cells_of cells.now) at }
    ensures few { result ≤ 4294967296 }
{
    let value = payload(cells, at);
    room_by(cells.version, u32_at(value, 4))
}
