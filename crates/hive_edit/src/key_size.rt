//! How many bytes a key and all below it take in packed form, by the cells that they are in.

ghost use Rattle.std.specs.Prelude.{◌≡◌, ◌≤◌, length, IfOk};
ghost use Rattle.hive_model.specs.Limits.{most_bins};
ghost use Rattle.hive_model.specs.Bins.{bins_size};
ghost use Rattle.hive_model.specs.Tree.{Tree, head};
ghost use Rattle.hive_model.specs.Stands.{IsWellFormed};
ghost use Rattle.hive_model.specs.Size.{bulk_of, list_size, security_size, size};
ghost use Rattle.hive_cells.specs.Sources.{cells_of};
ghost use Rattle.hive_look.specs.Places.{IsKeyAt};

use hive_cells::Source;
use hive_look::cell_len;
use hive_pack::NOWHERE;
use hive_read::judge;
use key_index::payload;
use nt_bytes::{ReadStop, u32_at};
use std::alloc::{AllocError, Global};

/// The lists of that many children.
pub(crate) fn list_len(n: u32) -> u64
    ensures exact { result ≡ list_size n }
    ensures few { result ≤ 68719476736 }
{
    let count = u64::from(n);
    if count == 0 {
        return 0;
    }
    if count < 501 {
        return cell_len(4 + 8 * count);
    }
    let lists = cell_len(4 + 4 * ((count + 499) / 500)) + count / 500 * 4008;
    let rest = count % 500;
    if rest == 0 {
        lists
    } else {
        lists + cell_len(4 + 8 * rest)
    }
}

/// The cell of a descriptor under a key with another one.
fn security_len(shared: &[u8], security: &[u8]) -> u64
    requires { length security.now ≤ 4294967296 }
    ensures exact { result ≡ security_size shared.now security.now }
    ensures few { result ≤ 8589934592 }
{
    if security.is_empty() {
        return 0;
    }
    if shared == security {
        return 0;
    }
    cell_len(20 + security.len() as u64)
}

/// The descriptor of the key at an offset, empty where it has none.
pub(crate) fn descriptor_at<'a>(cells: &Source<'a>, at: u32) -> &'a [u8]
    requires { IsKeyAt (cells_of cells.now) at }
    ensures is { (t : Tree) → IsWellFormed (cells_of cells.now) at t → result.now ≡ (head t).security }
    ensures small { length result.now ≤ 4294967296 }
{
    let node = payload(cells, at);
    let place = u32_at(node, 44);
    if place == NOWHERE {
        return &[];
    }
    let security = payload(cells, place);
    let end = 20 + u32_at(security, 16) as usize;
    &security[20..end]
}

/// The bulk of the key at an offset with all below it, as if it were a tree of its own.
fn bulk_at(alloc: Global, cells: &Source, at: u32) -> Result<u64, AllocError>
    requires here { IsKeyAt (cells_of cells.now) at }
    requires fits { bins_size cells.now.heap.now ≤ most_bins }
    ensures exact { IfOk result (λ n. (t : Tree) → IsWellFormed (cells_of cells.now) at t → n ≡ bulk_of cells.now.version t) }
    ensures low { IfOk result (λ n. n ≤ 576460752303423488) }
{
    match judge(alloc, cells.heap, at, cells.version) {
        Ok(bulk) => Ok(bulk),
        Err(ReadStop::Memory) => Err(AllocError),
        Err(ReadStop::Fault(_)) => unreachable!(),
    }
}

/// How many bytes the cells of the key at an offset and of all below it take, under a key with this descriptor.
pub(crate) fn below_len(
    alloc: Global,
    cells: &Source,
    shared: &[u8],
    at: u32,
) -> Result<u64, AllocError>
    requires here { IsKeyAt (cells_of cells.now) at }
    requires fits { bins_size cells.now.heap.now ≤ most_bins }
    ensures exact { IfOk result (λ n. (t : Tree) → IsWellFormed (cells_of cells.now) at t → n ≡ size cells.now.version shared.now t) }
    ensures low { IfOk result (λ n. n ≤ 1152921504606846976) }
{
    let bulk = bulk_at(alloc, cells, at)?;
    let own = descriptor_at(cells, at);
    let more = security_len(shared, own);
    let less = 32 + security_len(&[], own);
    Ok(bulk + more - less)
}
