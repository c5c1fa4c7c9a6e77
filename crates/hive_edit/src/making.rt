//! What a key's node says of its children, how that is written, and the count of its security.

ghost use Rattle.std.specs.Prelude.{◌≡◌, ◌≤◌, ◌<◌, ◌^◌, length};
ghost use Rattle.std.specs.Option.{IsSomeAnd};
ghost use Rattle.nt_bytes.specs.Fields.{u32_in};
ghost use Rattle.hive_cells.specs.Held.{held_at};
ghost use Rattle.hive_edit.specs.Making.{child_fields, IsWritten};

use hive_cells::OpenHeap;
use nt_bytes::{put_u32, u32_at};

/// What a parent's node says of its children, and where its security is.
#[derive(Clone, Copy)]
pub(crate) struct Above {
    pub(crate) list: u32,
    pub(crate) count: u32,
    pub(crate) volatile: u32,
    pub(crate) security: u32,
}

/// Twelve bytes for a node's count of children, its count of volatile ones, and its list of children.
fn child_fields(count: u32, volatile: u32, list: u32) -> [u8; 12]
    ensures { result ≡ child_fields count volatile list }
{
    let mut fields = [0; 12];
    put_u32(&mut fields, 0, count);
    put_u32(&mut fields, 4, volatile);
    put_u32(&mut fields, 8, list);
    fields
}

/// The node says how many children it has, and where their list is.
pub(crate) fn note(heap: &mut OpenHeap, parent: u32, count: u32, volatile: u32, list: u32)
    requires { IsSomeAnd (held_at heap.old.bins parent) (λ p. 76 ≤ length p) }
    ensures written { IsWritten parent 20 (child_fields count volatile list) heap.old.bins heap.new.bins }
    ensures small { list < 2 ^ 32 }
    ensures volatile { volatile < 2 ^ 32 }
    ensures base { heap.new.base ≡ heap.old.base }
{
    let fields = child_fields(count, volatile, list);
    heap.patch(parent, 20, &fields);
}

/// How many keys use the security cell.
pub(crate) fn uses_at(heap: &OpenHeap, at: u32) -> u32
    requires { IsSomeAnd (held_at heap.now.bins at) (λ p. 20 ≤ length p) }
    ensures read { IsSomeAnd (held_at heap.now.bins at) (λ p. result ≡ u32_in p 12) }
    ensures small { IsSomeAnd (held_at heap.now.bins at) (λ p. u32_in p 12 < 2 ^ 32) }
{
    match heap.payload(at) {
        Ok(payload) => u32_at(payload, 12),
        Err(_) => unreachable!(),
    }
}
