//! The greatest lengths that a key's node records, raised where a child or a value is longer.

ghost use Rattle.std.specs.Prelude.{◌≡◌, ◌≤◌, ◌+◌, ◌*◌, [], length};
ghost use Rattle.std.specs.Option.{IsSomeAnd};
ghost use Rattle.nt_bytes.specs.Fields.{u32_in};
ghost use Rattle.hive_model.specs.Tree.{head};
ghost use Rattle.hive_model.specs.Valid.{HoldsKeys, longest_key_name, longest_value_name};
ghost use Rattle.hive_cells.specs.Held.{held_at};
ghost use Rattle.hive_edit.specs.Told.{AreRaisedTo, IsRaisedTo, IsTold};

use crate::hive::HiveBytes;
use hive_cells::{OpenHeap, Source};
use hive_look::key_at;
use nt_bytes::{Names, u32_at};
use reg_tree::Key;
use std::alloc::Global;

/// The field of the greatest length of a child's name in bytes of UTF-16; the next is that of its class.
pub(crate) const CHILDREN: u32 = 0;

/// The field of the greatest length of a value's name in bytes of UTF-16; the next is that of its data.
pub(crate) const VALUES: u32 = 2;

/// The number at a place of a cell.
fn number_in(heap: &OpenHeap, at: u32, place: u32) -> u32
    requires { IsSomeAnd (held_at heap.now.bins at) (λ p. place + 4 ≤ length p) }
    ensures { IsSomeAnd (held_at heap.now.bins at) (λ p. result ≡ u32_in p place) }
{
    match heap.payload(at) {
        Ok(payload) => u32_at(payload, place as usize),
        Err(_) => unreachable!(),
    }
}

/// Writes a number into a field of a node that has a smaller one.
fn raise(heap: &mut OpenHeap, at: u32, field: u32, number: u32)
    requires field { field ≤ 3 }
    requires node { IsSomeAnd (held_at heap.old.bins at) (λ p. 76 ≤ length p) }
    ensures raised { IsRaisedTo at field number heap.old.bins heap.new.bins }
    ensures base { heap.new.base ≡ heap.old.base }
{
    let place = 52 + 4 * field;
    let told = number_in(heap, at, place);
    if told >= number {
        return;
    }
    heap.patch(at, place, &number.to_le_bytes());
}

/// Writes two numbers into a field of a node and the next, where these have smaller ones.
fn raise_both(heap: &mut OpenHeap, at: u32, field: u32, first: u32, second: u32)
    requires field { field ≤ 2 }
    requires node { IsSomeAnd (held_at heap.old.bins at) (λ p. 76 ≤ length p) }
    ensures raised { AreRaisedTo at field first second heap.old.bins heap.new.bins }
    ensures base { heap.new.base ≡ heap.old.base }
{
    raise(heap, at, field, first);
    raise(heap, at, field + 1, second);
}

/// How many bytes of UTF-16 a name has.
pub(crate) fn wide_len(name: &[u16]) -> u32
    requires { length name.now ≤ longest_value_name }
    ensures { result ≡ 2 * length name.now }
{
    2 * name.len() as u32
}

/// How long the class of a key is.
pub(crate) fn class_len(key: &Key) -> u32
    requires { HoldsKeys key.now }
    ensures { result ≡ length (head key.now).class }
{
    key.class().len() as u32
}

impl HiveBytes {
    /// Has the node of the key that a path leads to tell no less than two numbers, in a field and the next.
    pub(crate) fn tell(&mut self, path: &Names, field: u32, first: u32, second: u32)
        requires { field ≤ 2 }
        ensures told { IsTold self.old path.now field first second self.new }
        ensures base { self.new.base ≡ self.old.base }
    {
        let source = Source {
            heap: self.cells.cells(),
            version: self.version,
        };
        match key_at(&source, self.root, path) {
            None => {}
            Some(at) => raise_both(&mut self.cells, at, field, first, second),
        }
    }

    /// Has the root's node tell no less than the lengths of a child's name and class.
    pub(crate) fn tell_child(&mut self, alloc: Global, name: &[u16], class: u32)
        requires { length name.now ≤ longest_key_name }
        ensures told { IsTold self.old [] 0 (2 * length name.now) class self.new }
        ensures base { self.new.base ≡ self.old.base }
    {
        let path = Names::new(alloc);
        let wide = wide_len(name);
        self.tell(&path, CHILDREN, wide, class);
    }
}
