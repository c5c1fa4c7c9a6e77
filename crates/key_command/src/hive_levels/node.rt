//! A key by itself.

ghost use Rattle.std.specs.Prelude.{◌≡◌, IfOk};
ghost use Rattle.hive_model.specs.Stands.{class_of, security_of, tree_flags};
ghost use Rattle.hive_model.specs.Tree.{key, trees};
ghost use Rattle.cell_forms.specs.Views.{name_of, node_seen};
ghost use Rattle.hive_cells.specs.Sources.{cells_of};
ghost use Rattle.key_command.specs.hive_levels.Cut.{bare};
ghost use Rattle.key_command.specs.hive_levels.Reading.{Answers, key_of};

use crate::hive_levels::cells::{bytes_at, security_at};
use crate::hive_levels::values::values_of;
use cell_forms::NkSlice;
use hive_cells::Source;
use nt_bytes::{Bytes, ReadStop};
use reg_tree::{Key, Keys, Values};
use std::alloc::{AllocError, Global};

#[tactic(auto, unfolding(hive_model::specs::Stands::class_of))]
fn class_of(alloc: Global, cells: &Source, node: &NkSlice) -> Result<Bytes, ReadStop>
    ensures { Answers (λ b. b) (class_of (cells_of cells.now) (node_seen node.now)) result }
{
    if node.class_length == 0 {
        return Ok(Bytes::new(alloc));
    }
    bytes_at(alloc, cells, u32::from(node.class_length), node.class)
}

#[tactic(auto, unfolding(hive_model::specs::Stands::security_of))]
fn descriptor_of(alloc: Global, cells: &Source, node: &NkSlice) -> Result<Bytes, ReadStop>
    ensures { Answers (λ b. b) (security_of (cells_of cells.now) (node_seen node.now)) result }
{
    if node.security == 0xffff_ffff {
        return Ok(Bytes::new(alloc));
    }
    let security = security_at(alloc, cells, node.security)?;
    Ok(security.descriptor)
}

/// The flags without the bit that says how the name is stored.
fn own_flags(flags: u16) -> u16
    ensures { result ≡ tree_flags flags }
{
    if flags / 32 % 2 == 1 {
        flags - 32
    } else {
        flags
    }
}

/// A node's name and these children, and nothing else of the key.
pub(crate) fn bare_key(alloc: Global, node: &NkSlice, children: Keys) -> Result<Key, AllocError>
    ensures { IfOk result (λ k. k ≡ key (bare (name_of node.now.name)) (trees children)) }
{
    let name = node.name.units(alloc)?;
    Ok(Key {
        name,
        flags: 0,
        stamp: 0,
        class: Bytes::new(alloc),
        security: Bytes::new(alloc),
        values: Values::new(alloc),
        children,
    })
}

/// The key of a node with these children.
pub(crate) fn key_of(
    alloc: Global,
    cells: &Source,
    node: &NkSlice,
    children: Keys,
) -> Result<Key, ReadStop>
    ensures { Answers (λ k. k) (key_of (cells_of cells.now) (node_seen node.now) children) result }
{
    let class = class_of(alloc, cells, node)?;
    let security = descriptor_of(alloc, cells, node)?;
    let values = values_of(alloc, cells, node)?;
    let name = node.name.units(alloc)?;
    let flags = own_flags(node.flags);
    Ok(Key {
        name,
        flags,
        stamp: node.stamp,
        class,
        security,
        values,
        children,
    })
}
