//! The cells of a key, and of all below it: each function appends the cells that it is named for.

ghost use Rattle.std.specs.Prelude.{◌≡◌, ◌+◌, ◌≤◌, ◌++◌, length, OnOk, IfOk};
ghost use Rattle.hive_model.specs.Limits.{most_bins};
ghost use Rattle.hive_model.specs.Tree.{head, children, trees};
ghost use Rattle.hive_model.specs.Valid.{HoldsKeys, AllHoldKeys};
ghost use Rattle.hive_model.specs.Size.{size, size_of_all};
ghost use Rattle.hive_model.specs.KeyNode.{key_node_text};
ghost use Rattle.hive_model.specs.Packed.{text, cell_text, node_of, head_cells, places, cells_of, cells_of_all};
ghost use Rattle.hive_pack.specs.Writes.{above, IsRising};

use crate::forms::node_form;
use crate::lists::write_key_lists;
use crate::security::{Up, below_up, write_security};
use crate::sizes::list_len;
use crate::values::{put_cell, write_class, write_values};
use cell_forms::nk_bytes;
use nt_bytes::{Bytes, HiveVersion};
use reg_tree::Key;
use std::alloc::{AllocError, Global};

#[tactic(auto, using(crate::proofs::Rows::lengths))]
fn write_node(
    alloc: Global,
    out: &mut Bytes,
    version: HiveVersion,
    up: Up<'_>,
    key: &Key,
) -> Result<(), AllocError>
    requires valid { HoldsKeys key.now }
    requires room { length out.old + size version up.security.now key.now ≤ most_bins }
    ensures { OnOk result (out.new ≡ out.old
        ++ cell_text (key_node_text (node_of version (above up.entry) (length out.old) (head key.now) (children key.now)))) }
{
    let form = node_form(alloc, version, up, out.len(), key)?;
    let cell = nk_bytes(alloc, &form)?;
    put_cell(out, cell.as_slice())
}

/// Writes all cells of a key before its subkey lists.
#[tactic(auto, using(crate::proofs::Rows::lengths))]
fn write_head(
    alloc: Global,
    out: &mut Bytes,
    version: HiveVersion,
    up: Up<'_>,
    key: &Key,
) -> Result<(), AllocError>
    requires valid { HoldsKeys key.now }
    requires rising { IsRising up.ring.now }
    requires room { length out.old + size version up.security.now key.now ≤ most_bins }
    ensures { OnOk result (out.new ≡ out.old ++ text (head_cells version (above up.entry) (length out.old) (head key.now) (trees (children key.now)))) }
{
    write_node(alloc, out, version, up, key)?;
    write_class(out, key.class())?;
    write_security(alloc, out, up, key.security(), key.subkeys())?;
    write_values(alloc, out, version, key.items())
}

/// Writes all cells of a key and of all below it.
#[cycle(pack)]
#[tactic(auto, using(crate::proofs::Rows::lengths))]
pub(crate) fn write_key(
    alloc: Global,
    out: &mut Bytes,
    version: HiveVersion,
    up: Up<'_>,
    key: &Key,
) -> Result<(), AllocError>
    requires valid { HoldsKeys key.now }
    requires rising { IsRising up.ring.now }
    requires room { length out.old + size version up.security.now key.now ≤ most_bins }
    ensures { OnOk result (out.new ≡ out.old ++ text (cells_of version (above up.entry) (length out.old) key.now)) }
{
    let at = out.len();
    let keys = key.subkeys();
    write_head(alloc, out, version, up, key)?;
    let list_at = out.len();
    out.append_zeros(list_len(keys.len()))?;
    let mine = below_up(up, at, key);
    let places = write_children(alloc, out, version, mine, keys)?;
    let mut lists = Bytes::new(alloc);
    write_key_lists(alloc, &mut lists, version, list_at, &places, keys)?;
    out.overwrite(list_at, lists.as_slice());
    Ok(())
}

/// Writes the children, and answers their places.
#[cycle(pack)]
fn write_children(
    alloc: Global,
    out: &mut Bytes,
    version: HiveVersion,
    up: Up<'_>,
    keys: &[Key],
) -> Result<Vec<u32>, AllocError>
    requires valid { AllHoldKeys (trees keys.now) }
    requires rising { IsRising up.ring.now }
    requires room { length out.old + size_of_all version up.security.now (trees keys.now) ≤ most_bins }
    ensures written { OnOk result (out.new ≡ out.old ++ text (cells_of_all version (above up.entry) (length out.old) (trees keys.now))) }
    ensures places { IfOk result (λ p. p.items ≡ places version up.entry.security.now (length out.old) (trees keys.now)) }
{
    let mut places = Vec::new(alloc);
    let mut rest = keys;
    'children: loop {
        let [child, more @ ..] = rest else {
            return Ok(places);
        };
        places.push(out.len() as u32)?;
        write_key(alloc, out, version, up, child)?;
        rest = more;
    }
}
