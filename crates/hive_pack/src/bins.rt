//! The bins data of a packed tree.

ghost use Rattle.std.specs.Prelude.{◌≡◌, ◌≤◌, ◌<◌, ◌%◌, ◌++◌, true, length, IfOk, OnOk};
ghost use Rattle.std.specs.List.{flat_map};
ghost use lib.ListN.{replicate};
ghost use Rattle.hive_model.specs.Edit.{most_bulk};
ghost use Rattle.hive_model.specs.Base.{is_bins_size};
ghost use Rattle.hive_model.specs.Valid.{IsValid};
ghost use Rattle.hive_model.specs.Size.{bulk_of};
ghost use Rattle.hive_model.specs.Bins.{head_bytes, cell_bytes, look_up, IsBins};
ghost use Rattle.hive_model.specs.Packed.{free_cells, packed, packed_bins};
ghost use Rattle.hive_model.specs.Stands.{IsWellFormed};

use crate::forms::NOWHERE;
use crate::numbers::numbers_fit;
use crate::ring::ring_of;
use crate::security::Up;
use crate::write::write_key;
use nt_bytes::{Bytes, HiveVersion};
use reg_tree::Key;
use std::alloc::{AllocError, Global};

/// The bins data of the tree's packed form in a version. Their cells are well-formed at 32, and the tree is the
/// one that stands there.
#[tactic(auto, unfolding(hive_model::specs::Packed::packed))]
pub fn pack(alloc: Global, tree: &Key, version: HiveVersion) -> Result<Bytes, AllocError>
    requires valid { IsValid tree.now }
    requires room { bulk_of version tree.now ≤ most_bulk }
    ensures bytes { IfOk result (λ b. b ≡ packed version tree.now) }
    ensures sized { IfOk result (λ b. is_bins_size (length b) ≡ true) }
    ensures bins { IfOk result (λ b. IsBins b (packed_bins version tree.now)) }
    ensures well_formed { IfOk result (λ _. IsWellFormed (look_up version (packed_bins version tree.now)) 32 tree.now) }
{
    numbers_fit(tree);
    let mut ring = Vec::new(alloc);
    let _end = ring_of(&mut ring, version, &[], 32, tree)?;
    let mut out = Bytes::new(alloc);
    out.append_zeros(32)?;
    let top = Up {
        place: NOWHERE,
        security: &[],
        security_place: NOWHERE,
        ring: &ring,
    };
    write_key(alloc, &mut out, version, top, tree)?;
    let used = out.len();
    let size = (used + 4095) / 4096 * 4096;
    put_free(&mut out, size - used)?;
    let header = header(alloc, size as u32)?;
    out.overwrite(0, header.as_slice());
    Ok(out)
}

/// Writes a free cell of this size, if it is not 0.
#[tactic(auto, unfolding(hive_model::specs::Bins::cell_bytes))]
fn put_free(out: &mut Bytes, size: usize) -> Result<(), AllocError>
    requires small { size < 4096 }
    requires whole { size % 8 ≡ 0 }
    ensures { OnOk result (out.new ≡ out.old ++ flat_map cell_bytes (free_cells size)) }
{
    if size == 0 {
        return Ok(());
    }
    out.put_u32(size as u32)?;
    out.append_zeros(size - 4)
}

/// The header of a bin that begins the bins data.
#[tactic(auto, unfolding(hive_model::specs::Bins::head_bytes))]
fn header(alloc: Global, size: u32) -> Result<Bytes, AllocError>
    ensures { IfOk result (λ b. b ≡ head_bytes 0 size (replicate 20 0)) }
{
    let mut text = Bytes::new(alloc);
    text.append(b"hbin")?;
    text.put_u32(0)?;
    text.put_u32(size)?;
    text.append_zeros(20)?;
    Ok(text)
}
