//! The checks of a bin's header and of a cell's length.

ghost use Rattle.std.specs.Prelude.{◌≡◌, ◌%◌, ◌≤◌, length, IfOk};
ghost use Rattle.nt_bytes.specs.Reading.{Sees};
ghost use Rattle.hive_model.specs.Bins.{header_at, size_at, with_place};

use nt_bytes::{HiveFault, HiveFaultKind, u32_at};

// A fault of this kind at this place.
fn fault(kind: HiveFaultKind, at: u32) -> HiveFault
    ensures { result ≡ record { kind = kind; at = at } }
{
    HiveFault { kind, at }
}

/// The size in a bin's header.
#[tactic(auto, unfolding(hive_model::specs::Bins::header_at))]
pub(crate) fn header(rest: &[u8], at: u32) -> Result<u32, HiveFault>
    ensures exact { Sees (λ size. size) result (with_place at (header_at at rest.now)) }
    ensures bounds { IfOk result (λ size. (4096 ≤ size) × (size ≤ length rest.now) × (size % 4096 ≡ 0)) }
{
    if rest.len() < 4 || u32_at(rest, 0) != 0x6e69_6268 {
        return Err(fault(HiveFaultKind::BinSign, at));
    }
    if rest.len() < 8 || u32_at(rest, 4) != at {
        return Err(fault(HiveFaultKind::BinOffset, at));
    }
    if rest.len() < 12 {
        return Err(fault(HiveFaultKind::BinSize, at));
    }
    let size = u32_at(rest, 8);
    if size < 4096 || rest.len() < size as usize || size % 4096 != 0 {
        return Err(fault(HiveFaultKind::BinSize, at));
    }
    Ok(size)
}

/// The length of the cell at the front, where there is this much room.
#[tactic(auto, unfolding(hive_model::specs::Bins::size_at))]
pub(crate) fn cell_length(rest: &[u8], room: usize, at: u32) -> Result<usize, HiveFault>
    requires { 4 ≤ length rest.now }
    ensures exact { Sees (λ size. size) result (with_place at (size_at room rest.now)) }
    ensures bounds { IfOk result (λ size. (8 ≤ size) × (size ≤ room)) }
{
    let head = u32_at(rest, 0);
    let size = if head < 0x8000_0000 {
        u64::from(head)
    } else {
        0x1_0000_0000 - u64::from(head)
    };
    if size < 8 || size % 8 != 0 {
        return Err(fault(HiveFaultKind::CellSize, at));
    }
    if (room as u64) < size {
        return Err(fault(HiveFaultKind::CellPastBin, at));
    }
    Ok(size as usize)
}
