//! Where cells begin, and what stands there.

ghost use Rattle.std.specs.Prelude.{◌≡◌, ◌+◌, ◌%◌, ◌<◌, ◌≤◌, false, length, slice_index, slice_index_or};
ghost use Rattle.std.specs.Option.{IfSome, option_map};
ghost use Rattle.hive_model.specs.Bins.{cell_at};
ghost use Rattle.hive_cells.specs.Reading.{bins_of, head_of, IsKept};
ghost use Rattle.hive_cells.specs.Holes.{free_sizes};

use nt_bytes::u32_at;

/// Does a cell begin at this slot of eight bytes?
fn begins(starts: &[bool], slot: usize) -> bool
    ensures { result ≡ slice_index_or starts.now slot false }
{
    if slot < starts.len() {
        starts[slot]
    } else {
        false
    }
}

/// The cell that begins here: is it allocated, and its size in bytes.
pub(crate) fn head(bytes: &[u8], starts: &[bool], at: usize) -> Option<(bool, usize)>
    requires { IsKept bytes.now starts.now }
    ensures exact { result ≡ option_map head_of (cell_at (bins_of bytes.now) at) }
    ensures within { IfSome result (λ h. (8 ≤ h.1) × (at + h.1 ≤ length bytes.now)) }
    ensures whole { IfSome result (λ h. at % 8 ≡ 0) }
{
    if at % 8 != 0 {
        return None;
    }
    if !begins(starts, at / 8) {
        return None;
    }
    let head = u32_at(bytes, at);
    if head < 0x8000_0000 {
        Some((false, head as usize))
    } else {
        Some((true, (0x1_0000_0000 - u64::from(head)) as usize))
    }
}

/// The size of the free cell that begins at this slot of eight bytes, or 0.
pub(crate) fn free_at(bytes: &[u8], starts: &[bool], slot: usize) -> u32
    requires kept { IsKept bytes.now starts.now }
    requires inside { slot < length starts.now }
    ensures { result ≡ slice_index (free_sizes (bins_of bytes.now)) slot }
{
    match head(bytes, starts, 8 * slot) {
        None => 0,
        Some((true, _size)) => 0,
        Some((false, size)) => size as u32,
    }
}
