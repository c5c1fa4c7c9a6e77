//! The payload of a cell.

ghost use Rattle.std.specs.Prelude.{◌≡◌};
ghost use Rattle.key_index.specs.Lists.{payload_in};
ghost use Rattle.hive_cells.specs.Sources.{cells_of};

use hive_cells::Source;

/// The payload of the cell at an offset in bytes, empty where there is none.
#[tactic(auto, unfolding(crate::specs::Lists::payload_in))]
pub fn payload<'a>(cells: &Source<'a>, at: u32) -> &'a [u8]
    ensures { result.now ≡ payload_in (cells_of cells.now) at }
{
    match cells.heap.payload(at) {
        Ok(bytes) => bytes,
        Err(_) => &[],
    }
}
