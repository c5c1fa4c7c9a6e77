//! Cells in which a whole tree was judged.

ghost use Rattle.std.specs.Prelude.{◌≡◌, true, length};
ghost use Rattle.hive_model.specs.Base.{is_bins_size};
ghost use Rattle.hive_model.specs.Bins.{look_up};
ghost use Rattle.hive_model.specs.Image.{image_of};
ghost use Rattle.hive_cells.specs.Sources.{cells_of};
ghost use Rattle.key_command.specs.judged_cells.Judged.{JudgesIn, JudgesCells};

use hive_cells::{CellHeap, Source, read_cells};
use hive_log::{Recovered, recovered};
use hive_read::judge;
use nt_bytes::{HiveVersion, ReadStop};
use std::alloc::Global;

/// The cells of a hive, where its root's node is, and the version that they are read in.
#[derive(Drop)]
pub struct JudgedCells {
    pub cells: CellHeap,
    pub root: u32,
    pub version: HiveVersion,
}

impl JudgedCells {
    /// What a reader of them reads from.
    pub fn source(&self) -> Source<'_>
        ensures { cells_of result ≡ look_up self.now.version self.now.cells }
    {
        Source {
            heap: &self.cells,
            version: self.version,
        }
    }
}

/// The cells of what was recovered, or the first fault of its bins, and then of the tree in them.
fn judged_in(alloc: Global, found: Recovered) -> Result<JudgedCells, ReadStop>
    requires sized { is_bins_size (length found.bins) ≡ true }
    ensures exact { JudgesIn found result }
{
    let base = found.base;
    let version = base.version();
    let cells = read_cells(alloc, found.bins)?;
    let _bulk = judge(alloc, &cells, base.root, version)?;
    Ok(JudgedCells {
        cells,
        root: base.root,
        version,
    })
}

/// The cells of two files, or the first fault. An empty log is an absent one. The whole tree is judged, and not made. Out of
/// memory alone is free.
pub fn judged(alloc: Global, primary: &[u8], log: &[u8]) -> Result<JudgedCells, ReadStop>
    ensures exact { JudgesCells (image_of primary.now log.now) result }
{
    let found = recovered(alloc, primary, log)?;
    judged_in(alloc, found)
}
