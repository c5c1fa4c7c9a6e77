//! The heap of cells.

ghost use Rattle.std.specs.Prelude.{◌≡◌, ◌*◌, ◌%◌, ◌≤◌, List, length, IfOk};
ghost use Rattle.nt_bytes.specs.Reading.{Sees};
ghost use Rattle.hive_model.specs.Bins.{bins_size, payload_at, with_place, spelled, Bin, IsBins};
ghost use Rattle.cell_tables.specs.saved_pages.Overlay.{before};

use crate::lookup::{free_at, head};
use crate::marks::unmark;
use crate::pushes::put_pages;
use crate::read::mark_bins;
use cell_tables::free_index::Numbers;
use cell_tables::saved_pages::SavedPages;
use nt_bytes::{Bytes, HiveFault, HiveFaultKind};
use std::marker::Model;

/// How long bins data may be, in bytes: 16 MiB.
pub const MOST_BINS: u64 = 16_777_216;

/// Cells, in the bytes of their bins: at most 16,777,216 bytes. One flag for eight bytes says
/// whether a cell begins there.
#[derive(Drop)]
pub struct CellHeap {
    pub(crate) bytes: Vec<u8>,
    pub(crate) starts: Vec<bool>,
}

impl Model for CellHeap {
    ghost use Rattle.std.specs.Prelude.{List};
    ghost use Rattle.std.specs.Coded.{coded_list};
    ghost use Rattle.hive_model.specs.Bins.{Bin};
    ghost use Rattle.hive_model.specs.Codes.{coded_bin};
    ghost use Rattle.hive_cells.specs.Reading.{bins_of, IsKept};

    ghost Value = { List Bin };

    ghost coded = { coded_list coded_bin };

    ghost view = { λ a. bins_of a.bytes.items };

    ghost invariant = { λ a. IsKept a.bytes.items a.starts.items };
}

impl Numbers for CellHeap {
    ghost use Rattle.hive_cells.specs.Holes.{free_sizes};

    ghost numbers = { free_sizes };

    /// The size of the free cell that begins at this slot of eight bytes, or 0.
    fn number_at(&self, slot: usize) -> u32 {
        free_at(self.bytes.as_slice(), self.starts.as_slice(), slot)
    }
}

impl CellHeap {
    /// The payload of the allocated cell that begins at this offset. `OutOfRange` where no cell
    /// begins there, `FreeCell` where that cell is free, both at the offset. A cell begins at whole
    /// eight bytes.
    pub fn payload(&self, at: u32) -> Result<&[u8], HiveFault>
        ensures exact { Sees (λ p. p.now) result (with_place at (payload_at self.now at)) }
        ensures whole { IfOk result (λ p. at % 8 ≡ 0) }
    {
        let bytes = self.bytes.as_slice();
        let place = at as usize;
        match head(bytes, self.starts.as_slice(), place) {
            None => Err(HiveFault {
                kind: HiveFaultKind::OutOfRange,
                at,
            }),
            Some((false, _size)) => Err(HiveFault {
                kind: HiveFaultKind::FreeCell,
                at,
            }),
            Some((true, size)) => Ok(&bytes[place + 4..place + size]),
        }
    }

    /// The bins data.
    pub fn bytes(&self) -> &[u8]
        ensures { result.now ≡ spelled 0 self.now }
    {
        self.bytes.as_slice()
    }

    /// The bins data, without a copy.
    pub fn into_bytes(self) -> Bytes
        ensures { result ≡ spelled 0 self }
    {
        Bytes::from_vec(self.bytes)
    }

    /// The cells as they were, by the pages that were kept of the bins data, which were no longer then. No memory is taken.
    pub(crate) fn restore(&mut self, pages: &SavedPages)
        requires long { 4096 * length pages.now ≤ bins_size self.old }
        requires bins { (bins : List Bin) × IsBins (before pages.now (spelled 0 self.old)) bins }
        ensures { IsBins (before pages.now (spelled 0 self.old)) self.new }
    {
        put_pages(&mut self.bytes, pages);
        unmark(&mut self.starts, self.bytes.len() / 8);
        match mark_bins(self.bytes.as_slice(), &mut self.starts) {
            Ok(()) => {}
            Err(_) => unreachable!(),
        }
    }
}
