//! The fields of a disk in memory.

ghost use Rattle.std.specs.Prelude.{◌≡◌, true};
ghost use Rattle.nt_edge.specs.declared.disk.Keep.TheVariants.{Everything};
ghost use Rattle.mem_edge.specs.Orders.{WithinOrders, WithinEnds};

use crate::image::MemImage;
use crate::orders::{Armed, Arming};
use crate::writes::Flight;
use nt_edge::Keep;
use std::alloc::Global;

/// What the disk woke up with, and its mark: the counts as they then stood. It shares the bytes of each sector
/// that wasn't written since.
#[derive(Drop)]
pub struct Woke {
    pub image: MemImage,
    pub cuts: u64,
    pub faults: u64,
}

/// An honest disk in memory, with its bench. It stops only where it was ordered to, and a refusal for
/// lack of memory leaves it as it was.
#[derive(Drop)]
pub struct MemDisk {
    pub(crate) alloc: Global,
    pub(crate) image: MemImage,
    pub(crate) flight: Flight,
    pub(crate) on: bool,
    pub(crate) cuts: u64,
    pub(crate) faults: u64,
    pub(crate) lacks: u64,
    pub(crate) wakes: Vec<Woke>,
    pub(crate) cut_calls: u64,
    pub(crate) placings: u64,
    pub(crate) takings: u64,
    pub(crate) armings: Vec<Arming>,
    pub(crate) armed_cut: Option<Armed>,
    pub(crate) armed_fault: Option<Armed>,
    // what the last cut leaves of the writes in flight; where the power went without a cut, all
    pub(crate) keep: Keep,
    // the calls of each kind since the disk was made
    pub(crate) reads: u64,
    pub(crate) writes: u64,
    pub(crate) syncs: u64,
    ghost ends: { WithinEnds cuts faults lacks },
    ghost bench_ends: { WithinEnds cut_calls placings takings },
    ghost call_ends: { WithinEnds reads writes syncs },
    ghost full: { on ≡ true → keep ≡ Everything },
    ghost orders: { WithinOrders cuts faults cut_calls armings.items armed_cut armed_fault },
}
