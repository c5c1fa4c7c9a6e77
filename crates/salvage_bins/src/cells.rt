//! Cells looked up.

ghost use Rattle.std.specs.Prelude.{◌≡◌, ◌+◌, ◌≤◌, length};
ghost use Rattle.nt_bytes.specs.Reading.{Sees};
ghost use Rattle.salvage_bins.specs.Ground.{ground_of, mark_at, payload_here};

use crate::layout::Mark;
use nt_bytes::{HiveFaultKind, HiveVersion, u32_at};

/// The cells of a damaged hive, and the version that they are read in.
#[derive(Clone, Copy)]
pub struct DamagedCells<'a> {
    pub bytes: &'a [u8],
    pub marks: &'a [Mark],
    pub version: HiveVersion,
}

// The mark of the place at which this offset lies.
fn mark(bytes: &[u8], marks: &[Mark], at: u32) -> Mark
    ensures { result ≡ mark_at bytes.now marks.now at }
{
    let at = at as usize;
    if at % 8 != 0 || bytes.len() < at + 8 {
        return Mark::Nothing;
    }
    match marks.get(at / 8) {
        Some(mark) => *mark,
        None => Mark::Nothing,
    }
}

// The payload of an allocated cell that begins here.
#[tactic(auto, unfolding(crate::specs::Ground::payload_here))]
fn payload_at(bytes: &[u8], at: u32) -> Result<&[u8], HiveFaultKind>
    requires { at + 8 ≤ length bytes.now }
    ensures { Sees (λ p. p.now) result (payload_here bytes.now at) }
{
    let at = at as usize;
    let head = u32_at(bytes, at);
    if head < 0x8000_0000 {
        return Err(HiveFaultKind::FreeCell);
    }
    let end = at + (0x1_0000_0000 - u64::from(head)) as usize;
    if end < at + 4 {
        return Ok(&[]);
    }
    Ok(&bytes[at + 4..end.min(bytes.len())])
}

impl<'a> DamagedCells<'a> {
    /// The payload of the allocated cell that begins at this offset. `OutOfRange` where no cell begins there, `FreeCell`
    /// where that cell is free.
    pub fn payload(&self, at: u32) -> Result<&'a [u8], HiveFaultKind>
        ensures { Sees (λ p. p.now) result ((ground_of self.now).cells.payload at) }
    {
        match mark(self.bytes, self.marks, at) {
            Mark::Nothing => Err(HiveFaultKind::OutOfRange),
            _ => payload_at(self.bytes, at),
        }
    }

    /// Does a cell among loose bytes begin at this offset?
    pub fn is_loose(&self, at: u32) -> bool
        ensures { result ≡ (ground_of self.now).loose at }
    {
        mark(self.bytes, self.marks, at) == Mark::Loose
    }
}
