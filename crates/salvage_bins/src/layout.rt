//! Bins data from their first byte to their last.

ghost use Rattle.std.specs.Prelude.{◌≡◌, ◌+◌, ◌≤◌, length, IfOk, Err};
ghost use Rattle.salvage_bins.specs.Layout.{layout_of, stretch, stretch_of};
ghost use Rattle.salvage_bins.specs.Seen.{seen, stretch_seen};

use crate::loose::{loose_until, marks_in};
use crate::whole::bin_in;
use nt_bytes::HiveFault;
use std::alloc::{AllocError, Global};

/// What begins at a place of eight bytes.
#[derive(Clone, Copy, Debug, PartialEq, Eq)]
pub enum Mark {
    /// No cell.
    Nothing,
    /// A cell of a bin that is whole.
    InBin,
    /// A cell among loose bytes.
    Loose,
}

/// A bin that is not whole: its first fault, and how many bytes from its place on are loose.
#[derive(Clone, Copy, Debug, PartialEq, Eq)]
pub struct BrokenBin {
    pub fault: HiveFault,
    pub bytes: u32,
}

/// Where cells begin in bins data, a mark for each eight bytes, and the bins that are not whole, in order.
#[derive(Drop)]
pub struct Layout {
    pub marks: Vec<Mark>,
    pub broken: Vec<BrokenBin>,
}

// The loose bytes after a bin with this fault, and how many they are.
fn loose_at(
    alloc: Global,
    bytes: &[u8],
    fault: HiveFault,
    at: u32,
) -> Result<(Layout, usize), AllocError>
    requires { at + length bytes.now ≤ 268435456 }
    ensures exact { IfOk result (λ r. stretch_seen r.0 r.1 ≡ stretch_of at bytes.now (Err fault)) }
    ensures within { IfOk result (λ r. r.1 ≤ length bytes.now) }
{
    let long = loose_until(bytes, fault.at, at);
    let marks = marks_in(alloc, bytes, long / 8)?;
    let broken = vec![in alloc;
        BrokenBin {
            fault,
            bytes: long as u32
        },
    ]?;
    Ok((Layout { marks, broken }, long))
}

// The whole bin at the front of bytes, or the loose bytes there, and how many they are.
#[tactic(auto, unfolding(crate::specs::Layout::stretch))]
fn stretch_at(alloc: Global, bytes: &[u8], at: u32) -> Result<(Layout, usize), AllocError>
    requires { at + length bytes.now ≤ 268435456 }
    ensures exact { IfOk result (λ r. stretch_seen r.0 r.1 ≡ stretch at bytes.now) }
    ensures within { IfOk result (λ r. r.1 ≤ length bytes.now) }
{
    match bin_in(alloc, bytes, at)? {
        Ok((marks, long)) => {
            let broken = Vec::new(alloc);
            Ok((Layout { marks, broken }, long))
        }
        Err(fault) => loose_at(alloc, bytes, fault, at),
    }
}

/// The layout of bins data, of at most 256 MiB.
pub fn lay_out(alloc: Global, bytes: &[u8]) -> Result<Layout, AllocError>
    requires { length bytes.now ≤ 268435456 }
    ensures { IfOk result (λ l. seen l ≡ layout_of bytes.now) }
{
    let mut marks = Vec::new(alloc);
    let mut broken = Vec::new(alloc);
    let mut rest = bytes;
    let mut at = 0;
    let mut left = bytes.len();
    'stretches: while left > 0 && rest.len() > 0 {
        let (first, long) = stretch_at(alloc, rest, at)?;
        marks.extend_from_slice(first.marks.as_slice())?;
        broken.extend_from_slice(first.broken.as_slice())?;
        rest = &rest[long..];
        at += long as u32;
        left -= 1;
    }
    Ok(Layout { marks, broken })
}
