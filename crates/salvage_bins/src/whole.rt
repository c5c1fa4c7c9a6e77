//! Bins that are whole.

ghost use Rattle.std.specs.Prelude.{◌≡◌, ◌+◌, ◌≤◌, ◌*◌, ◌∷◌, length, IfOk};
ghost use Rattle.nt_bytes.specs.Reading.{Sees};
ghost use Rattle.salvage_bins.specs.declared.layout.Mark.TheVariants.{Nothing};
ghost use Rattle.salvage_bins.specs.Whole.{bin_marks, cell_marks, slot_mark};

use crate::checks::{cell_length, header};
use crate::layout::Mark;
use nt_bytes::HiveFault;
use std::alloc::{AllocError, Global};

// The mark of a place of eight bytes, of which the cell before it covers this and that many more; and how many
// places after it are covered then.
#[tactic(auto, unfolding(crate::specs::Whole::slot_mark))]
fn mark_of(rest: &[u8], room: usize, covered: usize, at: u32) -> Result<(Mark, usize), HiveFault>
    requires { 4 ≤ length rest.now }
    ensures { Sees (λ m. m) result (slot_mark room covered at rest.now) }
{
    if covered > 0 {
        return Ok((Mark::Nothing, covered - 1));
    }
    let length = cell_length(rest, room, at)?;
    Ok((Mark::InBin, length / 8 - 1))
}

// The marks of that many places of eight bytes to the end of a bin, or the first check of its cells that fails.
fn cells_in(
    alloc: Global,
    bytes: &[u8],
    slots: usize,
    at: u32,
) -> Result<Result<Vec<Mark>, HiveFault>, AllocError>
    requires inside { 8 * slots ≤ length bytes.now }
    requires small { at + length bytes.now ≤ 268435456 }
    ensures { IfOk result (λ r. Sees (λ v. v.items) r (cell_marks slots 0 at bytes.now)) }
{
    let mut marks = Vec::new(alloc);
    let mut rest = bytes;
    let mut place = at;
    let mut covered = 0;
    let mut left = slots;
    'slots: while left > 0 {
        match mark_of(rest, 8 * left, covered, place) {
            Err(fault) => return Ok(Err(fault)),
            Ok((mark, next)) => {
                marks.push(mark)?;
                covered = next;
            }
        }
        rest = &rest[8..];
        place += 8;
        left -= 1;
    }
    Ok(Ok(marks))
}

// The marks of a bin whose cells have these.
fn with_header(alloc: Global, cells: &[Mark]) -> Result<Vec<Mark>, AllocError>
    ensures { IfOk result (λ v. v.items ≡ Nothing ∷ Nothing ∷ Nothing ∷ Nothing ∷ cells.now) }
{
    let mut marks = vec![in alloc; Mark::Nothing, Mark::Nothing, Mark::Nothing, Mark::Nothing]?;
    marks.extend_from_slice(cells)?;
    Ok(marks)
}

/// The bin at the front of bytes: the marks of its places and its size, or its first check that fails.
pub(crate) fn bin_in(
    alloc: Global,
    bytes: &[u8],
    at: u32,
) -> Result<Result<(Vec<Mark>, usize), HiveFault>, AllocError>
    requires { at + length bytes.now ≤ 268435456 }
    ensures exact { IfOk result (λ r. Sees (λ b. (b.0.items, b.1)) r (bin_marks at bytes.now)) }
    ensures within { IfOk result (λ r. IfOk r (λ b. b.1 ≤ length bytes.now)) }
{
    let size = match header(bytes, at) {
        Err(fault) => return Ok(Err(fault)),
        Ok(size) => size as usize,
    };
    match cells_in(alloc, &bytes[32..], size / 8 - 4, at + 32)? {
        Err(fault) => Ok(Err(fault)),
        Ok(cells) => {
            let marks = with_header(alloc, cells.as_slice())?;
            Ok(Ok((marks, size)))
        }
    }
}
