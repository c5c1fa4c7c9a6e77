//! Which items are freed.

ghost use Rattle.std.specs.Prelude.{◌≡◌, IfOk};
ghost use Rattle.start_model.specs.Demand.{member};
ghost use Rattle.wait_cycles.specs.Graph.{AreWaits, waits_in};
ghost use Rattle.why_lacks.specs.why_cycle.Freed.{is_freed};

use nt_bytes::Row;
use std::alloc::{AllocError, Global};
use wait_cycles::inverse::inverse;
use wait_cycles::met::met;

/// For each of that many items, whether it is freed.
pub(crate) fn freed(
    alloc: Global,
    rows: &[Row<usize>],
    count: usize,
) -> Result<Vec<bool>, AllocError>
    requires { AreWaits count rows.now }
    ensures { IfOk result (λ freed. member freed.items ≡ is_freed (waits_in count rows.now)) }
{
    let back = inverse(alloc, rows)?;
    let mut marks = met(alloc, rows, back.as_slice(), count)?;
    marks.truncate(count);
    Ok(marks)
}

/// Whether the item at a place is.
pub(crate) fn is_freed(freed: &[bool], place: usize) -> bool
    ensures { result ≡ member freed.now place }
{
    match freed.get(place) {
        Some(freed) => *freed,
        None => false,
    }
}
