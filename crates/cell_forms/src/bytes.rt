//! Cells of plain bytes.

ghost use Rattle.hive_model.specs.Forms.{Gives, bytes_in};

use crate::names::fault;
use nt_bytes::{Bytes, HiveFaultKind, ReadStop};
use std::alloc::Global;

/// The first `count` bytes of a payload, as of a class or of a value's data. `FormShort` at `at`
/// where it has fewer.
#[tactic(auto, unfolding(hive_model::specs::Forms::bytes_in))]
pub fn read_bytes(alloc: Global, payload: &[u8], count: u32, at: u32) -> Result<Bytes, ReadStop>
    ensures { Gives (λ b. b) at result (bytes_in count payload.now) }
{
    let count = count as usize;
    if payload.len() < count {
        return Err(fault(HiveFaultKind::FormShort, at));
    }
    Ok(Bytes::from_slice(alloc, &payload[..count])?)
}
