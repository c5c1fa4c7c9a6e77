//! Folded names as lists of their own.

ghost use Rattle.std.specs.Prelude.{◌≡◌, IfOk};
ghost use Rattle.nt_bytes.specs.Folding.{folded};

use nt_bytes::{Units, fold};
use std::alloc::{AllocError, Global};

/// A name with each unit folded.
pub fn folded(alloc: Global, name: &[u16]) -> Result<Units, AllocError>
    ensures { IfOk result (λ u. u ≡ folded name.now) }
{
    let units: Vec<u16> = name.iter().map(|u| fold(*u)).collect(alloc)?;
    Ok(Units::from_vec(units))
}
