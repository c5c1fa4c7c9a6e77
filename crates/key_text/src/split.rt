//! Units cut into parts.

ghost use Rattle.std.specs.Prelude.{◌≡◌, ◌==◌, IfOk};
ghost use Rattle.std.specs.List.{slice_split};

use nt_bytes::{Names, Units};
use std::alloc::{AllocError, Global};

/// The parts between units of this value, empty ones too.
pub fn split_at(alloc: Global, units: &[u16], mark: u16) -> Result<Names, AllocError>
    ensures { IfOk result (λ parts. parts ≡ slice_split (λ u. u == mark) units.now) }
{
    let mut parts = Names::new(alloc);
    for part in units.split(|unit| *unit == mark) {
        parts.push(Units::from_slice(alloc, part)?)?;
    }
    Ok(parts)
}
