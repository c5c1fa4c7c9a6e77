//! The path of an edit, in which `CurrentControlSet` stands for the set that the start took.

ghost use Rattle.std.specs.Prelude.{◌≡◌, ◌≤◌, ◌∷◌, [], IfOk};
ghost use Rattle.start_model.specs.Events.{resolved, last_of};
ghost use Rattle.hive_model.specs.Footprint.{parent_of};

use crate::boot_machine::is_current;
use nt_bytes::{Names, Units};
use select_keys::set_name;
use std::alloc::{AllocError, Global};

/// The first component as it is looked up: the taken set's own name for `CurrentControlSet`.
fn first_name(alloc: Global, first: &Units, number: u32) -> Result<Units, AllocError>
    requires { number ≤ 999 }
    ensures { IfOk result (λ name. resolved number (first.now ∷ []) ≡ name ∷ []) }
{
    if is_current(first.as_slice()) {
        set_name(alloc, number)
    } else {
        first.copy(alloc)
    }
}

/// The path with the taken set's own name in the place of `CurrentControlSet`.
pub(crate) fn resolved(alloc: Global, path: &[Units], number: u32) -> Result<Names, AllocError>
    requires { number ≤ 999 }
    ensures { IfOk result (λ p. p ≡ resolved number path.now) }
{
    let [first, rest @ ..] = path else {
        return Ok(Names::new(alloc));
    };
    let first = first_name(alloc, first, number)?;
    path_of(alloc, first, rest)
}

/// The path with this first component and these after it.
fn path_of(alloc: Global, first: Units, rest: &[Units]) -> Result<Names, AllocError>
    ensures { IfOk result (λ p. p ≡ first ∷ rest.now) }
{
    let mut names = Names::new(alloc);
    names.push(first)?;
    for name in rest {
        names.push(name.copy(alloc)?)?;
    }
    Ok(names)
}

/// All but the last component of the path, and the last one, which is empty where the path has none.
pub(crate) fn parted(alloc: Global, path: &[Units]) -> Result<(Names, Units), AllocError>
    ensures parent { IfOk result (λ p. p.0 ≡ parent_of path.now) }
    ensures last { IfOk result (λ p. p.1 ≡ last_of path.now) }
{
    let [front @ .., last] = path else {
        return Ok((Names::new(alloc), Units::new(alloc)));
    };
    Ok((Names::from_slice(alloc, front)?, last.copy(alloc)?))
}
