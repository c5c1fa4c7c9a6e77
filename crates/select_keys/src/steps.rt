//! The steps that write the numbers of `Select`.

ghost use Rattle.std.specs.Prelude.{◌≡◌, ◌∷◌, [], ◌++◌, codes, map, IfOk, OnOk};
ghost use Rattle.reg_tree.specs.Makes.{step_of};
ghost use Rattle.start_model.specs.Sets.{written, writes_of};

use crate::numbers::SelectNumbers;
use nt_bytes::{Bytes, Names, Units};
use nt_names::startup_names::{CURRENT, DEFAULT, FAILED, LAST_KNOWN_GOOD, SELECT};
use reg_tree::{Steps, TreeStep};
use std::alloc::{AllocError, Global};

/// The type of a number of 32 bits.
const DWORD: u32 = 4;

/// Puts the steps after that write the numbers which differ.
pub(crate) fn write_numbers(
    alloc: Global,
    old: SelectNumbers,
    new: SelectNumbers,
    steps: &mut Steps,
) -> Result<(), AllocError>
    ensures { OnOk result (map step_of steps.new ≡ map step_of steps.old ++ writes_of old new) }
{
    write_number(alloc, &CURRENT, old.current, new.current, steps)?;
    write_number(alloc, &DEFAULT, old.default, new.default, steps)?;
    write_number(alloc, &FAILED, old.failed, new.failed, steps)?;
    write_number(alloc, &LAST_KNOWN_GOOD, old.good, new.good, steps)
}

/// Puts the step after that writes a number, if it differs from the old one.
fn write_number(
    alloc: Global,
    name: &[u16],
    old: u32,
    new: u32,
    steps: &mut Steps,
) -> Result<(), AllocError>
    ensures { OnOk result (map step_of steps.new ≡ map step_of steps.old ++ written name.now old new) }
{
    if old == new {
        return Ok(());
    }
    let mut bytes = Bytes::new(alloc);
    bytes.put_u32(new)?;
    steps.push(TreeStep::SetValue {
        path: select_path(alloc)?,
        name: Units::from_slice(alloc, name)?,
        kind: DWORD,
        bytes,
    })
}

/// The path from the root to `Select`.
pub fn select_path(alloc: Global) -> Result<Names, AllocError>
    ensures { IfOk result (λ p. p ≡ codes "Select" ∷ []) }
{
    let mut path = Names::new(alloc);
    path.push(Units::from_slice(alloc, &SELECT)?)?;
    Ok(path)
}
