//! A line that ends with a driver.

ghost use Rattle.std.specs.Prelude.{◌≡◌, [], ◌∷◌, ◌++◌, OnOk};
ghost use Rattle.line_parts.specs.Parts.{printed};
ghost use Rattle.line_parts.specs.Views.{seen, all_seen};
ghost use Rattle.device_command.specs.Lines.{number_parts, driver_parts, driver_line};

use crate::words::state_word;
use device_rule::{Driver, DriverState};
use line_parts::{Part, push_line};
use report_text::line_text::ReportForm;
use std::alloc::{AllocError, Global};

fn put<'a>(parts: &mut Vec<Part<'a>>, part: Part<'a>) -> Result<(), AllocError>
    ensures { OnOk result (all_seen parts.new.items ≡ all_seen parts.old.items ++ seen part.entry ∷ []) }
{
    parts.push(part)?;
    Ok(())
}

/// Appends the number of a state, where it has one.
fn put_number(parts: &mut Vec<Part<'_>>, state: DriverState) -> Result<(), AllocError>
    ensures { OnOk result (all_seen parts.new.items ≡ all_seen parts.old.items ++ number_parts state) }
{
    match state {
        DriverState::Beyond(start) => put(parts, Part::Number(b"start", u64::from(start))),
        DriverState::Ready(start) => put(parts, Part::Number(b"start", u64::from(start))),
        DriverState::Kind(kind) => put(parts, Part::Number(b"type", u64::from(kind))),
        DriverState::BuiltIn
        | DriverState::NoKey
        | DriverState::NoStart
        | DriverState::Disabled
        | DriverState::NoType => Ok(()),
    }
}

/// Appends the parts of a driver.
fn put_driver<'a>(parts: &mut Vec<Part<'a>>, driver: &'a Driver) -> Result<(), AllocError>
    ensures { OnOk result (all_seen parts.new.items ≡ all_seen parts.old.items ++ driver_parts driver.now) }
{
    put(parts, Part::Quoted(b"name", driver.name.as_slice()))?;
    put(parts, Part::Word(b"state", state_word(driver.state)))?;
    put_number(parts, driver.state)
}

/// Appends a line that ends with a driver.
pub(crate) fn push_driver_line(
    alloc: Global,
    out: &mut Vec<u8>,
    form: ReportForm,
    word: &[u8],
    front: &[Part<'_>],
    driver: &Driver,
) -> Result<(), AllocError>
    ensures { OnOk result (out.new.items ≡ out.old.items ++ printed form (driver_line word.now (all_seen front.now) driver.now)) }
{
    let mut parts = Vec::new(alloc);
    parts.extend_from_slice(front)?;
    put_driver(&mut parts, driver)?;
    push_line(alloc, out, form, word, parts.as_slice())
}
