//! Texts in quotes.

ghost use Rattle.std.specs.Prelude.{◌<◌, false, length, IfOk};
ghost use Rattle.nt_bytes.specs.Reading.{Sees};
ghost use Rattle.reg_text.specs.Gives.{Gives};
ghost use Rattle.reg_text.specs.Quotes.{quoted_from, escaped_unit, first_unit};

use crate::stop::{RegFaultKind, RegLineStop};
use nt_bytes::Units;
use std::alloc::Global;

/// The unit after a backslash, and what follows it.
#[tactic(auto, unfolding(crate::specs::Quotes::escaped_unit))]
fn escaped_unit(text: &[u16]) -> Result<(Option<u16>, &[u16]), RegFaultKind>
    ensures exact { Sees (λ x. (x.0, x.1.now)) result (escaped_unit text.now) }
    ensures shorter { IfOk result (λ x. length x.1.now < length text.now) }
{
    let [unit, more @ ..] = text else {
        return Err(RegFaultKind::Line);
    };
    if *unit == 0x5c || *unit == 0x22 {
        return Ok((Some(*unit), more));
    }
    Err(RegFaultKind::Line)
}

/// The first unit of the text, or none at its closing quote, and what follows.
#[tactic(auto, unfolding(crate::specs::Quotes::first_unit))]
fn first_unit(text: &[u16]) -> Result<(Option<u16>, &[u16]), RegFaultKind>
    ensures exact { Sees (λ x. (x.0, x.1.now)) result (first_unit text.now) }
    ensures shorter { IfOk result (λ x. length x.1.now < length text.now) }
{
    let [unit, more @ ..] = text else {
        return Err(RegFaultKind::Line);
    };
    if *unit == 0x22 {
        return Ok((None, more));
    }
    if *unit == 0x5c {
        return escaped_unit(more);
    }
    Ok((Some(*unit), more))
}

/// The text up to its closing quote, and what follows that.
pub fn quoted(alloc: Global, text: &[u16]) -> Result<(Units, &[u16]), RegLineStop>
    ensures { Gives (λ q. (q.0, q.1.now)) result (quoted_from false text.now) }
{
    let mut made = Units::new(alloc);
    let mut rest = text;
    'units: loop {
        let (unit, more) = first_unit(rest)?;
        let Some(unit) = unit else {
            return Ok((made, more));
        };
        made.push(unit)?;
        rest = more;
    }
}
