//! A line, no matter what it says.

ghost use Rattle.reg_text.specs.Gives.{Gives};
ghost use Rattle.reg_text.specs.Items.{fresh_item, item_at};

use crate::item::{Begun, LineItem};
use crate::key_line::key_item;
use crate::stop::RegLineStop;
use crate::value_line::{bytes_item, value_item};
use std::alloc::Global;

/// A line that begins again.
#[tactic(auto, unfolding(crate::specs::Items::fresh_item))]
fn fresh_item(alloc: Global, line: &[u16]) -> Result<LineItem, RegLineStop>
    ensures { Gives (λ i. i) result (fresh_item line.now) }
{
    match line {
        [] | [0x3b, ..] => Ok(LineItem::Nothing),
        [0x5b, text @ ..] => key_item(alloc, text),
        _ => value_item(alloc, line),
    }
}

/// A line without blanks at its ends, in which the bytes of a value may go on.
#[tactic(auto, unfolding(crate::specs::Items::item_at))]
pub fn item(alloc: Global, begun: Option<Begun>, line: &[u16]) -> Result<LineItem, RegLineStop>
    ensures { Gives (λ i. i) result (item_at begun line.now) }
{
    match begun {
        Some(begun) => bytes_item(alloc, begun.name, begun.kind, begun.text, line),
        None => fresh_item(alloc, line),
    }
}
