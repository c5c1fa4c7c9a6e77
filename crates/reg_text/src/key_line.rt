//! The line of a key.

ghost use Rattle.std.specs.Prelude.{◌≡◌, IfOk};
ghost use Rattle.std.specs.List.{slice_split};
ghost use Rattle.nt_bytes.specs.Text.{is_backslash};
ghost use Rattle.reg_text.specs.Gives.{Gives};
ghost use Rattle.reg_text.specs.Items.{parts_behind, path_at, bracketed, key_item};

use crate::item::LineItem;
use crate::stop::{RegFaultKind, RegLineStop};
use crate::units::behind;
use nt_bytes::{Names, Units};
use std::alloc::{AllocError, Global};

/// The names of a path: the parts of the text between backslashes, empty ones too.
pub fn split_path(alloc: Global, text: &[u16]) -> Result<Names, AllocError>
    ensures { IfOk result (λ names. names ≡ slice_split is_backslash text.now) }
{
    let mut names = Names::new(alloc);
    for part in text.split(|unit| *unit == 0x5c) {
        names.push(Units::from_slice(alloc, part)?)?;
    }
    Ok(names)
}

/// The names after the prefix of a path.
#[tactic(auto, unfolding(crate::specs::Items::parts_behind))]
fn parts_behind(alloc: Global, rest: &[u16]) -> Result<Names, RegLineStop>
    ensures { Gives (λ p. p) result (parts_behind rest.now) }
{
    match rest {
        [] => Ok(Names::new(alloc)),
        [0x5c, more @ ..] => Ok(split_path(alloc, more)?),
        _ => Err(RegLineStop::Kind(RegFaultKind::Root)),
    }
}

/// The path that a key's text names.
#[tactic(auto, unfolding(crate::specs::Items::path_at))]
fn path(alloc: Global, text: &[u16]) -> Result<Names, RegLineStop>
    ensures { Gives (λ p. p) result (path_at text.now) }
{
    match behind(b"HKEY_LOCAL_MACHINE\\SYSTEM", text) {
        Some(rest) => parts_behind(alloc, rest),
        None => Err(RegLineStop::Kind(RegFaultKind::Root)),
    }
}

/// What stands between the brackets.
#[tactic(auto, unfolding(crate::specs::Items::bracketed))]
fn bracketed(alloc: Global, text: &[u16]) -> Result<LineItem, RegLineStop>
    ensures { Gives (λ i. i) result (bracketed text.now) }
{
    match text {
        [] => Err(RegLineStop::Kind(RegFaultKind::Root)),
        [0x2d, rest @ ..] => {
            let path = path(alloc, rest)?;
            Ok(LineItem::NoKey { path })
        }
        _ => {
            let path = path(alloc, text)?;
            Ok(LineItem::InKey { path })
        }
    }
}

/// The line of a key after its first bracket: it runs to its last bracket.
#[tactic(auto, unfolding(crate::specs::Items::key_item))]
pub fn key_item(alloc: Global, text: &[u16]) -> Result<LineItem, RegLineStop>
    ensures { Gives (λ i. i) result (key_item text.now) }
{
    match text {
        [inside @ .., 0x5d] => bracketed(alloc, inside),
        _ => Err(RegLineStop::Kind(RegFaultKind::Line)),
    }
}
