//! The path of a key, as a word of the command line names it.

ghost use Rattle.std.specs.Prelude.{◌≡◌, ◌++◌, option_map, IfOk, OnOk};
ghost use Rattle.std.specs.List.{flat_map};
ghost use Rattle.std.specs.Char.Escape.{encode_utf16};
ghost use Rattle.std.specs.Str.{chars};
ghost use Rattle.key_text.specs.Words.{units_of, path_in};

use crate::split::split_at;
use nt_bytes::Names;
use std::alloc::{AllocError, Global};

fn chars_of(alloc: Global, text: &str) -> Result<Vec<char>, AllocError>
    ensures { IfOk result (λ v. v.items ≡ chars text.now) }
{
    text.chars().collect(alloc)
}

fn push_char(units: &mut Vec<u16>, c: char) -> Result<(), AllocError>
    ensures { OnOk result (units.new.items ≡ units.old.items ++ encode_utf16 c) }
{
    let mut pair = [0u16; 2];
    units.extend_from_slice(c.encode_utf16(&mut pair))
}

fn push_chars(units: &mut Vec<u16>, chars: &[char]) -> Result<(), AllocError>
    ensures { OnOk result (units.new.items ≡ units.old.items ++ flat_map encode_utf16 chars.now) }
{
    for c in chars {
        push_char(units, *c)?;
    }
    Ok(())
}

/// The UTF-16 units of a text.
fn units_of(alloc: Global, text: &str) -> Result<Vec<u16>, AllocError>
    ensures { IfOk result (λ u. u.items ≡ units_of text.now) }
{
    let chars = chars_of(alloc, text)?;
    let mut units = Vec::new(alloc);
    push_chars(&mut units, chars.as_slice())?;
    Ok(units)
}

/// The path that a word names: its parts between backslashes, empty ones too; the root's where there is no word.
pub fn path_in(alloc: Global, word: Option<&str>) -> Result<Names, AllocError>
    ensures { IfOk result (λ p. p ≡ path_in (option_map (λ w. w.now) word.entry)) }
{
    match word {
        Some(text) => {
            let units = units_of(alloc, text)?;
            split_at(alloc, units.as_slice(), 0x5c)
        }
        None => Ok(Names::new(alloc)),
    }
}
