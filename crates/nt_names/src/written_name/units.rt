//! The UTF-16 units of a text.

ghost use Rattle.std.specs.Prelude.{◌≡◌, ◌++◌, IfOk, OnOk};
ghost use Rattle.std.specs.List.{flat_map};
ghost use Rattle.std.specs.Char.Escape.{encode_utf16};
ghost use Rattle.std.specs.Str.{chars};
ghost use Rattle.nt_names.specs.written_name.Written.{units_of};

use std::alloc::{AllocError, Global};

fn chars_of(alloc: Global, text: &str) -> Result<Vec<char>, AllocError>
    ensures { IfOk result (λ v. v.items ≡ chars text.now) }
{
    text.chars().collect(alloc)
}

fn push_char(units: &mut Vec<u16>, c: char) -> Result<(), AllocError>
    ensures { OnOk result (units.new.items ≡ units.old.items ++ encode_utf16 c) }
{
    let mut pair = [0u16; 2];
    units.extend_from_slice(c.encode_utf16(&mut pair))
}

fn push_chars(units: &mut Vec<u16>, chars: &[char]) -> Result<(), AllocError>
    ensures { OnOk result (units.new.items ≡ units.old.items ++ flat_map encode_utf16 chars.now) }
{
    for c in chars {
        push_char(units, *c)?;
    }
    Ok(())
}

pub(crate) fn units_of(alloc: Global, text: &str) -> Result<Vec<u16>, AllocError>
    ensures { IfOk result (λ u. u.items ≡ units_of text.now) }
{
    let chars = chars_of(alloc, text)?;
    let mut units = Vec::new(alloc);
    push_chars(&mut units, chars.as_slice())?;
    Ok(units)
}
