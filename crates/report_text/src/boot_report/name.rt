//! Names and paths as they are printed.

ghost use Rattle.std.specs.Prelude.{◌≡◌, ◌++◌, OnOk};
ghost use Rattle.start_model.specs.Lines.{unit_text, name_text, path_text};

use nt_bytes::hex_digit;
use std::alloc::{AllocError, Global};

#[tactic(auto, unfolding(start_model::specs::Lines::unit_text))]
fn push_unit(out: &mut Vec<u8>, unit: u16) -> Result<(), AllocError>
    ensures { OnOk result (out.new.items ≡ out.old.items ++ unit_text unit) }
{
    if (0x20..=0x7e).contains(&unit) {
        out.push(unit as u8)?;
        return Ok(());
    }
    let value = u32::from(unit);
    let text = [
        b'\\',
        b'u',
        hex_digit(value / 4096),
        hex_digit(value / 256 % 16),
        hex_digit(value / 16 % 16),
        hex_digit(value % 16),
    ];
    out.extend_from_slice(&text)
}

/// Puts a name after: each unit from 0x20 to 0x7E as a byte, another as `\u` and four hexadecimal digits.
pub fn push_name(out: &mut Vec<u8>, name: &[u16]) -> Result<(), AllocError>
    ensures { OnOk result (out.new.items ≡ out.old.items ++ name_text name.now) }
{
    for unit in name {
        push_unit(out, *unit)?;
    }
    Ok(())
}

pub fn push_path(out: &mut Vec<u8>, path: &[u8]) -> Result<(), AllocError>
    ensures { OnOk result (out.new.items ≡ out.old.items ++ path_text path.now) }
{
    for c in path {
        if (0x20..=0x7e).contains(c) {
            out.push(*c)?;
        } else {
            out.push(b'?')?;
        }
    }
    Ok(())
}
