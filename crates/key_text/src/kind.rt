//! The names of types.

ghost use Rattle.std.specs.Prelude.{◌≡◌, ◌++◌, slice_get, option_map, OnOk};
ghost use Rattle.key_text.specs.Kinds.{kind_names, kind_digits, kind_text};

use report_text::line_text::push_hex;
use std::alloc::{AllocError, Global};

/// The name of a type from 0 to 11.
fn kind_name(kind: u32) -> Option<&'static [u8]>
    ensures { option_map (λ name. name.now) result ≡ slice_get kind_names kind }
{
    match kind {
        0 => Some(b"REG_NONE"),
        1 => Some(b"REG_SZ"),
        2 => Some(b"REG_EXPAND_SZ"),
        3 => Some(b"REG_BINARY"),
        4 => Some(b"REG_DWORD"),
        5 => Some(b"REG_DWORD_BIG_ENDIAN"),
        6 => Some(b"REG_LINK"),
        7 => Some(b"REG_MULTI_SZ"),
        8 => Some(b"REG_RESOURCE_LIST"),
        9 => Some(b"REG_FULL_RESOURCE_DESCRIPTOR"),
        10 => Some(b"REG_RESOURCE_REQUIREMENTS_LIST"),
        11 => Some(b"REG_QWORD"),
        _ => None,
    }
}

fn push_digits(alloc: Global, out: &mut Vec<u8>, kind: u32) -> Result<(), AllocError>
    ensures { OnOk result (out.new.items ≡ out.old.items ++ kind_digits kind) }
{
    out.extend_from_slice(b"0x")?;
    push_hex(alloc, out, &kind.to_be_bytes())
}

/// Appends the type: its name, or `0x` and eight hexadecimal digits where it has none.
pub fn push_kind(alloc: Global, out: &mut Vec<u8>, kind: u32) -> Result<(), AllocError>
    ensures { OnOk result (out.new.items ≡ out.old.items ++ kind_text kind) }
{
    match kind_name(kind) {
        Some(name) => out.extend_from_slice(name),
        None => push_digits(alloc, out, kind),
    }
}
