//! Values by their types.

ghost use Rattle.std.specs.Prelude.{◌≡◌, ◌++◌, OnOk, IfOk};
ghost use Rattle.generated_hive.specs.Generated.{text_bytes, number_value, string_value};

use nt_bytes::{Bytes, narrow};
use reg_tree::Value;
use std::alloc::{AllocError, Global};

/// A number of four bytes.
#[tactic(auto, unfolding(crate::specs::Generated::number_value))]
pub(crate) fn number(alloc: Global, name: &[u8], number: u32) -> Result<Value, AllocError>
    ensures { IfOk result (λ v. v ≡ number_value name.now number) }
{
    let mut bytes = Bytes::new(alloc);
    bytes.put_u32(number)?;
    Ok(Value {
        name: narrow(alloc, name)?,
        kind: 4,
        bytes,
    })
}

/// Puts the text after in UTF-16, and a zero unit.
pub(crate) fn put_text(out: &mut Bytes, text: &[u8]) -> Result<(), AllocError>
    ensures { OnOk result (out.new ≡ out.old ++ text_bytes text.now) }
{
    for byte in text {
        out.put_u16(u16::from(*byte))?;
    }
    out.put_u16(0)
}

/// A string.
#[tactic(auto, unfolding(crate::specs::Generated::string_value))]
pub(crate) fn string(alloc: Global, name: &[u8], text: &[u8]) -> Result<Value, AllocError>
    ensures { IfOk result (λ v. v ≡ string_value name.now text.now) }
{
    let mut bytes = Bytes::new(alloc);
    put_text(&mut bytes, text)?;
    Ok(Value {
        name: narrow(alloc, name)?,
        kind: 1,
        bytes,
    })
}
