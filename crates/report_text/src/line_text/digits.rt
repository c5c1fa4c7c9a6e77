//! Numbers and bytes as digits.

ghost use Rattle.std.specs.Prelude.{◌≡◌, ◌++◌, OnOk};
ghost use Rattle.std.specs.Fmt.{decimal};
ghost use Rattle.hex.specs.Hex.{encode_lower};

use itoa::{Buffer, Integer};
use std::alloc::{AllocError, Global};

/// Appends the number in decimal.
pub fn push_number(out: &mut Vec<u8>, number: u64) -> Result<(), AllocError>
    ensures { OnOk result (out.new.items ≡ out.old.items ++ decimal number) }
{
    let mut buffer = Buffer::new();
    out.extend_from_slice(buffer.format(number).as_bytes())
}

/// Appends each byte as two lower-case hexadecimal digits, without gaps. A number in a fixed count of digits is its bytes,
/// the high one first.
pub fn push_hex(alloc: Global, out: &mut Vec<u8>, bytes: &[u8]) -> Result<(), AllocError>
    ensures { OnOk result (out.new.items ≡ out.old.items ++ encode_lower bytes.now) }
{
    let text = hex::encode(alloc, bytes)?;
    out.extend_from_slice(text.as_bytes())
}
