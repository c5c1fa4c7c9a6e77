//! Lines that are put together.

ghost use Rattle.std.specs.Prelude.{◌≡◌, ◌++◌, OnOk};
ghost use Rattle.std.specs.Fmt.{decimal};

use std::alloc::{AllocError, Global};

/// Puts a word and a number after a line.
pub fn push_count(
    alloc: Global,
    line: &mut Vec<u8>,
    word: &str,
    number: u32,
) -> Result<(), AllocError>
    ensures { OnOk result (line.new.items ≡ line.old.items ++ word.now ++ decimal number) }
{
    line.extend_from_slice(word.as_bytes())?;
    let digits = number.to_string(alloc)?;
    line.extend_from_slice(digits.as_bytes())
}
