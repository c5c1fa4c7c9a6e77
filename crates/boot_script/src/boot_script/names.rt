//! Paths of keys.

ghost use Rattle.std.specs.Prelude.{◌≡◌, IfOk};
ghost use Rattle.boot_script.specs.boot_script.Values.{path_of};

use nt_bytes::{Names, narrow};
use std::alloc::{AllocError, Global};

/// The names between backslashes.
pub fn path(alloc: Global, word: &[u8]) -> Result<Names, AllocError>
    ensures { IfOk result (λ names. names ≡ path_of word.now) }
{
    let mut names = Names::new(alloc);
    for part in word.split(|c| *c == b'\\') {
        names.push(narrow(alloc, part)?)?;
    }
    Ok(names)
}
