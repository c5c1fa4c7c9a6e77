//! What the words look for.

ghost use Rattle.std.specs.Prelude.{◌≡◌, IfOk, option_and_then, option_map};
ghost use Rattle.command_words.specs.Views.{find_seen};
ghost use Rattle.find_command.specs.Asked.{bytes_written, wanted_by};

use command_words::FindWords;
use find_rule::Wanted;
use hex::FromHexError;
use nt_bytes::Bytes;
use nt_names::written_name::written_name_if;
use std::alloc::{AllocError, Global};

/// The bytes that a word writes in hexadecimal digits. None where it writes none.
fn bytes_written(alloc: Global, word: &str) -> Result<Option<Bytes>, AllocError>
    ensures { IfOk result (λ bytes. bytes ≡ bytes_written word.now) }
{
    match hex::decode(alloc, word) {
        Ok(bytes) => Ok(Some(Bytes::from_vec(bytes))),
        Err(FromHexError::OutOfMemory) => Err(AllocError),
        Err(_) => Ok(None),
    }
}

/// The same of a word that may be missing.
fn bytes_written_if(alloc: Global, word: Option<&str>) -> Result<Option<Bytes>, AllocError>
    ensures { IfOk result (λ bytes. bytes ≡ option_and_then bytes_written (option_map (λ v. v.now) word.entry)) }
{
    match word {
        Some(word) => bytes_written(alloc, word),
        None => Ok(None),
    }
}

/// What the words look for, and where.
pub(crate) fn wanted_by(alloc: Global, words: &FindWords<'_>) -> Result<Wanted, AllocError>
    ensures { IfOk result (λ wanted. wanted ≡ wanted_by (find_seen words.now)) }
{
    let text = written_name_if(alloc, words.text)?;
    let bytes = bytes_written_if(alloc, words.hex)?;
    Ok(Wanted {
        text,
        bytes,
        names: words.names || !words.data,
        strings: words.data || !words.names,
        exact: words.exact,
    })
}
