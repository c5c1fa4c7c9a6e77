//! What is looked for.

ghost use Rattle.std.specs.Prelude.{◌≡◌, IfOk};
ghost use Rattle.std.specs.List.{list_any};
ghost use Rattle.find_rule.specs.Hits.{text_stands, bytes_stand, strings_in, is_name_hit, is_string_hit, is_data_hit};

use crate::standing::{bytes_stand, text_stands};
use key_text::{is_string_kind, split_at};
use nt_bytes::{Bytes, Names, Units, wide};
use reg_tree::Value;
use std::alloc::{AllocError, Global};

/// A text, in UTF-16 units, or bytes, or both, that are looked for, and where.
#[derive(Debug, Drop)]
pub struct Wanted {
    pub text: Option<Units>,
    pub bytes: Option<Bytes>,
    /// The text is looked for in names of keys and values.
    pub names: bool,
    /// The text is looked for in data that are strings. Bytes are looked for in all data.
    pub strings: bool,
    /// A name or a string has to be the text, and data have to be the bytes. Else they may have more before and after.
    pub exact: bool,
}

/// The strings of a value: of the types 1, 2, 6 and 7 its units parted at each zero unit, and of another type none.
fn strings_in(alloc: Global, value: &Value) -> Result<Names, AllocError>
    ensures { IfOk result (λ strings. strings ≡ strings_in value.now) }
{
    if !is_string_kind(value.kind) {
        return Ok(Names::new(alloc));
    }
    let units = wide(alloc, value.bytes.as_slice())?;
    split_at(alloc, units.as_slice(), 0)
}

impl Wanted {
    /// Whether the text occurs in units.
    fn stands_in(&self, units: &[u16]) -> bool
        ensures { result ≡ text_stands self.now units.now }
    {
        match &self.text {
            Some(text) => text_stands(self.exact, text.as_slice(), units),
            None => false,
        }
    }

    /// Whether the bytes occur in data.
    fn stand_in(&self, whole: &[u8]) -> bool
        ensures { result ≡ bytes_stand self.now whole.now }
    {
        match &self.bytes {
            Some(bytes) => bytes_stand(self.exact, bytes.as_slice(), whole),
            None => false,
        }
    }

    /// Whether the text occurs in one of these strings.
    fn stands_in_one(&self, strings: &[Units]) -> bool
        ensures { result ≡ list_any (text_stands self.now) strings.now }
    {
        strings
            .iter()
            .any(|string| self.stands_in(string.as_slice()))
    }

    /// Whether a name is hit, of a key or of a value.
    pub fn is_name_hit(&self, name: &[u16]) -> bool
        ensures { result ≡ is_name_hit self.now name.now }
    {
        self.names && self.stands_in(name)
    }

    /// Whether a value's data are hit by the text in one of its strings.
    fn is_string_hit(&self, alloc: Global, value: &Value) -> Result<bool, AllocError>
        ensures { IfOk result (λ hit. hit ≡ is_string_hit self.now value.now) }
    {
        if !self.strings {
            return Ok(false);
        }
        let strings = strings_in(alloc, value)?;
        Ok(self.stands_in_one(strings.as_slice()))
    }

    /// Whether a value's data are hit: by the text in one of its strings, or by the bytes.
    pub fn is_data_hit(&self, alloc: Global, value: &Value) -> Result<bool, AllocError>
        ensures exact { IfOk result (λ hit. hit ≡ is_data_hit self.now value.now) }
    {
        let hit = self.is_string_hit(alloc, value)?;
        if hit {
            return Ok(true);
        }
        Ok(self.stand_in(value.bytes.as_slice()))
    }
}
