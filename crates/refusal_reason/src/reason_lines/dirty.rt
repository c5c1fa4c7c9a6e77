//! Whether a hive is dirty.

ghost use Rattle.std.specs.Prelude.{◌≡◌};
ghost use Rattle.refusal_reason.specs.reason_lines.Files.{is_dirty};

/// Whether the two sequence numbers of a hive's file differ.
pub fn is_dirty(bytes: &[u8]) -> bool
    ensures { result ≡ is_dirty bytes.now }
{
    12 <= bytes.len() && bytes[4..8] != bytes[8..12]
}
