//! The base block of a hive of one key, and checksums.

ghost use Rattle.std.specs.Prelude.{◌≡◌, ℕ, List, replicate};
ghost use Rattle.hive_model.specs.Base.{checksum_of};

/// 0 and the greatest word are the checksum of no sector; one of zeros has the checksum 1.
pub fn a_checksum_is_no_reserved_word()
    ensures no_zero { (sector : List ℕ) → checksum_of sector ≡ 0 → ⊥ }
    ensures no_greatest { (sector : List ℕ) → checksum_of sector ≡ 0xFFFFFFFF → ⊥ }
    ensures zeros { checksum_of (replicate 512 0) ≡ 1 }
{}
