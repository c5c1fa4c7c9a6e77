//! Names and strings.

ghost use Rattle.std.specs.Prelude.{◌≡◌, [], ◌∷◌, codes, replicate, true, false};
ghost use Rattle.nt_bytes.specs.declared.version.HiveVersion.TheVariants.{V3, V5};
ghost use Rattle.nt_bytes.specs.Folding.{folds_same, folded};
ghost use Rattle.nt_bytes.specs.Text.{sz_of, multi_sz_of};
ghost use Rattle.hive_model.specs.Size.{is_narrow};
ghost use Rattle.hive_model.specs.StoredNames.{name_text};
ghost use Rattle.hive_model.specs.Lists.{hint_of, hash_of};
ghost use Rattle.hive_model.specs.Packed.{stored_flags, name_hint};

/// Only `a` to `z` fold: 0xE9 and 0xC9 are two names.
pub fn names_fold()
    ensures folded { folded (codes "LastKnownGood") ≡ codes "LASTKNOWNGOOD" }
    ensures same { folds_same (codes "Select") (codes "sELECT") ≡ true }
    ensures front { folds_same (codes "Set") (codes "Sets") ≡ false }
    ensures letter { folds_same (0xE9 ∷ []) (0xC9 ∷ []) ≡ false }
{}

/// A unit of two bytes makes a name wide, whose hint in a list is zeros.
pub fn names_are_stored()
    ensures wide { name_text (is_narrow (0x4E2D ∷ [])) (0x4E2D ∷ []) ≡ 0x2D ∷ 0x4E ∷ [] }
    ensures wide_flags { stored_flags (0x4E2D ∷ []) 0x000C ≡ 0x000C }
    ensures wide_hint { hint_of (is_narrow (0x4E2D ∷ [])) (0x4E2D ∷ []) ≡ 0 ∷ 0 ∷ 0 ∷ 0 ∷ [] }
    ensures narrow { name_text (is_narrow (0xC9 ∷ [])) (0xC9 ∷ []) ≡ 0xC9 ∷ [] }
    ensures narrow_flags { stored_flags (0xC9 ∷ []) 0x000C ≡ 0x002C }
    ensures narrow_hint { hint_of (is_narrow (0xC9 ∷ [])) (0xC9 ∷ []) ≡ 0xC9 ∷ 0 ∷ 0 ∷ 0 ∷ [] }
{}

/// Names that fold to one have one hash, modulo 2^32: that of seven units 0xFFFF has lost its high bits. It is the hint of a name in
/// version 1.5, and its first four units in version 1.3.
pub fn names_have_hashes()
    ensures disk { hash_of (codes "Disk") ≡ 0x0036215F }
    ensures folded { hash_of (codes "dISK") ≡ 0x0036215F }
    ensures long { hash_of (replicate 7 0xFFFF) ≡ 0xC2BDA015 }
    ensures hint { name_hint V3 (codes "Disk") ≡ codes "Disk" }
    ensures hashed_hint { name_hint V5 (codes "Disk") ≡ 0x5F ∷ 0x21 ∷ 0x36 ∷ 0 ∷ [] }
{}

/// A string ends at the first zero unit, a list of strings at the first empty one.
pub fn strings_are_read()
    ensures string { sz_of (0x41 ∷ 0 ∷ 0x42 ∷ 0 ∷ 0 ∷ 0 ∷ 0x43 ∷ 0 ∷ []) ≡ codes "AB" }
    ensures strings { multi_sz_of (0x41 ∷ 0 ∷ 0 ∷ 0 ∷ 0x42 ∷ 0 ∷ 0 ∷ 0 ∷ 0 ∷ 0 ∷ []) ≡ codes "A" ∷ codes "B" ∷ [] }
{}
