//! What an edit in place keeps of the cells of security.

ghost use Rattle.std.specs.Prelude.{◌≡◌, [], ◌∷◌, true, false};
ghost use Rattle.nt_bytes.specs.declared.version.HiveVersion.{HiveVersion as Version};
ghost use Rattle.hive_model.specs.Bins.{look_up};
ghost use Rattle.hive_model.specs.InPlace.{count_after, KeepsSecurity};
ghost use Rattle.hive_examples.specs.SmallCells.{kin, kin_used};

/// One more or one less for each key, in order; the count stops at 0 and at 4,294,967,295.
pub fn keys_are_counted()
    ensures more { count_after (true ∷ []) 1 ≡ 2 }
    ensures less { count_after (false ∷ []) 1 ≡ 0 }
    ensures in_order { count_after (false ∷ false ∷ true ∷ []) 1 ≡ 1 }
    ensures greatest { count_after (true ∷ []) 4294967295 ≡ 4294967295 }
    ensures from_greatest { count_after (true ∷ false ∷ []) 4294967295 ≡ 4294967294 }
{}

/// The security cell of two keys at 224, which one key came to use, or ceased to use: no other cell is asked for.
pub fn a_count_goes_up_and_down()
    ensures up { (version : Version) → KeepsSecurity 32 (λ at. true ∷ []) (look_up version (kin 224 224 256)) (look_up version (kin_used 2 224 224 256)) }
    ensures down { (version : Version) → KeepsSecurity 32 (λ at. false ∷ []) (look_up version (kin 224 224 256)) (look_up version (kin_used 0 224 224 256)) }
{}
