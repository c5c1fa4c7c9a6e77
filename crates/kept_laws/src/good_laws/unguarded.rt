//! A run whose starts keep no set for LastKnownGood.

ghost use Rattle.std.specs.Prelude.{◌≡◌, List, [], ◌∷◌, Ok};
ghost use Rattle.nt_bytes.specs.declared.version.HiveVersion.TheVariants.{V3};
ghost use Rattle.hive_model.specs.Edit.{edited};
ghost use Rattle.start_model.specs.Possible.{Possible};
ghost use Rattle.start_model.specs.Act.{Note};
ghost use Rattle.start_model.specs.Fits.{KeepsGood};
ghost use Rattle.start_laws.specs.TwoSets.{unguarded};
ghost use Rattle.kept_laws.specs.good_laws.Unguarded.{disabling, disabled, without_guard};

/// Where Default and LastKnownGood are one set, a start that keeps no copy of it breaks the promise as soon as an edit is
/// committed: the edited set was neither the first good one nor saved before, whatever comes after.
pub fn without_the_guard_the_promise_is_broken()
    ensures edited { edited V3 unguarded (disabling ∷ []) ≡ Ok disabled }
    ensures broken { (after : List Note) (disk : Possible) → KeepsGood (without_guard after) disk → ⊥ }
{}
