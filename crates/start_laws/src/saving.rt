//! What a good start saves.

ghost use Rattle.std.specs.Prelude.{◌≡◌, [], ◌∷◌, ◌++◌, codes};
ghost use Rattle.nt_bytes.specs.declared.version.HiveVersion.TheVariants.{V3};
ghost use Rattle.hive_model.specs.Load.{state_of};
ghost use Rattle.start_model.specs.Possible.{settled_at};
ghost use Rattle.start_laws.specs.Written.{select, system, report, run_with, lines, first_lines};
ghost use Rattle.start_laws.specs.TwoSets.{used, two_services, logs_on_and_edits};

/// What is saved is the set as the start began with it, and not with the edit that came before the start was good.
pub fn the_clone_is_saved()
    ensures said { report used logs_on_and_edits ≡ lines (first_lines (codes "2")
        ++ codes "phase system"
        ∷ codes "phase automatic"
        ∷ codes "try S ok"
        ∷ codes "logon"
        ∷ codes "edit ok"
        ∷ codes "try T ok"
        ∷ codes "phase done"
        ∷ codes "commit save 6"
        ∷ codes "select 1 1 0 3"
        ∷ codes "verdict good"
        ∷ codes "end"
        ∷ []) }
    ensures kept { (run_with used logs_on_and_edits 2).disk ≡ settled_at (state_of
        (system (two_services 1 ((codes "Tag", 9) ∷ []) ∷ two_services 3 [] ∷ select 1 1 0 3 ∷ [])) 6 V3) }
{}
