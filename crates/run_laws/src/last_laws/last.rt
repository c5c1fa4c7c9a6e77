//! The last operation of a run whose operations were all done.

ghost use Rattle.std.specs.Prelude.{◌≡◌, ℕ, List, [], ◌∷◌, ◌++◌, Option, None, Some};
ghost use Rattle.start_model.specs.Events as events;
ghost use Rattle.start_model.specs.Possible.{Woken, Outcome};
ghost use Rattle.start_model.specs.Act.{RunState};
ghost use Rattle.start_model.specs.Boot.{Choice};
ghost use Rattle.start_model.specs.Run.{run_of};
ghost use Rattle.start_model.specs.Fits.{ArePossible, woke_in};
ghost use Rattle.run_laws.specs.run_laws.Quiet.{AllFinished};
ghost use Rattle.run_laws.specs.last_laws.Last.{last_of};

/// Where each operation of a run was done, the run with all outcomes but the last stops in the last operation of the quiet run; and
/// without outcomes the quiet run has no operation.
pub fn the_last_operation_of_a_quiet_run_is_known()
    ensures none { (choice : Option ℕ → Choice) (script : List events.Event) (placed : Woken) (wakes : List Woken) (last : RunState)
        → (run_of choice script placed wakes []).rest ≡ Some (last, [], [])
        → ArePossible wakes (woke_in (run_of choice script placed wakes []).notes)
        → last_of choice script placed ≡ None }
    ensures some { (choice : Option ℕ → Choice) (script : List events.Event) (placed : Woken) (wakes : List Woken)
        (first : List Outcome) (final : Outcome) (last : RunState)
        → (run_of choice script placed wakes (first ++ final ∷ [])).rest ≡ Some (last, [], [])
        → ArePossible wakes (woke_in (run_of choice script placed wakes (first ++ final ∷ [])).notes) → AllFinished (first ++ final ∷ [])
        → last_of choice script placed ≡ Some (run_of choice script placed wakes first).disk }
{}
