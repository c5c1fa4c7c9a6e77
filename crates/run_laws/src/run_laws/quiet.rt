//! A run without cuts and faults.

ghost use Rattle.std.specs.Prelude.{◌≡◌, ℕ, List, Option, Some};
ghost use Rattle.start_model.specs.Events as events;
ghost use Rattle.start_model.specs.Possible.{Woken, Outcome};
ghost use Rattle.start_model.specs.Act.{RunState};
ghost use Rattle.start_model.specs.Boot.{Choice};
ghost use Rattle.start_model.specs.Run.{run_of};
ghost use Rattle.start_model.specs.Quiet.{quiet_run_of};
ghost use Rattle.start_model.specs.Fits.{ArePossible, woke_in};
ghost use Rattle.run_laws.specs.run_laws.Quiet.{AllFinished};

/// Where each operation of the disk was done, it is certain what the disk loads as, so each start begins from the
/// settled state: the run says what the quiet run says, and reaches the same state.
pub fn without_stops_the_run_is_the_quiet_one()
    ensures lines { (choice : Option ℕ → Choice) (script : List events.Event) (placed : Woken) (wakes : List Woken) (outcomes : List Outcome)
        (last : RunState) (left : List Woken) (over : List Outcome)
        → (run_of choice script placed wakes outcomes).rest ≡ Some (last, left, over)
        → ArePossible wakes (woke_in (run_of choice script placed wakes outcomes).notes) → AllFinished outcomes
        → (run_of choice script placed wakes outcomes).lines ≡ (quiet_run_of choice script placed).lines }
    ensures state { (choice : Option ℕ → Choice) (script : List events.Event) (placed : Woken) (wakes : List Woken) (outcomes : List Outcome)
        (last : RunState) (left : List Woken) (over : List Outcome)
        → (run_of choice script placed wakes outcomes).rest ≡ Some (last, left, over)
        → ArePossible wakes (woke_in (run_of choice script placed wakes outcomes).notes) → AllFinished outcomes
        → last ≡ (quiet_run_of choice script placed).state }
{}
