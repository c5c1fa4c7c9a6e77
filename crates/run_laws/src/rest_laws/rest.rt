//! A run whose operations were all done leaves nothing open.

ghost use Rattle.std.specs.Prelude.{◌≡◌, false, ℕ, List, Option, Some};
ghost use Rattle.hive_model.specs.Image.{Image};
ghost use Rattle.hive_model.specs.Load.{Loads};
ghost use Rattle.start_model.specs.Events as events;
ghost use Rattle.start_model.specs.Possible.{Possible, Woken, Outcome, settled_at};
ghost use Rattle.start_model.specs.Act.{RunState};
ghost use Rattle.start_model.specs.Boot.{Choice};
ghost use Rattle.start_model.specs.Run.{run_of};
ghost use Rattle.start_model.specs.Fits.{MayLoad};
ghost use Rattle.run_laws.specs.run_laws.Quiet.{AllFinished};
ghost use Rattle.run_laws.specs.run_laws.Told.{ended_in};
ghost use Rattle.run_laws.specs.rest_laws.Rest.{IsAtRest};

/// Where each operation of a run was done, the disk is settled in the end: it loads as one state, without its log; or it is as it
/// was placed, and no start woke it.
pub fn a_run_without_stops_leaves_nothing_open()
    ensures rest { (choice : Option ℕ → Choice) (script : List events.Event) (placed : Woken) (wakes : List Woken) (outcomes : List Outcome)
        (last : RunState) (left : List Woken) (over : List Outcome)
        → (run_of choice script placed wakes outcomes).rest ≡ Some (last, left, over)
        → AllFinished (ended_in (run_of choice script placed wakes outcomes).notes) → IsAtRest placed last.disk }
    ensures loads { (p : Possible) (c : Image) → p ≡ settled_at p.settled → MayLoad p c → Loads c p.settled false }
{}
