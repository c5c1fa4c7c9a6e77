//! A run to which nothing more happens.

ghost use Rattle.std.specs.Prelude.{◌≡◌, ℕ, List, [], Option, Some};
ghost use Rattle.hive_model.specs.Image.{Image};
ghost use Rattle.start_model.specs.Events as events;
ghost use Rattle.start_model.specs.Possible.{Woken, Outcome};
ghost use Rattle.start_model.specs.Act.{RunState};
ghost use Rattle.start_model.specs.Boot.{Choice};
ghost use Rattle.start_model.specs.EventActs.{event_step_of};
ghost use Rattle.start_model.specs.Run.{play, run_from};
ghost use Rattle.start_model.specs.Fits.{MayLoad};
ghost use Rattle.run_laws.specs.run_laws.Open.{IsClosed};

/// Where no start runs or nothing is open, the run with no more wakes and outcomes may load as each image that the
/// disk may load as now. Each event, and so each run, ends where no start runs or nothing is open.
pub fn with_nothing_more_the_disk_may_load_as_before()
    ensures may { (choice : Option ℕ → Choice) (script : List events.Event) (m : RunState) (c : Image)
        → IsClosed m → MayLoad m.disk c → MayLoad (run_from choice script m [] []).disk c }
    ensures event { (choice : Option ℕ → Choice) (e : events.Event) (m : RunState) (wakes : List Woken) (outcomes : List Outcome) (after : RunState)
        (left : List Woken) (over : List Outcome)
        → IsClosed m → (play (event_step_of choice e m) wakes outcomes).rest ≡ Some (after, left, over) → IsClosed after }
    ensures run { (choice : Option ℕ → Choice) (script : List events.Event) (m : RunState) (wakes : List Woken) (outcomes : List Outcome)
        (last : RunState) (left : List Woken) (over : List Outcome)
        → IsClosed m → (run_from choice script m wakes outcomes).rest ≡ Some (last, left, over) → IsClosed last }
{}
