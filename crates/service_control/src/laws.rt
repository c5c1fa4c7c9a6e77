//! What holds of the started services, and of the sets that starts and stops go by.

ghost use Rattle.std.specs.Prelude.{◌≡◌, ℕ, ◌<◌, Bool, true, List, length};
ghost use Rattle.hive_model.specs.Tree.{Tree};
ghost use Rattle.start_model.specs.Demand.{Need};
ghost use Rattle.start_model.specs.Ready.{Label};
ghost use Rattle.service_control.specs.State.{ControlState};
ghost use Rattle.service_control.specs.First.{control_of};
ghost use Rattle.service_control.specs.Leaning.{IsClosed, is_leaning, leaning_in};
ghost use Rattle.service_control.specs.Laws.{Call, after_calls, AreMet, AreStoppedInOrder, NamesDiffer, IsLeast};
ghost use Rattle.service_control.specs.Sets.{HasNeeds, is_needed};

/// What a start needs is the least of the sets that have the service and, with each member that is not started, all that it names.
pub fn needed_is_the_least_set()
    ensures closed { (table : List Need) (started : List Label) (name : List ℕ) → HasNeeds table started name (is_needed table started name) }
    ensures least { (table : List Need) (started : List Label) (name : List ℕ) (set : ℕ → Bool) → HasNeeds table started name set
        → (q : ℕ) → q < length table → is_needed table started name q ≡ true → set q ≡ true }
{}

/// What leans on a service is the least of the closed sets.
pub fn leaning_is_the_least_set()
    ensures closed { (running : List Need) (name : List ℕ) → IsClosed running name (is_leaning running name) }
    ensures least { (running : List Need) (name : List ℕ) (set : ℕ → Bool) → IsClosed running name set
        → (q : ℕ) → q < length running → is_leaning running name q ≡ true → set q ≡ true }
{}

/// Over every list of calls the needs of each started service are met, and what it names stands before it.
pub fn needs_are_always_met()
    ensures { (set : Tree) (calls : List Call) → AreMet (after_calls (control_of set) calls).running }
{}

/// Over every list of calls what leans on a service is stopped before that which it names.
pub fn a_stop_goes_backwards()
    ensures { (set : Tree) (calls : List Call) (name : List ℕ) → AreStoppedInOrder (leaning_in (after_calls (control_of set) calls).running name) }
{}

/// A start takes in at most it has to: where the names of the table differ, all that it starts is started by every list of
/// entries that are ready in sequence, and after which the service is started.
pub fn a_start_is_least()
    ensures { (c : ControlState) (name : List ℕ) → NamesDiffer c.by_group → IsLeast c name }
{}
