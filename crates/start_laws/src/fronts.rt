//! Runs that have more to go on.

ghost use Rattle.std.specs.Prelude.{◌≡◌, ℕ, List, ◌++◌, Option, Some};
ghost use Rattle.hive_model.specs.Tree.{Tree};
ghost use Rattle.start_model.specs.Events as events;
ghost use Rattle.start_model.specs.Possible.{Woken, Outcome};
ghost use Rattle.start_model.specs.Act.{RunState};
ghost use Rattle.start_model.specs.Boot.{Choice};
ghost use Rattle.start_model.specs.Run.{first_state, run_of};
ghost use Rattle.start_model.specs.Fits.{IsGoodSet, held_in, saved_in};
ghost use Rattle.run_laws.specs.run_laws.Parts.{part_of};
ghost use Rattle.start_laws.specs.Fronts.{IsFrontOfRun, TakesInOrder};

/// Wakes and outcomes are taken in their order, the first ones first. What a run says when they run out is a front
/// of what it says with more; where it did not run out, more of them are left over and change nothing.
pub fn wakes_and_outcomes_are_taken_in_order()
    ensures front { (choice : Option ℕ → Choice) (script : List events.Event) (placed : Woken) (wakes : List Woken) (outcomes : List Outcome)
        (w : List Woken) (o : List Outcome)
        → IsFrontOfRun (run_of choice script placed wakes outcomes) (run_of choice script placed (wakes ++ w) (outcomes ++ o)) }
    ensures taken { (choice : Option ℕ → Choice) (script : List events.Event) (placed : Woken) (wakes : List Woken) (outcomes : List Outcome)
        (m : RunState) (left : List Woken) (over : List Outcome)
        → (run_of choice script placed wakes outcomes).rest ≡ Some (m, left, over) → TakesInOrder (run_of choice script placed) wakes outcomes m left over }
    ensures left_over { (choice : Option ℕ → Choice) (script : List events.Event) (placed : Woken) (wakes : List Woken) (outcomes : List Outcome)
        (m : RunState) (left : List Woken) (over : List Outcome) (w : List Woken) (o : List Outcome)
        → (run_of choice script placed wakes outcomes).rest ≡ Some (m, left, over)
        → run_of choice script placed (wakes ++ w) (outcomes ++ o)
        ≡ record (run_of choice script placed wakes outcomes) { rest = Some (m, left ++ w, over ++ o) } }
{}

/// What the first events of a script say and note is a prefix of what a run over more events does.
pub fn more_events_go_on()
    ensures { (choice : Option ℕ → Choice) (script : List events.Event) (more : List events.Event) (placed : Woken) (wakes : List Woken)
        (outcomes : List Outcome)
        → IsFrontOfRun (part_of choice script (first_state placed) wakes outcomes) (run_of choice (script ++ more) placed wakes outcomes) }
{}

/// A set that is good stays good: more trees, clones, events, wakes and outcomes take none away.
pub fn good_sets_only_grow()
    ensures grow { (trees : List Tree) (more : List Tree) (clones : List Tree) (later : List Tree) (set : Tree)
        → IsGoodSet trees clones set → IsGoodSet (trees ++ more) (clones ++ later) set }
    ensures with_more { (choice : Option ℕ → Choice) (script : List events.Event) (placed : Woken) (wakes : List Woken) (outcomes : List Outcome)
        (w : List Woken) (o : List Outcome) (set : Tree)
        → IsGoodSet (held_in (run_of choice script placed wakes outcomes).notes) (saved_in (run_of choice script placed wakes outcomes).notes) set
        → IsGoodSet (held_in (run_of choice script placed (wakes ++ w) (outcomes ++ o)).notes)
        (saved_in (run_of choice script placed (wakes ++ w) (outcomes ++ o)).notes) set }
    ensures with_more_events { (choice : Option ℕ → Choice) (script : List events.Event) (more : List events.Event) (placed : Woken)
        (wakes : List Woken) (outcomes : List Outcome) (set : Tree)
        → IsGoodSet (held_in (part_of choice script (first_state placed) wakes outcomes).notes)
        (saved_in (part_of choice script (first_state placed) wakes outcomes).notes) set
        → IsGoodSet (held_in (run_of choice (script ++ more) placed wakes outcomes).notes)
        (saved_in (run_of choice (script ++ more) placed wakes outcomes).notes) set }
{}
