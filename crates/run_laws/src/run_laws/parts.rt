//! A run event by event, as a loop over the script goes.

ghost use Rattle.std.specs.Prelude.{◌≡◌, ℕ, List, [], ◌∷◌, ◌++◌, Option};
ghost use Rattle.report_words.specs.declared.line.Line.{Line};
ghost use Rattle.start_model.specs.Events as events;
ghost use Rattle.start_model.specs.Possible.{Woken, Outcome};
ghost use Rattle.start_model.specs.Act.{RunState};
ghost use Rattle.start_model.specs.Boot.{Choice};
ghost use Rattle.start_model.specs.EventActs.{event_step_of};
ghost use Rattle.start_model.specs.Run.{RunResult, play, behind, then_run, run_from};
ghost use Rattle.run_laws.specs.run_laws.Parts.{run_until, part_of, ended};

/// An event that takes wakes and outcomes of its own stands after the events before it; after the last
/// one stand the closing lines. A run that is given up within an event begins with what that event said.
pub fn a_run_goes_on_event_by_event()
    ensures pushed { (choice : Option ℕ → Choice) (es : List events.Event) (e : events.Event) (first : RunState) (wakes : List Woken)
        (outcomes : List Outcome) (m : RunState) (w : List Woken) (o : List Outcome)
        → (part_of choice es first wakes outcomes).rest ≡ Some (m, [], [])
        → part_of choice (es ++ e ∷ []) first (wakes ++ w) (outcomes ++ o)
        ≡ behind (part_of choice es first wakes outcomes).lines (part_of choice es first wakes outcomes).notes (play (event_step_of choice e m) w o) }
    ensures ended { (choice : Option ℕ → Choice) (es : List events.Event) (first : RunState) (wakes : List Woken) (outcomes : List Outcome) (m : RunState)
        → (part_of choice es first wakes outcomes).rest ≡ Some (m, [], [])
        → run_from choice es first wakes outcomes
        ≡ behind (part_of choice es first wakes outcomes).lines (part_of choice es first wakes outcomes).notes (ended m [] []) }
    ensures given_up { (choice : Option ℕ → Choice) (es : List events.Event) (e : events.Event) (more : List events.Event) (first : RunState)
        (wakes : List Woken) (outcomes : List Outcome) (m : RunState) (w : List Woken) (o : List Outcome)
        → (part_of choice es first wakes outcomes).rest ≡ Some (m, [], [])
        → run_from choice (es ++ e ∷ more) first (wakes ++ w) (outcomes ++ o)
        ≡ behind (part_of choice es first wakes outcomes).lines (part_of choice es first wakes outcomes).notes
        (then_run (run_until ended choice more) (play (event_step_of choice e m) w o) (play (event_step_of choice e m) w o).rest) }
    ensures begins { (go : RunState → List Woken → List Outcome → RunResult) (first : RunResult) (rest : Option (RunState × List Woken × List Outcome))
        → (tail : List Line) × ((then_run go first rest).lines ≡ first.lines ++ tail) }
{}
