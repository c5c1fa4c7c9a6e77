//! Which names are vital.

ghost use Rattle.std.specs.Prelude.{◌≡◌, ℕ, false, List, [], Option, Some};
ghost use Rattle.std.specs.List.{AllPairs, list_any};
ghost use Rattle.nt_bytes.specs.Folding.{folds_same};
ghost use Rattle.start_model.specs.Events as events;
ghost use Rattle.start_model.specs.Events.{Vital};
ghost use Rattle.start_model.specs.Machine.{requiring};
ghost use Rattle.start_model.specs.Possible.{Woken, Outcome};
ghost use Rattle.start_model.specs.Act.{RunState, with_machine};
ghost use Rattle.start_model.specs.Boot.{Choice};
ghost use Rattle.start_model.specs.EventActs.{event_step_of};
ghost use Rattle.start_model.specs.Run.{play, reached};
ghost use Rattle.run_laws.specs.run_laws.Parts.{part_of};
ghost use Rattle.kept_laws.specs.vital_laws.Asked.{AreNotVital, asks_for, vital_behind};

/// The vital names are those that the script has asked for so far, whatever becomes of the starts: each once, by fold.
/// A script without a `vital` line has none.
pub fn the_vital_names_are_those_of_the_script()
    ensures kept { (choice : Option ℕ → Choice) (es : List events.Event) (first : RunState) (wakes : List Woken) (outcomes : List Outcome)
        (m : RunState) (w : List Woken) (o : List Outcome)
        → (part_of choice es first wakes outcomes).rest ≡ Some (m, w, o) → m.machine.vital ≡ vital_behind first.machine.vital es }
    ensures asked { (es : List events.Event) (name : List ℕ) → list_any (folds_same name) (vital_behind [] es) ≡ list_any (asks_for name) es }
    ensures once { (es : List events.Event) → AllPairs (λ a b. folds_same a b ≡ false) (vital_behind [] es) }
    ensures none { (es : List events.Event) → AreNotVital es → vital_behind [] es ≡ [] }
{}

/// A `vital` line is never refused, says nothing, and asks nothing of the disk: it notes the name, and all else stays.
pub fn a_vital_line_only_notes()
    ensures { (choice : Option ℕ → Choice) (name : List ℕ) (m : RunState) (wakes : List Woken) (outcomes : List Outcome)
        → play (event_step_of choice (Vital name) m) wakes outcomes ≡ reached (with_machine (requiring name m.machine) m) wakes outcomes }
{}
