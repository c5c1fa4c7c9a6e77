//! Which starts pass their boot phase.

ghost use Rattle.std.specs.Prelude.{◌≡◌, ℕ, true, false, map, filter, not, List, [], ◌∷◌, ◌++◌, Option, Some};
ghost use Rattle.std.specs.List.{All, Contains};
ghost use Rattle.report_words.specs.declared.words.Verdict.TheVariants as verdicts;
ghost use Rattle.report_words.specs.declared.words.PhaseWord.TheVariants as phases;
ghost use Rattle.report_words.specs.declared.line.Line.{Line};
ghost use Rattle.report_words.specs.declared.line.Line.TheVariants.{Phase as PhaseLine, Unmet as UnmetLine, Vital as VitalLine};
ghost use Rattle.start_model.specs.Entries.{Boot};
ghost use Rattle.start_model.specs.Events as events;
ghost use Rattle.start_model.specs.Ready.{has_name};
ghost use Rattle.start_model.specs.Machine.{Start, is_boot, unmet_in};
ghost use Rattle.start_model.specs.Possible.{Woken, Outcome};
ghost use Rattle.start_model.specs.Act.{RunState, Act, say_all, end_with};
ghost use Rattle.start_model.specs.Boot.{Choice};
ghost use Rattle.start_model.specs.Starter.{phase_begun, phase_step};
ghost use Rattle.start_model.specs.EventActs.{event_step_of};
ghost use Rattle.start_model.specs.Run.{play, first_state};
ghost use Rattle.run_laws.specs.run_laws.Parts.{part_of};
ghost use Rattle.kept_laws.specs.vital_laws.Asked.{vital_behind};
ghost use Rattle.kept_laws.specs.vital_laws.Told.{started_by};

/// After the events of a script one more is played. Where it prints that the system phase begins, each name that was vital
/// then had a good attempt in this start, by the lines before. Where it prints that a vital name is missing, that is one of
/// those, and had none.
pub fn no_start_passes_its_boot_phase_without_a_vital_name()
    ensures passed { (choice : Option ℕ → Choice) (script : List events.Event) (e : events.Event) (placed : Woken) (wakes : List Woken)
        (outcomes : List Outcome) (m : RunState) (w : List Woken) (o : List Outcome) (before : List Line) (after : List Line)
        → (part_of choice script (first_state placed) wakes outcomes).rest ≡ Some (m, w, o)
        → (play (event_step_of choice e m) w o).lines ≡ before ++ PhaseLine phases.System ∷ after
        → All (λ name. started_by name false ((part_of choice script (first_state placed) wakes outcomes).lines ++ before) ≡ true)
        (vital_behind [] (script ++ e ∷ [])) }
    ensures missing { (choice : Option ℕ → Choice) (script : List events.Event) (e : events.Event) (placed : Woken) (wakes : List Woken)
        (outcomes : List Outcome) (m : RunState) (w : List Woken) (o : List Outcome) (before : List Line) (after : List Line) (name : List ℕ)
        → (part_of choice script (first_state placed) wakes outcomes).rest ≡ Some (m, w, o)
        → (play (event_step_of choice e m) w o).lines ≡ before ++ VitalLine name ∷ after
        → Contains (vital_behind [] (script ++ e ∷ [])) name
        × (started_by name false ((part_of choice script (first_state placed) wakes outcomes).lines ++ before) ≡ false) }
{}

/// Where every vital name was started, and in each later phase, the phase ends as if none were vital. Else each vital
/// name that was not started is printed, in their order, and the start stops.
pub fn a_phase_goes_on_where_nothing_vital_is_missing()
    ensures goes_on { (s : Start) (m : RunState) (next : RunState → Act) → All (λ name. has_name s.started name ≡ true) m.machine.vital
        → phase_step s m next ≡ say_all (map UnmetLine (unmet_in s)) (phase_begun s m next) }
    ensures later { (s : Start) (m : RunState) (next : RunState → Act) → is_boot s.phase ≡ false
        → phase_step s m next ≡ say_all (map UnmetLine (unmet_in s)) (phase_begun s m next) }
    ensures stops { (s : Start) (m : RunState) (next : RunState → Act) (name : List ℕ) → s.phase ≡ Boot → Contains m.machine.vital name
        → has_name s.started name ≡ false → phase_step s m next ≡ say_all (map UnmetLine (unmet_in s))
        (say_all (map VitalLine (filter (λ name. not (has_name s.started name)) m.machine.vital)) (end_with verdicts.Stopped false m)) }
{}
