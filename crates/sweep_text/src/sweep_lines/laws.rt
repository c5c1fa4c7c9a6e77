//! What the lines between are.

ghost use Rattle.std.specs.Prelude.{◌≡◌, ℕ, List, [], ◌∷◌, ◌++◌, map, Option};
ghost use Rattle.start_model.specs.Boot.{Choice};
ghost use Rattle.start_model.specs.Events.{Event};
ghost use Rattle.report_words.specs.declared.line.Line.{Line};
ghost use Rattle.start_model.specs.Lines.{line_text, text_of};
ghost use Rattle.start_model.specs.Machine.{Start};
ghost use Rattle.start_model.specs.Possible.{Woken};
ghost use Rattle.start_model.specs.Quiet.{quiet_run_of};
ghost use Rattle.start_model.specs.Run.{first_state};
ghost use Rattle.sweep_text.specs.sweep_lines.Probe.{probe, tail_of};
ghost use Rattle.sweep_text.specs.sweep_lines.Pieces.{pieces_of, lines_between};
ghost use Rattle.sweep_text.specs.sweep_lines.Swept.{state_after, lines_after, swept_by};

/// Where the one report has the lines of the events before, and the other those and an event's, each with the probe's line and an end
/// after them, the lines between are the event's.
pub fn the_lines_of_an_event_are_found()
    ensures { (front said : List Line) (first last : Option Start) (before whole : List ℕ) → before ≡ text_of (front ++ tail_of first)
        → whole ≡ text_of ((front ++ said) ++ tail_of last)
        → map (λ (t : List ℕ). t ++ 10 ∷ []) (lines_between (pieces_of before) (pieces_of whole)) ≡ map line_text said }
{}

/// The quiet runs of events and of the same with one more, each with the probe after them, say such reports. The second ends in the
/// state that the event reaches.
pub fn the_probe_parts_the_lines()
    ensures before { (choice : Option ℕ → Choice) (before : List Event) (placed : Woken)
        → (quiet_run_of choice (before ++ probe ∷ []) placed).lines
        ≡ lines_after choice before (first_state placed) ++ tail_of (state_after choice before (first_state placed)).machine.start }
    ensures whole { (choice : Option ℕ → Choice) (before : List Event) (event : Event) (placed : Woken)
        → (quiet_run_of choice (before ++ event ∷ probe ∷ []) placed).lines
        ≡ (lines_after choice before (first_state placed) ++ (swept_by choice before event placed).lines)
        ++ tail_of (swept_by choice before event placed).state.machine.start }
    ensures state { (choice : Option ℕ → Choice) (before : List Event) (event : Event) (placed : Woken)
        → (quiet_run_of choice (before ++ event ∷ probe ∷ []) placed).state ≡ (swept_by choice before event placed).state }
{}
