//! The numbers that a report prints, in their order.

ghost use Rattle.std.specs.Prelude.{◌≡◌, true, ℕ, List, ◌∷◌, ◌++◌, Option, Some};
ghost use Rattle.hive_model.specs.Image.{Image, Write, IsCrashImage};
ghost use Rattle.hive_model.specs.Load.{Loads};
ghost use Rattle.start_model.specs.Events as events;
ghost use Rattle.report_words.specs.declared.line.Line.{Line};
ghost use Rattle.start_model.specs.Possible.{Woken, Outcome};
ghost use Rattle.start_model.specs.Boot.{Choice};
ghost use Rattle.start_model.specs.Run.{run_of};
ghost use Rattle.start_model.specs.Report.{Report};
ghost use Rattle.start_model.specs.Fits.{ArePossible, MayLoad, woke_in, outcomes_of};
ghost use Rattle.run_laws.specs.commit_laws.Numbers.{number_of, AreUnnumbered, tell_stop, MayBeUnder, IsNext};

/// After a line that says a number, of a commit or a load, the next line with a number says what follows (`IsNext`): a load the
/// same number, or one more where a stop was reported between them; a commit one more, and no stop was reported. It holds of each run whose
/// wakes may be (`run`), so of each report (`report`).
pub fn each_number_in_a_report_follows_the_one_before()
    ensures run { (choice : Option ℕ → Choice) (script : List events.Event) (placed : Woken) (wakes : List Woken) (outcomes : List Outcome)
        (before : List Line) (between : List Line) (after : List Line) (first : Line) (second : Line) (number : ℕ)
        → ArePossible wakes (woke_in (run_of choice script placed wakes outcomes).notes)
        → (run_of choice script placed wakes outcomes).lines ≡ before ++ first ∷ between ++ second ∷ after
        → number_of first ≡ Some number → AreUnnumbered between → IsNext number (tell_stop between) second }
    ensures report { (choice : Option ℕ → Choice) (script : List events.Event) (placed : Woken) (images : List Image) (held : Image)
        (flight : List Write) (text : List ℕ) (r : Report (run_of choice script placed) images (IsCrashImage held flight) text)
        (before : List Line) (between : List Line) (after : List Line) (first : Line) (second : Line) (number : ℕ)
        → (run_of choice script placed r.woken (outcomes_of text)).lines ≡ before ++ first ∷ between ++ second ∷ after
        → number_of first ≡ Some number → AreUnnumbered between → IsNext number (tell_stop between) second }
{}

/// After the last line of a report that says a number, each image that the disk may be left as loads under that number, or one more
/// where a stop was reported since (`report`). Of a run that gives out for want of a wake or an outcome, what the disk may load as
/// there is under it or one more (`gives_out`): so each wake is, whether its load was done or not.
pub fn the_disk_loads_under_the_last_number_or_the_next()
    ensures report { (choice : Option ℕ → Choice) (script : List events.Event) (placed : Woken) (images : List Image) (held : Image)
        (flight : List Write) (text : List ℕ) (r : Report (run_of choice script placed) images (IsCrashImage held flight) text)
        (before : List Line) (after : List Line) (first : Line) (number : ℕ)
        → (run_of choice script placed r.woken (outcomes_of text)).lines ≡ before ++ first ∷ after
        → number_of first ≡ Some number → AreUnnumbered after → (c : Image) → IsCrashImage held flight c
        → (w : Woken) × (Loads c w.state w.dirty × MayBeUnder number (tell_stop after) w.state.sequence) }
    ensures gives_out { (choice : Option ℕ → Choice) (script : List events.Event) (placed : Woken) (wakes : List Woken) (outcomes : List Outcome)
        (before : List Line) (after : List Line) (first : Line) (number : ℕ)
        → ArePossible wakes (woke_in (run_of choice script placed wakes outcomes).notes)
        → (run_of choice script placed wakes outcomes).lines ≡ before ++ first ∷ after
        → number_of first ≡ Some number → AreUnnumbered after
        → (c : Image) → MayLoad (run_of choice script placed wakes outcomes).disk c
        → (w : Woken) × (Loads c w.state w.dirty × MayBeUnder number true w.state.sequence) }
{}
