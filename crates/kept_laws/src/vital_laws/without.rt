//! What a script says without its `vital` lines.

ghost use Rattle.std.specs.Prelude.{◌≡◌, ℕ, true, false, List, ◌∷◌, ◌++◌, Option};
ghost use Rattle.std.specs.List.{list_any};
ghost use Rattle.nt_bytes.specs.Front.{IsFront};
ghost use Rattle.report_words.specs.declared.line.Line.{Line};
ghost use Rattle.start_model.specs.Events as events;
ghost use Rattle.start_model.specs.Possible.{Woken, Outcome};
ghost use Rattle.start_model.specs.Boot.{Choice};
ghost use Rattle.start_model.specs.Run.{run_of};
ghost use Rattle.kept_laws.specs.vital_laws.Without.{without_vital, is_missing_line};

/// Where no line says that a vital name is missing, the script without its `vital` lines says the same, and does the same
/// to the disk. Else what it prints begins with all that stands before the first such line. Whatever the disk wakes up
/// with and however its operations end.
pub fn a_script_whose_starts_pass_reads_the_same_without_vital_lines()
    ensures lines { (choice : Option ℕ → Choice) (script : List events.Event) (placed : Woken) (wakes : List Woken) (outcomes : List Outcome)
        → list_any is_missing_line (run_of choice script placed wakes outcomes).lines ≡ false
        → (run_of choice (without_vital script) placed wakes outcomes).lines ≡ (run_of choice script placed wakes outcomes).lines }
    ensures notes { (choice : Option ℕ → Choice) (script : List events.Event) (placed : Woken) (wakes : List Woken) (outcomes : List Outcome)
        → list_any is_missing_line (run_of choice script placed wakes outcomes).lines ≡ false
        → (run_of choice (without_vital script) placed wakes outcomes).notes ≡ (run_of choice script placed wakes outcomes).notes }
    ensures front { (choice : Option ℕ → Choice) (script : List events.Event) (placed : Woken) (wakes : List Woken) (outcomes : List Outcome)
        (before : List Line) (l : Line) (after : List Line)
        → (run_of choice script placed wakes outcomes).lines ≡ before ++ l ∷ after → is_missing_line l ≡ true
        → list_any is_missing_line before ≡ false → IsFront (run_of choice (without_vital script) placed wakes outcomes).lines before }
{}
