//! The last commit in a report is on the disk.

ghost use Rattle.std.specs.Prelude.{◌≡◌, ℕ, List, [], ◌∷◌, ◌++◌, Option, Some, false};
ghost use Rattle.hive_model.specs.Image.{Image, Write, IsCrashImage};
ghost use Rattle.hive_model.specs.Load.{Loads};
ghost use Rattle.start_model.specs.Events as events;
ghost use Rattle.report_words.specs.declared.words.CommitWord.{CommitWord};
ghost use Rattle.report_words.specs.declared.line.Line.{Line};
ghost use Rattle.report_words.specs.declared.line.Line.TheVariants.{Commit as CommitLine};
ghost use Rattle.start_model.specs.Possible.{Woken, Outcome, settled_at};
ghost use Rattle.start_model.specs.Act.{RunState};
ghost use Rattle.start_model.specs.Boot.{Choice};
ghost use Rattle.start_model.specs.Run.{run_of};
ghost use Rattle.start_model.specs.Report.{Report};
ghost use Rattle.start_model.specs.Fits.{outcomes_in, outcomes_of};

/// Where the last operation that the lines of a run report is a commit, the disk is settled in the end, under the number of that
/// line (`last`): so each image that it may be left as loads under it, without its log (`loads`).
pub fn the_last_commit_in_a_report_is_on_the_disk()
    ensures last { (choice : Option ℕ → Choice) (script : List events.Event) (placed : Woken) (wakes : List Woken) (outcomes : List Outcome)
        (last : RunState) (left : List Woken) (over : List Outcome) (before : List Line) (after : List Line) (what : CommitWord) (number : ℕ)
        → (run_of choice script placed wakes outcomes).rest ≡ Some (last, left, over)
        → (run_of choice script placed wakes outcomes).lines ≡ before ++ CommitLine what number ∷ after → outcomes_in after ≡ []
        → (last.disk ≡ settled_at last.disk.settled) × (last.disk.settled.sequence ≡ number) }
    ensures loads { (choice : Option ℕ → Choice) (script : List events.Event) (placed : Woken) (images : List Image) (held : Image)
        (flight : List Write) (text : List ℕ) (r : Report (run_of choice script placed) images (IsCrashImage held flight) text)
        (before : List Line) (after : List Line) (what : CommitWord) (number : ℕ)
        → (run_of choice script placed r.woken (outcomes_of text)).lines ≡ before ++ CommitLine what number ∷ after → outcomes_in after ≡ []
        → (c : Image) → IsCrashImage held flight c → Loads c r.last.disk.settled false × (r.last.disk.settled.sequence ≡ number) }
{}
