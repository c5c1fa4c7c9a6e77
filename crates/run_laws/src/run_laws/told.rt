//! What a wake expects: every change that was acknowledged.

ghost use Rattle.std.specs.Prelude.{◌≡◌, ◌⊎◌, ℕ, true, false, List, [], ◌∷◌, ◌++◌, Option, None};
ghost use Rattle.hive_model.specs.Tree.{Tree};
ghost use Rattle.report_words.specs.declared.words.CommitWord.{CommitWord};
ghost use Rattle.report_words.specs.declared.line.Line.TheVariants.{Commit as CommitLine};
ghost use Rattle.start_model.specs.Events as events;
ghost use Rattle.start_model.specs.Possible.{Possible, Woken, Outcome, Finished, settled_at};
ghost use Rattle.start_model.specs.Act.{RunState, Act, Note, Woke, Held, Ended, next_state};
ghost use Rattle.start_model.specs.Commit.{committed_state, commit};
ghost use Rattle.start_model.specs.Boot.{Choice};
ghost use Rattle.start_model.specs.Run.{play, behind, run_from, run_of};
ghost use Rattle.run_laws.specs.run_laws.Told.{last_held, stopped_last, IsStill};

/// The settled tree of each wake is the one that was loaded or committed last, and so it is of what the disk may load as
/// in the end. Another one is possible only where the last operation was stopped.
pub fn each_wake_has_every_acknowledged_change()
    ensures settled { (choice : Option ℕ → Choice) (script : List events.Event) (placed : Woken) (wakes : List Woken) (outcomes : List Outcome)
        (before : List Note) (after : List Note) (p : Possible)
        → (run_of choice script placed wakes outcomes).notes ≡ before ++ Woke p ∷ after → p.settled.tree ≡ last_held placed.state.tree before }
    ensures other { (choice : Option ℕ → Choice) (script : List events.Event) (placed : Woken) (wakes : List Woken) (outcomes : List Outcome)
        (before : List Note) (after : List Note) (p : Possible)
        → (run_of choice script placed wakes outcomes).notes ≡ before ++ Woke p ∷ after → (p.other ≡ None) ⊎ (stopped_last false before ≡ true) }
    ensures end { (choice : Option ℕ → Choice) (script : List events.Event) (placed : Woken) (wakes : List Woken) (outcomes : List Outcome)
        → (run_of choice script placed wakes outcomes).disk.settled.tree ≡ last_held placed.state.tree (run_of choice script placed wakes outcomes).notes }
{}

/// The line of a commit stands where the disk holds its tree, under the number that the line says; and as long as no
/// other operation ends, the next wake expects just that.
pub fn a_commit_line_settles_its_state()
    ensures line { (what : CommitWord) (tree : Tree) (m : RunState) (next : RunState → Act) (wakes : List Woken) (outcomes : List Outcome)
        → play (commit what tree m next) wakes (Finished ∷ outcomes)
        ≡ behind (CommitLine what (next_state m tree).sequence ∷ []) (Ended Finished ∷ Held tree ∷ []) (play (next (committed_state m tree)) wakes outcomes) }
    ensures settled { (tree : Tree) (m : RunState) → (committed_state m tree).disk ≡ settled_at (next_state m tree) }
    ensures next { (choice : Option ℕ → Choice) (script : List events.Event) (m : RunState) (wakes : List Woken) (outcomes : List Outcome)
        (before : List Note) (after : List Note) (p : Possible)
        → (run_from choice script m wakes outcomes).notes ≡ before ++ Woke p ∷ after → IsStill before → p ≡ m.disk }
{}
