//! Which set LastKnownGood names, from the first load to the last commit.

ghost use Rattle.std.specs.Prelude.{ℕ, List, Option, length, take};
ghost use Rattle.hive_model.specs.Image.{Image, Write, IsCrashImage};
ghost use Rattle.start_model.specs.Events as events;
ghost use Rattle.start_model.specs.Possible.{Woken, Outcome};
ghost use Rattle.start_model.specs.Boot.{Choice};
ghost use Rattle.start_model.specs.Run.{run_of};
ghost use Rattle.start_model.specs.Fits.{ArePossible, woke_in, outcomes_of, KeepsGood};
ghost use Rattle.start_model.specs.Report.{Report, ReportFront};

/// Over every script, whatever the disk woke up with as far as that could be, and however the disk operations ended: from
/// the first tree on in which LastKnownGood names a set, it names in each tree that is loaded or committed, and in each that
/// the disk may load as in the end, a set equal to the one that it named in the first tree, where it named one there, or to
/// one that was saved before, after a good logon. Wakes may be left over where the run ended early (`taken`), or there are as
/// many as were taken (`whole`). So it is of the run whose report a text is (`report`), and of the one of
/// which a text is a front, up to where nothing more happened (`front`).
pub fn last_known_good_names_a_good_set()
    ensures taken { (choice : Option ℕ → Choice) (script : List events.Event) (placed : Woken) (wakes : List Woken) (outcomes : List Outcome)
        → let r = run_of choice script placed wakes outcomes in
        ArePossible (take (length (woke_in r.notes)) wakes) (woke_in r.notes) → KeepsGood r.notes r.disk }
    ensures report { (choice : Option ℕ → Choice) (script : List events.Event) (placed : Woken) (images : List Image) (held : Image)
        (flight : List Write) (text : List ℕ) (r : Report (run_of choice script placed) images (IsCrashImage held flight) text)
        → KeepsGood (run_of choice script placed r.woken (outcomes_of text)).notes (run_of choice script placed r.woken (outcomes_of text)).disk }
    ensures front { (choice : Option ℕ → Choice) (script : List events.Event) (placed : Woken) (images : List Image) (held : Image)
        (flight : List Write) (text : List ℕ) (r : ReportFront (run_of choice script placed) images (IsCrashImage held flight) text)
        → KeepsGood (run_of choice script placed r.woken (outcomes_of text)).notes (run_of choice script placed r.woken (outcomes_of text)).disk }
    ensures whole { (choice : Option ℕ → Choice) (script : List events.Event) (placed : Woken) (wakes : List Woken) (outcomes : List Outcome)
        → let r = run_of choice script placed wakes outcomes in
        ArePossible wakes (woke_in r.notes) → KeepsGood r.notes r.disk }
{}
