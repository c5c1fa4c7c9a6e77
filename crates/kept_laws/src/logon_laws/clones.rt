//! Which set the clone of a start is.

ghost use Rattle.std.specs.Prelude.{◌≡◌, ℕ, List, Option, Some};
ghost use Rattle.hive_model.specs.Image.{Image};
ghost use Rattle.hive_model.specs.Tree.{Tree};
ghost use Rattle.start_model.specs.Events as events;
ghost use Rattle.start_model.specs.Machine.{Start};
ghost use Rattle.start_model.specs.Possible.{Woken, Outcome};
ghost use Rattle.start_model.specs.Act.{RunState};
ghost use Rattle.start_model.specs.Boot.{Choice};
ghost use Rattle.start_model.specs.Run.{run_of};
ghost use Rattle.start_model.specs.Fits.{Fits, woke_in};
ghost use Rattle.kept_laws.specs.logon_laws.Clones.{IsSetWokenWith};

/// After any prefix of a script, the clone of the start that runs is a set of a tree that the disk woke up with.
pub fn a_clone_is_a_set_that_the_disk_woke_up_with()
    ensures { (choice : Option ℕ → Choice) (script : List events.Event) (placed : Woken) (images : List Image) (wakes : List Woken)
        (outcomes : List Outcome) (last : RunState) (left : List Woken) (over : List Outcome) (s : Start) (clone : Tree)
        → Fits images wakes (woke_in (run_of choice script placed wakes outcomes).notes)
        → (run_of choice script placed wakes outcomes).rest ≡ Some (last, left, over) → last.machine.start ≡ Some s → s.clone ≡ Some clone
        → IsSetWokenWith wakes clone }
{}
