//! What a save is refused for.

ghost use Rattle.std.specs.Prelude.{◌≡◌, ◌≤◌, ℕ, Bool, List, Option, Some, Ok, Err};
ghost use Rattle.hive_model.specs.Image.{Image};
ghost use Rattle.hive_model.specs.State.{HiveState};
ghost use Rattle.hive_model.specs.Load.{Loads};
ghost use Rattle.hive_model.specs.Tree.{Tree};
ghost use Rattle.hive_model.specs.Valid.{levels};
ghost use Rattle.hive_model.specs.Edit.{Refusal, full};
ghost use Rattle.start_model.specs.Sets.{SetPlan, select_numbers_of, usable_numbers_of, save_plan_of, stepped};
ghost use Rattle.start_model.specs.Machine.{Start};
ghost use Rattle.start_model.specs.Events as events;
ghost use Rattle.start_model.specs.Possible.{Woken, Outcome};
ghost use Rattle.start_model.specs.Act.{RunState};
ghost use Rattle.start_model.specs.Boot.{Choice};
ghost use Rattle.start_model.specs.Run.{run_of};
ghost use Rattle.start_model.specs.Fits.{Fits, woke_in};
ghost use Rattle.kept_laws.specs.good_laws.Ready.{CanBeSaved};

/// Each run keeps `Select` while a start runs, and its clone is a set of a tree that the disk woke up with, so it has at
/// most 511 levels (`ready`). So the plan of a save is refused for nothing but its size (`refused`), and there is none only
/// for want of a free number.
pub fn a_save_is_refused_only_for_number_or_size()
    ensures ready { (choice : Option ℕ → Choice) (script : List events.Event) (placed : Woken) (images : List Image) (wakes : List Woken)
        (outcomes : List Outcome) (last : RunState) (left : List Woken) (over : List Outcome) (s : Start) (clone : Tree)
        → Fits images wakes (woke_in (run_of choice script placed wakes outcomes).notes)
        → (run_of choice script placed wakes outcomes).rest ≡ Some (last, left, over) → last.machine.start ≡ Some s → s.clone ≡ Some clone
        → CanBeSaved last.live clone }
    ensures refused { (choice : Option ℕ → Choice) (script : List events.Event) (placed : Woken) (images : List Image) (wakes : List Woken)
        (outcomes : List Outcome) (last : RunState) (left : List Woken) (over : List Outcome) (s : Start) (clone : Tree) (plan : SetPlan) (why : Refusal)
        → Fits images wakes (woke_in (run_of choice script placed wakes outcomes).notes)
        → (run_of choice script placed wakes outcomes).rest ≡ Some (last, left, over) → last.machine.start ≡ Some s → s.clone ≡ Some clone
        → save_plan_of (select_numbers_of last.live) (usable_numbers_of last.live) clone ≡ Ok plan
        → stepped last.version last.live plan.steps ≡ Err why → why ≡ full }
    ensures loaded { (image : Image) (state : HiveState) (dirty : Bool) → Loads image state dirty → levels state.tree ≤ 512 }
{}
