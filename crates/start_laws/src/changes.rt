//! What the plans of a beginning and of a save make of the tree that they are planned for.

ghost use Rattle.std.specs.Prelude.{◌≡◌, ◌≤◌, ◌<◌, ◌^◌, Bool, true, [], ◌∷◌, length, Ok, Err, codes};
ghost use Rattle.std.specs.Option.{is_some};
ghost use Rattle.nt_bytes.specs.declared.version.HiveVersion.{HiveVersion};
ghost use Rattle.hive_model.specs.Tree.{Tree, find_key};
ghost use Rattle.hive_model.specs.Valid.{levels};
ghost use Rattle.hive_model.specs.Edit.{Refusal, full};
ghost use Rattle.start_model.specs.Sets.{SetPlan, SetChange, select_numbers_of, usable_numbers_of, begin_plan_of, save_plan_of, stepped, begin_of, save_of};
ghost use Rattle.start_laws.specs.Changes.{Begins, Saves};

/// A plan with steps changes the tree by which it was made, and one without steps leaves it.
pub fn a_plan_with_steps_changes_the_tree()
    ensures begin { (version : HiveVersion) (t : Tree) (on_good : Bool) (plan : SetPlan) (u : Tree)
        → begin_plan_of (select_numbers_of t) (usable_numbers_of t) on_good ≡ Ok plan
        → stepped version t plan.steps ≡ Ok u → (length plan.steps ≡ 0 → ⊥) → u ≡ t → ⊥ }
    ensures save { (version : HiveVersion) (t : Tree) (clone : Tree) (plan : SetPlan) (u : Tree)
        → save_plan_of (select_numbers_of t) (usable_numbers_of t) clone ≡ Ok plan
        → stepped version t plan.steps ≡ Ok u → u ≡ t → ⊥ }
    ensures none { (version : HiveVersion) (t : Tree) (plan : SetPlan) → length plan.steps ≡ 0 → stepped version t plan.steps ≡ Ok t }
{}

/// No step of such a plan is refused but for the size of the result. A save asks for the key `Select`, and that the
/// clone has room for one more level above it.
pub fn a_plan_is_refused_only_for_size()
    ensures begin { (version : HiveVersion) (t : Tree) (on_good : Bool) (plan : SetPlan) (why : Refusal)
        → begin_plan_of (select_numbers_of t) (usable_numbers_of t) on_good ≡ Ok plan
        → stepped version t plan.steps ≡ Err why → why ≡ full }
    ensures save { (version : HiveVersion) (t : Tree) (clone : Tree) (plan : SetPlan) (why : Refusal)
        → is_some (find_key (codes "Select" ∷ []) t) ≡ true → levels clone ≤ 511
        → save_plan_of (select_numbers_of t) (usable_numbers_of t) clone ≡ Ok plan → stepped version t plan.steps ≡ Err why → why ≡ full }
{}

/// After a beginning LastKnownGood is not the taken set, and where it named a set it names one that is equal but for
/// its name. What retires is gone, and all else is as it was.
pub fn a_beginning_keeps_last_known_good()
    ensures { (version : HiveVersion) (t : Tree) (on_good : Bool) (change : SetChange) → begin_of version t on_good ≡ Ok change
        → Begins t on_good change.chosen change.tree }
{}

/// A save adds the clone under the lowest number that named no set, and LastKnownGood becomes that number. What retires
/// is gone, and all else is as it was.
pub fn a_save_adds_the_clone()
    ensures { (version : HiveVersion) (t : Tree) (clone : Tree) (change : SetChange) → save_of version t clone ≡ Ok change
        → Saves t clone change.chosen change.tree }
{}

/// The numbers that the line `select` says are those of `Select` in the tree that was made. A beginning asks that Default
/// was below 2^32, as each number is that is read from four bytes.
pub fn the_select_line_says_what_select_is()
    ensures begin { (version : HiveVersion) (t : Tree) (on_good : Bool) (change : SetChange) → begin_of version t on_good ≡ Ok change
        → (select_numbers_of t).default < 2 ^ 32 → change.numbers ≡ select_numbers_of change.tree }
    ensures save { (version : HiveVersion) (t : Tree) (clone : Tree) (change : SetChange) → save_of version t clone ≡ Ok change
        → change.numbers ≡ select_numbers_of change.tree }
{}
