//! Which set a start takes, and what becomes of the others.

ghost use Rattle.std.specs.Prelude.{◌≡◌, ℕ, Bool, true, false, List, [], ◌∷◌, Some, None, Ok, Err, codes};
ghost use Rattle.std.specs.List.{range_with_len};
ghost use Rattle.nt_bytes.specs.declared.version.HiveVersion.TheVariants.{V3};
ghost use Rattle.hive_model.specs.Tree.{Tree};
ghost use Rattle.hive_model.specs.Load.{state_of};
ghost use Rattle.report_words.specs.declared.words.Verdict.TheVariants.{NoNumber};
ghost use Rattle.report_words.specs.declared.line.Line.TheVariants.{Set as SetLine, SaveRefused as SaveRefusedLine};
ghost use Rattle.start_model.specs.Machine.{Start};
ghost use Rattle.start_model.specs.Sets.{SelectNumbers, NoFreeNumber, has_number, select_numbers_of, usable_numbers_of, free_number_of, taken_number, begin_plan_of, save_plan_of, begin_of};
ghost use Rattle.start_model.specs.Possible.{settled_at};
ghost use Rattle.start_model.specs.Act.{RunState, Act, say, end_with};
ghost use Rattle.start_model.specs.Commit.{save, noted_saved};
ghost use Rattle.start_model.specs.Boot.{take_set};
ghost use Rattle.start_laws.specs.Taken.{AllTaken};
ghost use Rattle.start_laws.specs.Written.{begun_as, select, set_with, service, system, report, run_with, lines};
ghost use Rattle.start_laws.specs.TwoSets.{unguarded, disables_the_disk, disk_only, left_behind, new_driver};

/// Where LastKnownGood names the set that is taken, a copy is kept for it, which edits leave alone.
pub fn a_start_guards_what_it_takes()
    ensures said { report unguarded disables_the_disk ≡ lines (
        codes "start 1"
        ∷ codes "entry 1 multi(0)disk(0)rdisk(0)partition(1)\\WINDOWS"
        ∷ codes "load 5 clean"
        ∷ codes "set 1 default"
        ∷ codes "commit begin 6"
        ∷ codes "select 1 1 0 2"
        ∷ codes "phase boot"
        ∷ codes "edit ok"
        ∷ codes "commit off 7"
        ∷ codes "verdict running"
        ∷ codes "end"
        ∷ []) }
    ensures kept { (run_with unguarded disables_the_disk 3).disk ≡ settled_at (state_of
        (system (disk_only 1 4 ∷ disk_only 2 0 ∷ select 1 1 0 2 ∷ [])) 7 V3) }
{}

/// A set that one of the numbers named and none names any more is deleted, with or without the guard.
pub fn a_set_that_no_number_names_retires()
    ensures alone { begin_of V3 (left_behind 2) false ≡ Ok (begun_as 1 1 1 0 2 (system (disk_only 1 0 ∷ disk_only 2 0 ∷ select 1 1 0 2 ∷ []))) }
    ensures guarded { begin_of V3 (left_behind 1) false
        ≡ Ok (begun_as 1 1 1 0 4 (system (disk_only 1 0 ∷ disk_only 2 0 ∷ disk_only 4 0 ∷ select 1 1 0 4 ∷ []))) }
    ensures failed { begin_of V3 new_driver true ≡ Ok (begun_as 2 2 2 1 3 (system
        (set_with 1 (service (codes "Disk") 0 1 1 [] ∷ service (codes "New") 0 1 2 [] ∷ []) ∷ disk_only 2 0 ∷ disk_only 3 0 ∷ select 2 2 1 3 ∷ []))) }
{}

/// Where each number from 1 to 999 names a set, none is free: a start that needs the guard is not begun, and
/// a good start is not saved.
pub fn all_numbers_are_taken()
    ensures such { AllTaken (range_with_len 1 999) }
    ensures none_free { (usable : List ℕ) → AllTaken usable → free_number_of usable ≡ None }
    ensures not_guarded { (numbers : SelectNumbers) (usable : List ℕ) (on_good : Bool)
        → AllTaken usable → has_number usable (taken_number numbers on_good) ≡ true → numbers.good ≡ taken_number numbers on_good
        → begin_plan_of numbers usable on_good ≡ Err NoFreeNumber }
    ensures not_saved { (numbers : SelectNumbers) (usable : List ℕ) (clone : Tree) → AllTaken usable → save_plan_of numbers usable clone ≡ Err NoFreeNumber }
    ensures begins_not { (m : RunState) (on_good : Bool)
        → AllTaken (usable_numbers_of m.live) → has_number (usable_numbers_of m.live) (taken_number (select_numbers_of m.live) on_good) ≡ true
        → (select_numbers_of m.live).good ≡ taken_number (select_numbers_of m.live) on_good
        → take_set on_good m ≡ say (SetLine (taken_number (select_numbers_of m.live) on_good) on_good) (end_with NoNumber false m) }
    ensures goes_on { (s : Start) (clone : Tree) (m : RunState) (next : RunState → Act) → AllTaken (usable_numbers_of m.live)
        → save s (Some clone) m next ≡ say (SaveRefusedLine false) (next (noted_saved false s m)) }
{}
