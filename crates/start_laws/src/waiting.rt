//! What entries need, and what starts on demand.

ghost use Rattle.std.specs.Prelude.{◌≡◌, ◌↔◌, ◌<◌, ℕ, Bool, true, false, List, [], ◌∷◌, ◌++◌, length, Contains, Some, None, codes};
ghost use Rattle.std.specs.List.{slice_index_or};
ghost use Rattle.start_model.specs.Demand.{Need, IsClosed, automatic_of};
ghost use Rattle.start_model.specs.Ready.{Label, is_ready, next_of};
ghost use Rattle.start_laws.specs.Next.{IsNext};
ghost use Rattle.start_laws.specs.Written.{report, lines, first_lines};
ghost use Rattle.start_laws.specs.OneSet.{chained, cyclic, group_of_one, on_demand, two_deep, boot_and_go, member_fails};

/// An entry waits for the one that it names.
pub fn what_an_entry_needs_goes_first()
    ensures { report chained boot_and_go ≡ lines (first_lines (codes "0")
        ++ codes "try B ok"
        ∷ codes "try A ok"
        ∷ codes "try C ok"
        ∷ codes "phase system"
        ∷ codes "phase automatic"
        ∷ codes "phase done"
        ∷ codes "verdict running"
        ∷ codes "end"
        ∷ []) }
{}

/// Entries that need each other are unmet, and their ErrorControl is not asked.
pub fn a_cycle_is_unmet()
    ensures { report cyclic boot_and_go ≡ lines (first_lines (codes "0")
        ++ codes "unmet P"
        ∷ codes "unmet Q"
        ∷ codes "phase system"
        ∷ codes "phase automatic"
        ∷ codes "phase done"
        ∷ codes "verdict running"
        ∷ codes "end"
        ∷ []) }
{}

/// A group of which nobody was started is not met, whatever became of its member's failure.
pub fn an_empty_group_is_not_met()
    ensures logged { report (group_of_one 1) member_fails ≡ lines (first_lines (codes "0")
        ++ codes "try M failed logged"
        ∷ codes "unmet D"
        ∷ codes "phase system"
        ∷ codes "phase automatic"
        ∷ codes "phase done"
        ∷ codes "verdict running"
        ∷ codes "end"
        ∷ []) }
    ensures ignored { report (group_of_one 0) member_fails ≡ lines (first_lines (codes "0")
        ++ codes "try M failed ignored"
        ∷ codes "unmet D"
        ∷ codes "phase system"
        ∷ codes "phase automatic"
        ∷ codes "phase done"
        ∷ codes "verdict running"
        ∷ codes "end"
        ∷ []) }
{}

/// An entry of Start 3 is taken where a taken one names it, and so is one that it names; a disabled one never is.
pub fn demand_start_goes_two_deep()
    ensures one_deep { report on_demand boot_and_go ≡ lines (first_lines (codes "0")
        ++ codes "phase system"
        ∷ codes "phase automatic"
        ∷ codes "try D ok"
        ∷ codes "try S ok"
        ∷ codes "unmet T"
        ∷ codes "phase done"
        ∷ codes "verdict running"
        ∷ codes "end"
        ∷ []) }
    ensures two_deep { report two_deep boot_and_go ≡ lines (first_lines (codes "0")
        ++ codes "phase system"
        ∷ codes "phase automatic"
        ∷ codes "try E ok"
        ∷ codes "try D ok"
        ∷ codes "try S ok"
        ∷ codes "phase done"
        ∷ codes "verdict running"
        ∷ codes "end"
        ∷ []) }
{}

/// The automatic phase takes the places that are in each closed set, and no others: the least closed set.
pub fn demand_start_is_the_least_closed_set()
    ensures { (table : List Need) (q : ℕ) → Contains (automatic_of table) q ↔ (q < length table) × ((set : ℕ → Bool) → IsClosed table set → set q ≡ true) }
{}

/// The next entry is the one that is ready where none before it is, and there is at most one; where there is none,
/// no entry is ready.
pub fn at_most_one_entry_is_next()
    ensures next { (started : List Label) (waiting : List Need) (place : ℕ) → next_of started waiting ≡ Some place ↔ IsNext started waiting place }
    ensures one { (started : List Label) (waiting : List Need) (p : ℕ) (q : ℕ) → IsNext started waiting p → IsNext started waiting q → p ≡ q }
    ensures none { (started : List Label) (waiting : List Need) → next_of started waiting ≡ None
        → (k : ℕ) (d : Need) → k < length waiting → is_ready started (slice_index_or waiting k d) ≡ false }
{}
