//! In which order a phase takes its entries.

ghost use Rattle.std.specs.Prelude.{◌≡◌, ◌↔◌, ℕ, Bool, ◌<◌, true, List, [], ◌∷◌, ◌++◌, length, map, Some, AllPairs, Contains, IsPermutation, slice_get, filter_map, codes};
ghost use Rattle.hive_model.specs.Tree.{Tree};
ghost use Rattle.start_model.specs.Entries.{Entry, Phase, entries_of, taken_of};
ghost use Rattle.start_model.specs.Order.{Rank, is_before, ordered_of, orders_of, rank_of, ranks_of, plan_of};
ghost use Rattle.start_laws.specs.Listed.{orders_with_repeats};
ghost use Rattle.start_laws.specs.Written.{report, lines, first_lines};
ghost use Rattle.start_laws.specs.OneSet.{tagged, grouped, boot_and_go};

/// The list of the group's tags decides, and not the numbers.
pub fn tags_follow_the_group_order_list()
    ensures { report tagged boot_and_go ≡ lines (first_lines (codes "0")
        ++ codes "try B ok"
        ∷ codes "try A ok"
        ∷ codes "phase system"
        ∷ codes "phase automatic"
        ∷ codes "phase done"
        ∷ codes "verdict running"
        ∷ codes "end"
        ∷ []) }
{}

/// An entry of a group that is not listed stands with those of none, after the listed groups.
pub fn unlisted_groups_come_last()
    ensures { report grouped boot_and_go ≡ lines (first_lines (codes "0")
        ++ codes "try C ok"
        ∷ codes "try A ok"
        ∷ codes "try B ok"
        ∷ codes "phase system"
        ∷ codes "phase automatic"
        ∷ codes "phase done"
        ∷ codes "verdict running"
        ∷ codes "end"
        ∷ []) }
{}

/// A list in which each rank is before each later one, and that has the ranks of what a phase takes and no others,
/// is the order of that phase.
pub fn the_order_of_a_phase_is_one()
    ensures { (set : Tree) (phase : Phase) (tried : List (List ℕ)) (ranks : List Rank) → AllPairs (λ a b. is_before a b ≡ true) ranks
        → ((r : Rank) → Contains ranks r ↔ Contains (ranks_of set phase tried) r)
        → filter_map (λ r. slice_get (entries_of set) r.place) ranks ≡ plan_of set phase tried }
{}

/// The plan of a phase has each entry that the phase takes exactly once, and no other: the places of its order are a
/// rearrangement of those that the phase takes, of which no two are the same, and an entry is at each.
pub fn a_plan_has_each_taken_entry_once()
    ensures places { (set : Tree) (phase : Phase) (tried : List (List ℕ))
        → IsPermutation (taken_of (entries_of set) phase tried) (map (λ r. r.place) (ordered_of (ranks_of set phase tried))) }
    ensures once { (set : Tree) (phase : Phase) (tried : List (List ℕ)) → AllPairs (λ a b. a < b) (taken_of (entries_of set) phase tried) }
    ensures entries { (set : Tree) (phase : Phase) (tried : List (List ℕ))
        → map (λ e. Some e) (plan_of set phase tried) ≡ map (λ r. slice_get (entries_of set) r.place) (ordered_of (ranks_of set phase tried)) }
    ensures count { (set : Tree) (phase : Phase) (tried : List (List ℕ)) → length (plan_of set phase tried) ≡ length (taken_of (entries_of set) phase tried) }
{}

/// That a group which is listed again counts where it stands first changes no order: of two entries the same one is
/// before the other as if it had each of its places in the list.
pub fn groups_listed_again_change_no_order()
    ensures { (set : Tree) (tags_count : Bool) (p q : ℕ) (a b : Entry)
        → is_before (rank_of (orders_of set) tags_count p a) (rank_of (orders_of set) tags_count q b)
        ≡ is_before (rank_of (orders_with_repeats set) tags_count p a) (rank_of (orders_with_repeats set) tags_count q b) }
{}
