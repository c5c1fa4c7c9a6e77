//! Where recovery looks, that nothing else counts, and which sectors it asks for.

ghost use Rattle.std.specs.Prelude.{◌≡◌, ◌<◌, ℕ, List, true, false, IsSome, Ok, AllPairs, Contains};
ghost use Rattle.hive_model.specs.Base.{Base};
ghost use Rattle.hive_model.specs.Image.{Image, Address, Log, same_address, with_file};
ghost use Rattle.hive_model.specs.Carries.{HasBase};
ghost use Rattle.hive_model.specs.Recovery.{Recovered, recovered_of};
ghost use Rattle.hive_model.specs.Asked.{primary_at, log_at, is_readable, asked_of};
ghost use Rattle.hive_laws.specs.hive_laws.Looking.{LooksAt, IsInOrder};

/// Images that agree at each sector at which recovery of the first looks recover alike: as the same base
/// block and bins data, or with the same fault.
pub fn recovery_looks_nowhere_else()
    ensures { (image other : Image) → ((a : Address) → LooksAt image a → image a ≡ other a) → recovered_of image ≡ recovered_of other }
{}

/// Where recovery has no fault, each sector at which it looks is there, and can be read but perhaps the primary's sector 0.
pub fn what_recovery_looks_at_is_there()
    ensures there { (image : Image) (recovered : Recovered) (a : Address) → recovered_of image ≡ Ok recovered → LooksAt image a → IsSome (image a) }
    ensures readable { (image : Image) (recovered : Recovered) (a : Address) → recovered_of image ≡ Ok recovered → LooksAt image a
        → (a ≡ primary_at 0 → ⊥) → is_readable (image a) ≡ true }
{}

/// Of the primary, recovery looks at sector 0 and at the bins data after sector 7.
pub fn seven_sectors_are_left_alone()
    ensures { (image : Image) (n : ℕ) → 0 < n → n < 8 → LooksAt image (primary_at n) → ⊥ }
{}

/// Of a clean hive, recovery looks at no sector of the log, so any log does.
pub fn a_clean_hive_needs_no_log()
    ensures unread { (image : Image) (base : Base) (n : ℕ) → HasBase image base → base.first ≡ base.second → LooksAt image (log_at n) → ⊥ }
    ensures any { (image : Image) (base : Base) (log : List ℕ) → HasBase image base → base.first ≡ base.second
        → recovered_of (with_file Log log image) ≡ recovered_of image }
{}

/// What recovery asks for is `asked_of`: just the sectors that it looks at,
pub fn recovery_asks_where_it_looks()
    ensures only { (image : Image) (at : Address) → Contains (asked_of image) at → LooksAt image at }
    ensures each { (image : Image) (at : Address) → LooksAt image at → Contains (asked_of image) at }
{}

/// each of them once,
pub fn recovery_asks_for_each_sector_once()
    ensures { (image : Image) → AllPairs (λ a b. same_address a b ≡ false) (asked_of image) }
{}

/// and in this order: the primary's sector 0, the log's from 0 on with none left out, and some of the primary's
/// after sector 7 by rising number.
pub fn recovery_asks_in_order()
    ensures { (image : Image) → IsInOrder (asked_of image) }
{}
