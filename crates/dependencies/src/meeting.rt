//! What a start meets: the wants of its name and of its group, and the entries that are ready then.

ghost use Rattle.std.specs.Prelude.{◌≡◌, ◌<◌, ◌-◌, ℕ, true, false, not, ◌||◌, All, length, count_by, nat_eq, slice_get, slice_set, slice_index_or, [], Option};
ghost use Rattle.std.specs.List.{list_any};
ghost use Rattle.std.specs.Option.{option_map_or};
ghost use Rattle.nt_bytes.specs.Folding.{folds_same};
ghost use Rattle.start_model.specs.Demand.{member};
ghost use Rattle.dependencies.specs.Wants.{is_ready_at, AreReadyBut, IsNearer, AreMetTogether};
ghost use Rattle.dependencies.specs.Waiting.{raised};

use crate::place_set::PlaceSet;
use crate::test_count::TestCount;
use crate::wants::Wants;
use nt_bytes::Units;
use nt_names::name_places::NamePlaces;

/// Marks the wants of this group as met, where there is one.
pub(crate) fn meet_group(
    names: &NamePlaces,
    group: &Option<Units>,
    wants: &mut Wants,
    others: &Wants,
    waits: &[bool],
    ready: &mut PlaceSet,
    tests: &mut TestCount,
)
    requires len { length wants.old.met ≡ length names.now }
    requires together { AreMetTogether names.now wants.old.met }
    requires ready { AreReadyBut wants.old.count ready.old waits.now wants.old others.now }
    ensures nearer { IsNearer wants.old wants.new }
    ensures met { (k : ℕ) → k < length names.now → member wants.new.met k
        ≡ (member wants.old.met k || option_map_or (λ g. folds_same g (slice_index_or names.now k [])) group.now false) }
    ensures ready { AreReadyBut wants.new.count ready.new waits.now wants.new others.now }
    ensures tests { tests.new ≡ raised tests.old (count_by not wants.old.met - count_by not wants.new.met) }
{
    if let Some(name) = group {
        meet_name(names, name.as_slice(), wants, others, waits, ready, tests);
    }
}

/// Marks the wants of this name as met, unless they are. An entry whose wants are all met then is ready.
pub(crate) fn meet_name(
    names: &NamePlaces,
    name: &[u16],
    wants: &mut Wants,
    others: &Wants,
    waits: &[bool],
    ready: &mut PlaceSet,
    tests: &mut TestCount,
)
    requires len { length wants.old.met ≡ length names.now }
    requires together { AreMetTogether names.now wants.old.met }
    requires ready { AreReadyBut wants.old.count ready.old waits.now wants.old others.now }
    ensures nearer { IsNearer wants.old wants.new }
    ensures met { (k : ℕ) → k < length names.now → member wants.new.met k ≡ (member wants.old.met k || folds_same name.now (slice_index_or names.now k [])) }
    ensures ready { AreReadyBut wants.new.count ready.new waits.now wants.new others.now }
    ensures tests { tests.new ≡ raised tests.old (count_by not wants.old.met - count_by not wants.new.met) }
{
    let places = names.places(name);
    if first_is_met(places, wants) {
        return;
    }
    meet(places, wants, others, waits, ready, tests);
}

/// Whether the want at the first of these places is met. Wants of one name are met together, so that
/// one look at a mark spares the others.
fn first_is_met(places: &[usize], wants: &Wants) -> bool
    requires { All (λ k. k < length wants.now.met) places.now }
    ensures { result ≡ option_map_or (member wants.now.met) (slice_get places.now 0) false }
{
    match places.first() {
        Some(want) => wants.is_met(*want),
        None => false,
    }
}

/// Marks the wants at these places as met, with a test of each that was not.
fn meet(
    places: &[usize],
    wants: &mut Wants,
    others: &Wants,
    waits: &[bool],
    ready: &mut PlaceSet,
    tests: &mut TestCount,
)
    requires within { All (λ k. k < length wants.old.met) places.now }
    requires ready { AreReadyBut wants.old.count ready.old waits.now wants.old others.now }
    ensures nearer { IsNearer wants.old wants.new }
    ensures met { (k : ℕ) → k < length wants.old.met → member wants.new.met k ≡ (member wants.old.met k || list_any (nat_eq k) places.now) }
    ensures ready { AreReadyBut wants.new.count ready.new waits.now wants.new others.now }
    ensures tests { tests.new ≡ raised tests.old (count_by not wants.old.met - count_by not wants.new.met) }
{
    for want in places {
        meet_one(*want, wants, others, waits, ready, tests);
    }
}

/// Tests a want that is not met yet, and marks it as met.
fn meet_one(
    want: usize,
    wants: &mut Wants,
    others: &Wants,
    waits: &[bool],
    ready: &mut PlaceSet,
    tests: &mut TestCount,
)
    requires within { want < length wants.old.met }
    requires ready { AreReadyBut wants.old.count ready.old waits.now wants.old others.now }
    ensures wants { wants.new ≡ record wants.old { met = slice_set wants.old.met want true } }
    ensures nearer { IsNearer wants.old wants.new }
    ensures ready { AreReadyBut wants.new.count ready.new waits.now wants.new others.now }
    ensures tests { tests.new ≡ raised tests.old (count_by not wants.old.met - count_by not wants.new.met) }
{
    if wants.is_met(want) {
        return;
    }
    tests.test(true);
    let owner = wants.owner(want);
    wants.mark(want);
    refresh(owner, wants, others, waits, ready);
}

/// Notes whether the entry at a place is ready.
pub(crate) fn refresh(
    place: usize,
    wants: &Wants,
    others: &Wants,
    waits: &[bool],
    ready: &mut PlaceSet,
)
    requires place { place < wants.now.count }
    requires others { others.now.count ≡ wants.now.count }
    requires waits { length waits.now ≡ wants.now.count }
    requires ready { length ready.old ≡ wants.now.count }
    ensures { ready.new ≡ slice_set ready.old place (is_ready_at waits.now wants.now others.now place) }
{
    ready.put(place, is_ready(place, wants, others, waits));
}

/// Whether the entry at a place waits, and all its wants are met.
fn is_ready(place: usize, wants: &Wants, others: &Wants, waits: &[bool]) -> bool
    requires place { place < wants.now.count }
    requires others { others.now.count ≡ wants.now.count }
    requires waits { length waits.now ≡ wants.now.count }
    ensures { result ≡ is_ready_at waits.now wants.now others.now place }
{
    waits[place] && wants.is_free(place) && others.is_free(place)
}
