//! The entries of a phase that still wait, and the next of them.

ghost use Rattle.std.specs.Prelude.{◌≡◌, ◌<◌, ◌≤◌, ◌^◌, ◌+◌, ◌-◌, ◌∷◌, ◌++◌, [], true, false, length, replicate, slice_get, vec_len, vec_capacity, IfOk, IfSome, OnOk, OnErr};
ghost use Rattle.std.specs.List.{flat_map, items_where_true, range_with_len};
ghost use Rattle.std.specs.Option.{option_copied, option_map, option_to_list};
ghost use Rattle.nt_bytes.specs.Folding.{folded};
ghost use Rattle.start_model.specs.Demand.{member};
ghost use Rattle.dependencies.specs.Wants.{AreReadyBut, names_given, owners_from};
ghost use Rattle.dependencies.specs.Waiting.{raised, name_count, unmet_count, next_place_in, places_in, after_trying, label_of, labels_at};

use crate::meeting::{meet_group, meet_name, refresh};
use crate::need::{Need, Needs, Places};
use crate::place_set::PlaceSet;
use crate::started::{Started, copied_labels};
use crate::test_count::TestCount;
use crate::wants::{Kind, Wants, test_all, wanted};
use nt_bytes::Units;
use nt_names::name_places::{NamePlaces, folded};
use std::alloc::{AllocError, Global};
use std::marker::Model;

/// The entries of a phase with those of them that still wait, and who was started. The next entry is
/// at hand: for each entry it is kept how many names it still wants, and a start goes to the wants that it meets.
#[derive(Drop)]
pub struct Waiting {
    needs: Needs,
    waits: Vec<bool>,
    /// Who was started before.
    first: Vec<(Units, Option<Units>)>,
    /// The places of those that were started since, with room for all.
    done: Vec<u32>,
    service_names: NamePlaces,
    services: Wants,
    group_names: NamePlaces,
    groups: Wants,
    ready: PlaceSet,
}

impl Model for Waiting {
    ghost use Rattle.std.specs.Prelude.{◌++◌, vec_len, vec_capacity};
    ghost use Rattle.std.specs.List.{flat_map};
    ghost use Rattle.dependencies.specs.Waiting.{WaitingState, labels_at};
    ghost use Rattle.dependencies.specs.Kept.{IsKept};

    ghost Value = { WaitingState };

    ghost view = { λ a. record { needs = a.needs; waits = a.waits.items; started = a.first.items ++ flat_map (labels_at a.needs) a.done.items } };

    ghost invariant = { λ a. IsKept a.needs a.waits.items (a.first.items ++ flat_map (labels_at a.needs) a.done.items)
        (vec_len a.done) (vec_capacity a.done) a.service_names a.services a.group_names a.groups a.ready };
}

impl Waiting {
    /// All entries of a phase wait, and some were started before it. Each of their names is tested once.
    /// It reserves the room that `tried` wants.
    pub fn new(
        alloc: Global,
        needs: Needs,
        started: &Started,
        tests: &mut TestCount,
    ) -> Result<Waiting, AllocError>
        requires { length needs < 2 ^ 32 }
        ensures state { IfOk result (λ w. w ≡ record { needs = needs; waits = replicate (length needs) true; started = started.now }) }
        ensures tests { OnOk result (tests.new ≡ raised tests.old (name_count needs)) }
        ensures kept { OnErr result (tests.new ≡ tests.old) }
    {
        let count = needs.len();
        let waits = vec![in alloc; true; count]?;
        let first = copied_labels(alloc, started.labels())?;
        let done = Vec::with_capacity(alloc, count)?;
        let mut ready = PlaceSet::new(alloc, count)?;
        let (service_names, mut services) = unmet(alloc, needs.as_slice(), Kind::Service)?;
        let (group_names, mut groups) = unmet(alloc, needs.as_slice(), Kind::Group)?;
        test_all(
            service_names.as_slice(),
            Kind::Service,
            started,
            &mut services,
            tests,
        );
        test_all(
            group_names.as_slice(),
            Kind::Group,
            started,
            &mut groups,
            tests,
        );
        refresh_all(&services, &groups, waits.as_slice(), &mut ready);
        Ok(Waiting {
            needs,
            waits,
            first,
            done,
            service_names,
            services,
            group_names,
            groups,
            ready,
        })
    }

    /// The place in the phase of the first waiting entry that is ready.
    pub fn next(&self) -> Option<u32>
        ensures place { result ≡ next_place_in self.now }
        ensures waits { IfSome result (λ at. member self.now.waits at ≡ true) }
    {
        match self.ready.first() {
            Some(at) => Some(at as u32),
            None => None,
        }
    }

    /// What the entry at a place of the phase needs, also where it waits no more; none where that is past the end.
    pub fn need(&self, place: u32) -> Option<&Need>
        ensures { option_copied result ≡ slice_get self.now.needs place }
    {
        self.needs.get(place as usize)
    }

    /// The waiting entry at a place was attempted: it waits no more, and was started where `ok`. Each name
    /// that this start is the first to meet is tested once. It takes no memory.
    pub fn tried(&mut self, place: u32, ok: bool, tests: &mut TestCount)
        requires { member self.old.waits place ≡ true }
        ensures state { self.new ≡ after_trying self.old place ok }
        ensures tests { tests.new ≡ raised tests.old (unmet_count self.old.needs self.old.started - unmet_count self.new.needs self.new.started) }
    {
        let at = place as usize;
        self.waits[at] = false;
        self.ready.put(at, false);
        if !ok {
            return;
        }
        put(&mut self.done, place);
        let needs = self.needs.as_slice();
        let need = &needs[at];
        meet_name(
            &self.service_names,
            need.name.as_slice(),
            &mut self.services,
            &self.groups,
            &self.waits,
            &mut self.ready,
            tests,
        );
        meet_group(
            &self.group_names,
            &need.group,
            &mut self.groups,
            &self.services,
            &self.waits,
            &mut self.ready,
            tests,
        );
    }

    /// Who was started, before the phase and in it. Takes n log n time in their number.
    pub fn started(&self, alloc: Global) -> Result<Started, AllocError>
        ensures { IfOk result (λ started. started ≡ self.now.started) }
    {
        let mut labels = copied_labels(alloc, self.first.as_slice())?;
        append_labels(
            alloc,
            self.needs.as_slice(),
            self.done.as_slice(),
            &mut labels,
        )?;
        Started::of(alloc, labels)
    }

    /// The places of the entries that wait, rising.
    pub fn left(&self, alloc: Global) -> Result<Places, AllocError>
        ensures { IfOk result (λ places. places ≡ places_in self.now) }
    {
        places_left(alloc, self.waits.as_slice())
    }
}

/// The names of a kind, and their wants, of which none is met.
fn unmet(alloc: Global, needs: &[Need], kind: Kind) -> Result<(NamePlaces, Wants), AllocError>
    ensures names { IfOk result (λ r. r.0 ≡ names_given kind needs.now) }
    ensures wants { IfOk result (λ r. r.1 ≡ record { count = length needs.now; owners = owners_from kind 0 needs.now; met = replicate (length r.0) false }) }
{
    let (given, owners) = wanted(alloc, needs, kind)?;
    let names = NamePlaces::new(alloc, given)?;
    let wants = Wants::new(alloc, owners, needs.len())?;
    Ok((names, wants))
}

/// Puts a place after the others, where there is room.
fn put(places: &mut Vec<u32>, place: u32)
    requires { vec_len places.old < vec_capacity places.old }
    ensures items { places.new.items ≡ places.old.items ++ place ∷ [] }
    ensures len { vec_len places.new ≡ vec_len places.old + 1 }
    ensures room { vec_capacity places.old ≤ vec_capacity places.new }
{
    match places.push(place) {
        Ok(()) => {}
        Err(_) => unreachable!(),
    }
}

/// Notes of each entry whether it is ready.
fn refresh_all(services: &Wants, groups: &Wants, waits: &[bool], ready: &mut PlaceSet)
    requires groups { groups.now.count ≡ services.now.count }
    requires waits { length waits.now ≡ services.now.count }
    requires ready { length ready.old ≡ services.now.count }
    ensures { AreReadyBut services.now.count ready.new waits.now services.now groups.now }
{
    for place in 0..waits.len() {
        refresh(place, services, groups, waits, ready);
    }
}

/// The places at which an entry waits, rising.
fn places_left(alloc: Global, waits: &[bool]) -> Result<Places, AllocError>
    requires { length waits.now < 2 ^ 32 }
    ensures { IfOk result (λ places. places ≡ items_where_true waits.now (range_with_len 0 (length waits.now))) }
{
    let mut places = Places::new(alloc);
    for place in 0..waits.len() {
        if waits[place] {
            places.push(place as u32)?;
        }
    }
    Ok(places)
}

/// Puts what is kept of the entries at these places after the others.
fn append_labels(
    alloc: Global,
    needs: &[Need],
    places: &[u32],
    labels: &mut Vec<(Units, Option<Units>)>,
) -> Result<(), AllocError>
    ensures { OnOk result (labels.new.items ≡ labels.old.items ++ flat_map (labels_at needs.now) places.now) }
{
    for place in places {
        push_label(labels, label_at(alloc, needs, *place)?)?;
    }
    Ok(())
}

/// What is kept of the entry at a place, where there is one.
fn label_at(
    alloc: Global,
    needs: &[Need],
    place: u32,
) -> Result<Option<(Units, Option<Units>)>, AllocError>
    ensures { IfOk result (λ l. l ≡ option_map label_of (slice_get needs.now place)) }
{
    match needs.get(place as usize) {
        Some(need) => Ok(Some(label(alloc, need)?)),
        None => Ok(None),
    }
}

/// Puts what is kept of an entry after the others, where there is one.
fn push_label(
    labels: &mut Vec<(Units, Option<Units>)>,
    label: Option<(Units, Option<Units>)>,
) -> Result<(), AllocError>
    ensures { OnOk result (labels.new.items ≡ labels.old.items ++ option_to_list label) }
{
    match label {
        Some(known) => {
            labels.push(known)?;
            Ok(())
        }
        None => Ok(()),
    }
}

/// The folded name, and the folded group where there is one.
fn label(alloc: Global, need: &Need) -> Result<(Units, Option<Units>), AllocError>
    ensures { IfOk result (λ l. l ≡ label_of need.now) }
{
    let name = folded(alloc, need.name.as_slice())?;
    let group = folded_group(alloc, &need.group)?;
    Ok((name, group))
}

/// The name of a group, each unit folded, where there is one.
pub fn folded_group(alloc: Global, group: &Option<Units>) -> Result<Option<Units>, AllocError>
    ensures { IfOk result (λ g. g ≡ option_map folded group.now) }
{
    match group {
        Some(name) => Ok(Some(folded(alloc, name.as_slice())?)),
        None => Ok(None),
    }
}
