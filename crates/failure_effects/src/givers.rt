//! Who gives a name of DependOnService, or of DependOnGroup.

ghost use Rattle.std.specs.Prelude.{◌≡◌, ◌&&◌, ◌++◌, ◌∷◌, [], ℕ, Bool, List, false, not, map, filter, length, slice_get, slice_set, IfOk, OnOk};
ghost use Rattle.std.specs.Option.{option_copied, option_map_or};
ghost use Rattle.std.specs.List.{cons_option};
ghost use Rattle.std.specs.List.Sorted.{IsStrictlyIncreasing};
ghost use Rattle.start_model.specs.Demand.{member};
ghost use Rattle.failure_effects.specs.Leans.{needs_one};
ghost use Rattle.failure_effects.specs.Givers.{given, all_given, owners_from, givers_of, owner_at, left_givers, all_left_givers, has_place, Adds, AreSeen, AreLeft, entries_at, rest_of, marked_first};

use crate::leaning::Layer;
use crate::lines::NeedWord;
use boot_phases::service_entries::{Entries, Entry};
use nt_bytes::{Names, Row, Units};
use nt_names::name_places::NamePlaces;
use std::alloc::{AllocError, Global};
use std::marker::Model;

/// The names of a kind that entries give, each found without a scan, and who gives it.
#[derive(Drop)]
pub struct Givers {
    pub names: NamePlaces,
    /// Who gives each, by its place.
    pub owners: Row<usize>,
}

/// The entries that are in no layer so far, and which names were looked up, each by its first place among those that are given.
#[derive(Drop)]
pub struct Left {
    pub rest: Vec<bool>,
    pub services: Vec<bool>,
    pub groups: Vec<bool>,
}

/// Entries, and who of them gives a name. Contracts see the entries.
#[derive(Drop)]
pub(crate) struct Needers {
    entries: Entries,
    services: Givers,
    groups: Givers,
}

impl Model for Needers {
    ghost use Rattle.std.specs.Prelude.{◌≡◌, List};
    ghost use Rattle.start_model.specs.Entries.{Entry as Item};
    ghost use Rattle.failure_effects.specs.Givers.{givers_of};
    ghost use Rattle.failure_effects.specs.declared.lines.NeedWord.TheVariants.{Service, Group};

    ghost Value = { List Item };

    ghost view = { λ a. a.entries };

    ghost invariant = { λ a. (a.services ≡ givers_of Service a.entries) × (a.groups ≡ givers_of Group a.entries) };
}

impl Needers {
    /// These entries. Takes n log n time in the names that they give.
    pub(crate) fn new(alloc: Global, entries: Entries) -> Result<Needers, AllocError>
        ensures { IfOk result (λ needers. needers ≡ entries) }
    {
        let services = givers_of(alloc, NeedWord::Service, entries.as_slice())?;
        let groups = givers_of(alloc, NeedWord::Group, entries.as_slice())?;
        Ok(Needers {
            entries,
            services,
            groups,
        })
    }

    /// The entries.
    pub(crate) fn as_slice(&self) -> &[Entry]
        ensures { result.now ≡ self.now }
    {
        self.entries.as_slice()
    }

    /// Nothing is seen, where these are left.
    pub(crate) fn unseen(&self, alloc: Global, rest: Vec<bool>) -> Result<Left, AllocError>
        requires { length rest.items ≡ length self.now }
        ensures rest { IfOk result (λ left. left.rest.items ≡ rest.items) }
        ensures left { IfOk result (AreLeft self.now) }
    {
        Ok(Left {
            rest,
            services: none_seen(alloc, &self.services)?,
            groups: none_seen(alloc, &self.groups)?,
        })
    }

    /// Those of the entries that are left which need one of the layer. They are left no more.
    pub(crate) fn near(
        &self,
        alloc: Global,
        layer: &Layer,
        left: &mut Left,
    ) -> Result<Entries, AllocError>
        requires { AreLeft self.now left.old }
        ensures near { IfOk result (λ near. near ≡ filter (needs_one layer.now) (rest_of self.now left.old.rest.items)) }
        ensures rest { OnOk result (rest_of self.now left.new.rest.items ≡ filter (λ e. not (needs_one layer.now e)) (rest_of self.now left.old.rest.items)) }
        ensures left { OnOk result (AreLeft self.now left.new) }
    {
        let found = found(alloc, &self.services, &self.groups, layer, left)?;
        let places = rising(found)?;
        take_out(places.as_slice(), &mut left.rest);
        entries_at(alloc, self.entries.as_slice(), places.as_slice())
    }
}

/// Which names were looked up, where none was.
fn none_seen(alloc: Global, givers: &Givers) -> Result<Vec<bool>, AllocError>
    ensures { IfOk result (λ seen. (rest : List Bool) → AreSeen givers.now rest seen.items []) }
{
    vec![in alloc; false; givers.names.as_slice().len()]
}

// ---- who gives a name

/// The names of a kind that an entry gives.
fn given(kind: NeedWord, entry: &Entry) -> &[Units]
    ensures { result.now ≡ given kind entry.now }
{
    match kind {
        NeedWord::Service => entry.services.as_slice(),
        NeedWord::Group => entry.groups.as_slice(),
    }
}

/// Puts the names of one entry after the others, and its place once for each.
fn append(
    alloc: Global,
    given: &[Units],
    place: usize,
    names: &mut Names,
    owners: &mut Row<usize>,
) -> Result<(), AllocError>
    ensures names { OnOk result (names.new ≡ names.old ++ given.now) }
    ensures owners { OnOk result (owners.new ≡ owners.old ++ map (λ g. place) given.now) }
{
    for name in given {
        names.push(name.copy(alloc)?)?;
        owners.push(place)?;
    }
    Ok(())
}

/// The names of a kind that entries give, and who gives each.
fn all_given(
    alloc: Global,
    kind: NeedWord,
    entries: &[Entry],
) -> Result<(Names, Row<usize>), AllocError>
    ensures names { IfOk result (λ g. g.0 ≡ all_given kind entries.now) }
    ensures owners { IfOk result (λ g. g.1 ≡ owners_from kind 0 entries.now) }
{
    let mut names = Names::new(alloc);
    let mut owners = Row::new(alloc);
    for place in 0..entries.len() {
        append(
            alloc,
            given(kind, &entries[place]),
            place,
            &mut names,
            &mut owners,
        )?;
    }
    Ok((names, owners))
}

fn givers_of(alloc: Global, kind: NeedWord, entries: &[Entry]) -> Result<Givers, AllocError>
    ensures { IfOk result (λ givers. givers ≡ givers_of kind entries.now) }
{
    let (names, owners) = all_given(alloc, kind, entries)?;
    Ok(Givers {
        names: NamePlaces::new(alloc, names)?,
        owners,
    })
}

// ---- those that are left

fn owner_at(owners: &[usize], at: usize) -> usize
    ensures { result ≡ owner_at owners.now at }
{
    match owners.get(at) {
        Some(owner) => *owner,
        None => 0,
    }
}

fn is_member(set: &[bool], place: usize) -> bool
    ensures { result ≡ member set.now place }
{
    match set.get(place) {
        Some(is_in) => *is_in,
        None => false,
    }
}

/// Puts the place after the others, where it is left.
fn push_where_left(place: usize, rest: &[bool], found: &mut Vec<usize>) -> Result<(), AllocError>
    ensures { OnOk result (found.new.items ≡ found.old.items ++ filter (member rest.now) (place ∷ [])) }
{
    if is_member(rest, place) {
        found.push(place)?;
    }
    Ok(())
}

/// Puts the owners after the others that are left.
fn push_left(
    owners: &[usize],
    rest: &[bool],
    wants: &[usize],
    found: &mut Vec<usize>,
) -> Result<(), AllocError>
    ensures { OnOk result (found.new.items ≡ found.old.items ++ filter (member rest.now) (map (owner_at owners.now) wants.now)) }
{
    for want in wants {
        push_where_left(owner_at(owners, *want), rest, found)?;
    }
    Ok(())
}

/// Whether the first of these places is seen.
fn first_is_seen(wants: &[usize], seen: &[bool]) -> bool
    ensures { result ≡ option_map_or (member seen.now) (slice_get wants.now 0) false }
{
    match wants.first() {
        Some(want) => is_member(seen, *want),
        None => false,
    }
}

/// Notes that the first of these places is seen.
fn mark_first(wants: &[usize], seen: &mut Vec<bool>)
    ensures { seen.new.items ≡ marked_first wants.now seen.old.items }
{
    if let Some(want) = wants.first() {
        put(*want, true, seen);
    }
}

/// Puts a truth value at a place, where there is one.
fn put(place: usize, is_in: bool, set: &mut Vec<bool>)
    ensures { set.new.items ≡ slice_set set.old.items place is_in }
{
    if place < set.len() {
        set[place] = is_in;
    }
}

/// Puts those after the others that are left and give the name, unless it was looked up before.
fn push_givers(
    givers: &Givers,
    name: &[u16],
    rest: &[bool],
    seen: &mut Vec<bool>,
    found: &mut Vec<usize>,
) -> Result<(), AllocError>
    requires { AreSeen givers.now rest.now seen.old.items found.old.items }
    ensures adds { OnOk result (Adds (left_givers givers.now rest.now name.now) found.old.items found.new.items) }
    ensures seen { OnOk result (AreSeen givers.now rest.now seen.new.items found.new.items) }
{
    let wants = givers.names.places(name);
    if first_is_seen(wants, seen.as_slice()) {
        return Ok(());
    }
    mark_first(wants, seen);
    push_left(givers.owners.as_slice(), rest, wants, found)
}

/// Puts those after the others that are left and give one of the names.
fn push_all_givers(
    givers: &Givers,
    names: &[Units],
    rest: &[bool],
    seen: &mut Vec<bool>,
    found: &mut Vec<usize>,
) -> Result<(), AllocError>
    requires { AreSeen givers.now rest.now seen.old.items found.old.items }
    ensures adds { OnOk result (Adds (all_left_givers givers.now rest.now names.now) found.old.items found.new.items) }
    ensures seen { OnOk result (AreSeen givers.now rest.now seen.new.items found.new.items) }
{
    for name in names {
        push_givers(givers, name.as_slice(), rest, seen, found)?;
    }
    Ok(())
}

/// Those that are left and need one of the layer, in any order.
fn found(
    alloc: Global,
    services: &Givers,
    groups: &Givers,
    layer: &Layer,
    left: &mut Left,
) -> Result<Vec<usize>, AllocError>
    requires services { AreSeen services.now left.old.rest.items left.old.services.items [] }
    requires groups { AreSeen groups.now left.old.rest.items left.old.groups.items [] }
    ensures found { IfOk result (λ found. Adds (all_left_givers services.now left.old.rest.items layer.now.names
        ++ all_left_givers groups.now left.old.rest.items layer.now.groups) [] found.items) }
    ensures rest { left.new.rest.items ≡ left.old.rest.items }
    ensures services { IfOk result (λ found. AreSeen services.now left.old.rest.items left.new.services.items found.items) }
    ensures groups { IfOk result (λ found. AreSeen groups.now left.old.rest.items left.new.groups.items found.items) }
{
    let mut found = Vec::new(alloc);
    push_all_givers(
        services,
        layer.names.as_slice(),
        left.rest.as_slice(),
        &mut left.services,
        &mut found,
    )?;
    push_all_givers(
        groups,
        layer.groups.as_slice(),
        left.rest.as_slice(),
        &mut left.groups,
        &mut found,
    )?;
    Ok(found)
}

/// The places in rising order, each once.
fn rising(found: Vec<usize>) -> Result<Row<usize>, AllocError>
    ensures rises { IfOk result IsStrictlyIncreasing }
    ensures same { IfOk result (λ places. (p : ℕ) → has_place p places ≡ has_place p found.items) }
{
    let mut places = found;
    places.sort()?;
    places.dedup();
    Ok(Row::from_vec(places))
}

/// Takes these places out of the set.
fn take_out(places: &[usize], rest: &mut Vec<bool>)
    ensures len { length rest.new.items ≡ length rest.old.items }
    ensures out { (p : ℕ) → member rest.new.items p ≡ (member rest.old.items p && not (has_place p places.now)) }
{
    for place in places {
        put(*place, false, rest);
    }
}

fn entry_at(entries: &[Entry], place: usize) -> Option<&Entry>
    ensures { option_copied result ≡ slice_get entries.now place }
{
    entries.get(place)
}

/// Puts a copy of the entry at a place after the others, where there is one.
fn push_entry(
    alloc: Global,
    entries: &[Entry],
    place: usize,
    out: &mut Entries,
) -> Result<(), AllocError>
    ensures { OnOk result (out.new ≡ out.old ++ cons_option (slice_get entries.now place) []) }
{
    match entry_at(entries, place) {
        Some(entry) => out.push(entry.copy(alloc)?),
        None => Ok(()),
    }
}

/// Copies of the entries at these places.
fn entries_at(alloc: Global, entries: &[Entry], places: &[usize]) -> Result<Entries, AllocError>
    ensures { IfOk result (λ out. out ≡ entries_at entries.now places.now) }
{
    let mut out = Entries::new(alloc);
    for place in places {
        push_entry(alloc, entries, *place, &mut out)?;
    }
    Ok(out)
}
