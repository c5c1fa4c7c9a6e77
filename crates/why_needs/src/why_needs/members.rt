//! Which entries of a set are members of a group.

ghost use Rattle.std.specs.Prelude.{◌≡◌, ◌++◌, slice_get, IfOk, OnOk};
ghost use Rattle.std.specs.List.{filter_map};
ghost use Rattle.std.specs.Option.{option_copied, option_to_list};
ghost use Rattle.hive_model.specs.Valid.{HoldsKeys};
ghost use Rattle.why_needs.specs.why_needs.Members.{grouped_name, members_of, members_in};

use boot_phases::service_entries::{Entry, entries};
use nt_bytes::{Names, Units};
use nt_names::name_places::NamePlaces;
use reg_tree::Key;
use std::alloc::{AllocError, Global};

/// The entries of a set that have a group, each group found without a scan.
#[derive(Drop)]
pub struct GroupMembers {
    /// The names of the entries, in registry order.
    pub names: Names,
    /// Their groups.
    pub groups: NamePlaces,
}

/// Puts the name of an entry after the others, where it has a group.
fn push_grouped(alloc: Global, entry: &Entry, names: &mut Names) -> Result<(), AllocError>
    ensures { OnOk result (names.new ≡ names.old ++ option_to_list (grouped_name entry.now)) }
{
    match &entry.group {
        Some(_) => names.push(entry.name.copy(alloc)?),
        None => Ok(()),
    }
}

/// The names of the entries that have a group.
fn grouped_names(alloc: Global, entries: &[Entry]) -> Result<Names, AllocError>
    ensures { IfOk result (λ names. names ≡ filter_map grouped_name entries.now) }
{
    let mut names = Names::new(alloc);
    for entry in entries {
        push_grouped(alloc, entry, &mut names)?;
    }
    Ok(names)
}

/// Puts the group of an entry after the others, where it has one.
fn push_group(alloc: Global, entry: &Entry, names: &mut Names) -> Result<(), AllocError>
    ensures { OnOk result (names.new ≡ names.old ++ option_to_list entry.now.group) }
{
    match &entry.group {
        Some(group) => names.push(group.copy(alloc)?),
        None => Ok(()),
    }
}

/// The groups of the entries that have one.
fn groups_of(alloc: Global, entries: &[Entry]) -> Result<Names, AllocError>
    ensures { IfOk result (λ names. names ≡ filter_map (λ e. e.group) entries.now) }
{
    let mut names = Names::new(alloc);
    for entry in entries {
        push_group(alloc, entry, &mut names)?;
    }
    Ok(names)
}

/// The name at a place.
fn name_at(names: &Names, at: usize) -> Option<&Units>
    ensures { option_copied result ≡ slice_get names.now at }
{
    names.as_slice().get(at)
}

/// Puts the name at a place after the others, where there is one.
fn push_at(alloc: Global, names: &Names, at: usize, out: &mut Names) -> Result<(), AllocError>
    ensures { OnOk result (out.new ≡ out.old ++ option_to_list (slice_get names.now at)) }
{
    match name_at(names, at) {
        Some(name) => out.push(name.copy(alloc)?),
        None => Ok(()),
    }
}

/// The names at these places.
fn names_at(alloc: Global, names: &Names, places: &[usize]) -> Result<Names, AllocError>
    ensures { IfOk result (λ out. out ≡ filter_map (slice_get names.now) places.now) }
{
    let mut out = Names::new(alloc);
    for at in places {
        push_at(alloc, names, *at, &mut out)?;
    }
    Ok(out)
}

/// The members of a set's groups. Takes n log n time in its entries.
pub fn members_of(alloc: Global, set: &Key) -> Result<GroupMembers, AllocError>
    requires { HoldsKeys set.now }
    ensures { IfOk result (λ members. members ≡ members_of set.now) }
{
    let table = entries(alloc, set)?;
    let entries = table.into_entries(alloc)?;
    Ok(GroupMembers {
        names: grouped_names(alloc, entries.as_slice())?,
        groups: NamePlaces::new(alloc, groups_of(alloc, entries.as_slice())?)?,
    })
}

impl GroupMembers {
    /// The names of a group's members, in registry order.
    pub fn members(&self, alloc: Global, group: &[u16]) -> Result<Names, AllocError>
        ensures { IfOk result (λ names. names ≡ members_in self.now group.now) }
    {
        names_at(alloc, &self.names, self.groups.places(group))
    }
}
