//! What decides the order of a set's entries in a phase.

ghost use Rattle.std.specs.Prelude.{◌≡◌, ◌∷◌, [], codes, IfOk};
ghost use Rattle.std.specs.Option.{option_copied};
ghost use Rattle.hive_model.specs.Tree.{find_key};
ghost use Rattle.hive_model.specs.Valid.{HoldsKeys};
ghost use Rattle.start_model.specs.Entries.{entries_of};
ghost use Rattle.start_model.specs.Order.{listed_groups, tags_count_in};
ghost use Rattle.boot_phases.specs.boot_phases.Phases.{phase_in};
ghost use Rattle.why_needs.specs.why_state.Views.{names_of};
ghost use Rattle.why_answer.specs.why_place.Place.{order_of};

use boot_phases::boot_phases::Phase;
use boot_phases::group_order::{Orders, read_orders};
use boot_phases::service_entries::{Entry, entries};
use nt_bytes::Names;
use nt_names::name_places::NamePlaces;
use nt_names::startup_names::{CONTROL, LIST, SERVICE_GROUP_ORDER};
use reg_tree::Key;
use std::alloc::{AllocError, Global};

/// What decides the order of a set's entries in a phase.
#[derive(Drop)]
pub struct SetOrder {
    /// The groups as they are listed, repeats included.
    pub listed: NamePlaces,
    /// Each with its tags, where it is listed first.
    pub orders: Orders,
    pub tags_count: bool,
    /// The names of the entries, as they are in the registry.
    pub names: NamePlaces,
}

/// The list of groups.
fn listed_groups(alloc: Global, set: &Key) -> Result<Names, AllocError>
    ensures { IfOk result (λ names. names ≡ listed_groups set.now) }
{
    match order_key(set) {
        Some(key) => key.strings(alloc, &LIST),
        None => Ok(Names::new(alloc)),
    }
}

/// The key `ServiceGroupOrder`.
fn order_key(set: &Key) -> Option<&Key>
    ensures { option_copied result ≡ find_key (codes "Control" ∷ codes "ServiceGroupOrder" ∷ []) set.now }
{
    set.child(&CONTROL)?.child(&SERVICE_GROUP_ORDER)
}

/// The names of the entries.
fn names_of(alloc: Global, entries: &[Entry]) -> Result<Names, AllocError>
    ensures { IfOk result (λ names. names ≡ names_of entries.now) }
{
    let mut names = Names::new(alloc);
    for entry in entries {
        names.push(entry.name.copy(alloc)?)?;
    }
    Ok(names)
}

/// The names of a set's entries.
fn entry_names(alloc: Global, set: &Key) -> Result<Names, AllocError>
    requires { HoldsKeys set.now }
    ensures { IfOk result (λ names. names ≡ names_of (entries_of set.now)) }
{
    let table = entries(alloc, set)?;
    let entries = table.into_entries(alloc)?;
    names_of(alloc, entries.as_slice())
}

/// Whether tags count in the order of the phase.
fn tags_count(phase: Phase) -> bool
    ensures { result ≡ tags_count_in (phase_in phase) }
{
    match phase {
        Phase::Boot | Phase::System => true,
        Phase::Automatic | Phase::Done => false,
    }
}

/// The order of a set's entries in a phase. Takes n log n time in the set's lists.
pub fn order_of(alloc: Global, set: &Key, phase: Phase) -> Result<SetOrder, AllocError>
    requires { HoldsKeys set.now }
    ensures { IfOk result (λ order. order ≡ order_of set.now phase) }
{
    Ok(SetOrder {
        listed: NamePlaces::new(alloc, listed_groups(alloc, set)?)?,
        orders: read_orders(alloc, set)?,
        tags_count: tags_count(phase),
        names: NamePlaces::new(alloc, entry_names(alloc, set)?)?,
    })
}
