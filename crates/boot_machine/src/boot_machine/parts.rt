//! An entry in two parts: what it needs, and the rest.

ghost use Rattle.std.specs.Prelude.{◌≡◌, map, IfOk};
ghost use Rattle.start_model.specs.Entries.{need_of};
ghost use Rattle.boot_machine.specs.boot_machine.Parts.{joined, rest_of};

use boot_phases::service_entries::Entry;
use dependencies::{Need, Needs};
use std::alloc::{AllocError, Global};

/// What an entry has beside its need.
#[derive(Clone, Copy)]
pub(crate) struct Rest {
    /// `Type`.
    kind: u32,
    /// `ErrorControl`.
    control: u32,
    /// `Tag`.
    tag: Option<u32>,
}

/// The entry of this need and this rest. Nothing is copied.
pub(crate) fn join(need: Need, rest: Rest) -> Entry
    ensures { result ≡ joined need rest }
{
    Entry {
        name: need.name,
        start: need.start,
        kind: rest.kind,
        control: rest.control,
        group: need.group,
        tag: rest.tag,
        services: need.services,
        groups: need.groups,
    }
}

/// What an entry needs, and the rest of it. Nothing is copied.
fn split(entry: Entry) -> (Need, Rest)
    ensures need { result.0 ≡ need_of entry }
    ensures rest { result.1 ≡ rest_of entry }
{
    let need = Need {
        name: entry.name,
        start: entry.start,
        group: entry.group,
        services: entry.services,
        groups: entry.groups,
    };
    let rest = Rest {
        kind: entry.kind,
        control: entry.control,
        tag: entry.tag,
    };
    (need, rest)
}

/// What each of the entries needs, and the rests of them. No name is copied.
pub(crate) fn split_all(
    alloc: Global,
    entries: Vec<Entry>,
) -> Result<(Needs, Vec<Rest>), AllocError>
    ensures needs { IfOk result (λ p. p.0 ≡ map need_of entries.items) }
    ensures rests { IfOk result (λ p. p.1.items ≡ map rest_of entries.items) }
{
    let mut needs = Needs::new(alloc);
    let mut rests = Vec::new(alloc);
    for entry in entries {
        let (need, rest) = split(entry);
        needs.push(need)?;
        rests.push(rest)?;
    }
    Ok((needs, rests))
}
