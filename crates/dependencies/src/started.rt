//! Who was started, found by name and by group without a scan.

ghost use Rattle.std.specs.Prelude.{◌≡◌, ◌<◌, ◌∷◌, ◌++◌, [], map, IfOk, OnOk, OnErr, vec_len, vec_capacity};
ghost use Rattle.std.specs.List.{flat_map};
ghost use Rattle.std.specs.Option.{option_to_list};
ghost use Rattle.start_model.specs.Ready.{has_name, has_group};

use crate::need::copied;
use crate::order::NamesInOrder;
use crate::runs::{carried_group, carried_name, one_run, push_some, replace, stands_in};
use nt_bytes::Units;
use std::alloc::{AllocError, Global};
use std::marker::Model;

/// Who was started, the first one first: the name, and the group where there is one.
/// Beside them stand the names and the groups in runs that are in order, in which one is found without a scan.
#[derive(Drop)]
pub struct Started {
    // For contracts alone: a ghost field holds no data, and the lists below lose the order and the pairs.
    entries: Vec<(Units, Option<Units>)>,
    names: Vec<NamesInOrder>,
    groups: Vec<NamesInOrder>,
}

impl Model for Started {
    ghost use Rattle.std.specs.Prelude.{ℕ, List, Option};
    ghost use Rattle.dependencies.specs.Index.{IsIndexed};

    ghost Value = { List (List ℕ × Option (List ℕ)) };

    ghost view = { λ a. a.entries.items };

    ghost invariant = { λ a. IsIndexed a.entries.items a.names.items a.groups.items };
}

impl Started {
    /// Nobody was started. It takes no memory yet.
    pub fn new(alloc: Global) -> Started
        ensures { result ≡ [] }
    {
        Started {
            entries: Vec::new(alloc),
            names: Vec::new(alloc),
            groups: Vec::new(alloc),
        }
    }

    /// These entries, the first one first. Takes n log n time in their number.
    pub(crate) fn of(
        alloc: Global,
        entries: Vec<(Units, Option<Units>)>,
    ) -> Result<Started, AllocError>
        ensures { IfOk result (λ s. s ≡ entries.items) }
    {
        let name_list = names_of(alloc, entries.as_slice())?;
        let group_list = groups_of(alloc, entries.as_slice())?;
        let names = one_run(alloc, name_list)?;
        let groups = one_run(alloc, group_list)?;
        Ok(Started {
            entries,
            names,
            groups,
        })
    }

    /// Puts an entry after the others. Without memory for it they stay as they were.
    pub fn push(
        &mut self,
        alloc: Global,
        name: Units,
        group: Option<Units>,
    ) -> Result<(), AllocError>
        ensures ok { OnOk result (self.new ≡ self.old ++ (name, group) ∷ []) }
        ensures err { OnErr result (self.new ≡ self.old) }
    {
        let count = self.entries.len();
        let (names_kept, names) = carried_name(alloc, self.names.as_slice(), count, &name)?;
        let (groups_kept, groups) = carried_group(alloc, self.groups.as_slice(), count, &group)?;
        make_room(&mut self.entries, &mut self.names, &mut self.groups)?;
        put(&mut self.entries, (name, group));
        replace(&mut self.names, names_kept, names);
        replace(&mut self.groups, groups_kept, groups);
        Ok(())
    }

    /// Who was started, the first one first.
    pub(crate) fn labels(&self) -> &[(Units, Option<Units>)]
        ensures { result.now ≡ self.now }
    {
        self.entries.as_slice()
    }

    /// Whether an entry of this name was started.
    pub(crate) fn has_name(&self, name: &[u16]) -> bool
        ensures { result ≡ has_name self.now name.now }
    {
        stands_in(self.names.as_slice(), name)
    }

    /// Whether an entry of this group was started.
    pub(crate) fn has_group(&self, group: &[u16]) -> bool
        ensures { result ≡ has_group self.now group.now }
    {
        stands_in(self.groups.as_slice(), group)
    }
}

/// Makes room for one more in each of the lists.
fn make_room(
    entries: &mut Vec<(Units, Option<Units>)>,
    names: &mut Vec<NamesInOrder>,
    groups: &mut Vec<NamesInOrder>,
) -> Result<(), AllocError>
    ensures entries { entries.new.items ≡ entries.old.items }
    ensures names { names.new.items ≡ names.old.items }
    ensures groups { groups.new.items ≡ groups.old.items }
    ensures entry_room { OnOk result (vec_len entries.new < vec_capacity entries.new) }
    ensures name_room { OnOk result (vec_len names.new < vec_capacity names.new) }
    ensures group_room { OnOk result (vec_len groups.new < vec_capacity groups.new) }
{
    entries.reserve(1)?;
    names.reserve(1)?;
    groups.reserve(1)?;
    Ok(())
}

/// Puts an entry after the others, where there is room.
fn put(entries: &mut Vec<(Units, Option<Units>)>, entry: (Units, Option<Units>))
    requires { vec_len entries.old < vec_capacity entries.old }
    ensures { entries.new.items ≡ entries.old.items ++ entry ∷ [] }
{
    match entries.push(entry) {
        Ok(()) => {}
        Err(_) => unreachable!(),
    }
}

/// A copy of each entry, in order.
pub(crate) fn copied_labels(
    alloc: Global,
    labels: &[(Units, Option<Units>)],
) -> Result<Vec<(Units, Option<Units>)>, AllocError>
    ensures { IfOk result (λ l. l.items ≡ labels.now) }
{
    let mut made = Vec::new(alloc);
    for label in labels {
        let name = label.0.copy(alloc)?;
        let group = copied(alloc, &label.1)?;
        made.push((name, group))?;
    }
    Ok(made)
}

/// The name of each entry, in order.
fn names_of(alloc: Global, labels: &[(Units, Option<Units>)]) -> Result<Vec<Units>, AllocError>
    ensures { IfOk result (λ names. names.items ≡ map (λ l. l.0) labels.now) }
{
    let mut names = Vec::new(alloc);
    for label in labels {
        names.push(label.0.copy(alloc)?)?;
    }
    Ok(names)
}

/// The group of each entry that has one, in order.
fn groups_of(alloc: Global, labels: &[(Units, Option<Units>)]) -> Result<Vec<Units>, AllocError>
    ensures { IfOk result (λ groups. groups.items ≡ flat_map (λ l. option_to_list l.1) labels.now) }
{
    let mut groups = Vec::new(alloc);
    for label in labels {
        push_some(&mut groups, copied(alloc, &label.1)?)?;
    }
    Ok(groups)
}
