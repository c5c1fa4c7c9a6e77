//! The entries of a set with their stages, found by name and by group.

ghost use Rattle.std.specs.Prelude.{◌≡◌, ◌++◌, ◌^◌, ◌<◌, map, length, position, IfOk, IfSome, OnOk};
ghost use Rattle.std.specs.List.{list_any};
ghost use Rattle.std.specs.Option.{option_copied, option_to_list};
ghost use Rattle.nt_bytes.specs.Folding.{folds_same};
ghost use Rattle.hive_model.specs.Valid.{HoldsKeys};
ghost use Rattle.start_model.specs.Entries.{entries_of};
ghost use Rattle.service_check.specs.Stages.{staged_in, rows_of};
ghost use Rattle.service_check.specs.Needs.{names_of, named, group_upto, groups_upto};

use crate::names::has_name;
use crate::stage::{Stage, Staged, TakenNames, is_upto};
use boot_phases::service_entries::{Entry, entries};
use nt_bytes::{Names, Units};
use nt_names::name_places::NamePlaces;
use reg_tree::Key;
use std::alloc::{AllocError, Global};
use std::marker::Model;

/// The entries of a set, in the order of the registry. Contracts see their list.
#[derive(Drop)]
pub(crate) struct Table {
    rows: Vec<Staged>,
    names: NamePlaces,
    boot_groups: NamePlaces,
    system_groups: NamePlaces,
    taken_groups: NamePlaces,
}

impl Model for Table {
    ghost use Rattle.std.specs.Prelude.{List};
    ghost use Rattle.service_check.specs.declared.stage.Staged.{Staged as StagedEntry};
    ghost use Rattle.service_check.specs.Indexed.{IsIndexed};

    ghost Value = { List StagedEntry };

    ghost view = { λ a. a.rows.items };

    ghost invariant = { λ a. IsIndexed a.rows.items a.names a.boot_groups a.system_groups a.taken_groups };
}

impl Table {
    /// The entries of a set. Takes n log n time in them and their names.
    pub(crate) fn of(alloc: Global, set: &Key) -> Result<Table, AllocError>
        requires { HoldsKeys set.now }
        ensures { IfOk result (λ t. t ≡ rows_of set.now) }
    {
        let rows = rows(alloc, set)?;
        indexed(alloc, rows)
    }

    /// How many entries there are.
    pub(crate) fn len(&self) -> usize
        ensures len { result ≡ length self.now }
        ensures few { result < 2 ^ 32 }
    {
        self.rows.len()
    }

    /// The entries.
    pub(crate) fn rows(&self) -> &[Staged]
        ensures { result.now ≡ self.now }
    {
        self.rows.as_slice()
    }

    /// The place of the entry of this name.
    #[tactic(auto, using(crate::proofs::TableLemmas::count_names))]
    pub(crate) fn place_of(&self, name: &[u16]) -> Option<usize>
        ensures place { result ≡ position (folds_same name.now) (names_of self.now) }
        ensures within { IfSome result (λ at. at < length self.now) }
    {
        self.names.place_of(name)
    }

    /// The entry of this name.
    pub(crate) fn named(&self, name: &[u16]) -> Option<&Staged>
        ensures { option_copied result ≡ named self.now name.now }
    {
        let place = self.names.place_of(name)?;
        self.rows.as_slice().get(place)
    }

    /// The groups of the entries that are taken by this stage.
    #[tactic(auto, using(crate::proofs::TableLemmas::same_groups))]
    pub(crate) fn groups(&self, stage: Stage) -> &NamePlaces
        ensures { result.now ≡ groups_upto stage self.now }
    {
        match stage {
            Stage::Boot => &self.boot_groups,
            Stage::System => &self.system_groups,
            Stage::Automatic | Stage::Demand => &self.taken_groups,
        }
    }

    /// How many groups these are.
    #[tactic(auto, using(crate::proofs::TableLemmas::few_groups))]
    pub(crate) fn count_groups(&self, stage: Stage) -> usize
        ensures len { result ≡ length (groups_upto stage self.now) }
        ensures few { result < 2 ^ 32 }
    {
        let _ = &self.rows;
        self.groups(stage).as_slice().len()
    }

    /// Whether an entry of this group is taken by this stage.
    pub(crate) fn has_group(&self, stage: Stage, group: &Units) -> bool
        ensures { result ≡ list_any (folds_same group.now) (groups_upto stage self.now) }
    {
        has_name(self.groups(stage), group)
    }
}

/// The entries, found by name and by group.
fn indexed(alloc: Global, rows: Vec<Staged>) -> Result<Table, AllocError>
    requires { length rows.items < 2 ^ 32 }
    ensures { IfOk result (λ t. t ≡ rows.items) }
{
    let names = NamePlaces::new(alloc, names_of(alloc, rows.as_slice())?)?;
    let (boot_groups, system_groups, taken_groups) = stage_groups(alloc, rows.as_slice())?;
    Ok(Table {
        rows,
        names,
        boot_groups,
        system_groups,
        taken_groups,
    })
}

/// The groups of the entries that the boot phase takes, and then those of the next two.
fn stage_groups(
    alloc: Global,
    rows: &[Staged],
) -> Result<(NamePlaces, NamePlaces, NamePlaces), AllocError>
    ensures boot { IfOk result (λ r. r.0 ≡ groups_upto Stage.Boot rows.now) }
    ensures system { IfOk result (λ r. r.1 ≡ groups_upto Stage.System rows.now) }
    ensures taken { IfOk result (λ r. r.2 ≡ groups_upto Stage.Automatic rows.now) }
{
    let boot = stage_group(alloc, Stage::Boot, rows)?;
    let system = stage_group(alloc, Stage::System, rows)?;
    let taken = stage_group(alloc, Stage::Automatic, rows)?;
    Ok((boot, system, taken))
}

/// The groups of the entries that are taken by this stage, found without a scan.
fn stage_group(alloc: Global, stage: Stage, rows: &[Staged]) -> Result<NamePlaces, AllocError>
    ensures { IfOk result (λ g. g ≡ groups_upto stage rows.now) }
{
    NamePlaces::new(alloc, groups_upto(alloc, stage, rows)?)
}

/// The entries with their stages.
fn rows(alloc: Global, set: &Key) -> Result<Vec<Staged>, AllocError>
    requires { HoldsKeys set.now }
    ensures rows { IfOk result (λ r. r.items ≡ rows_of set.now) }
    ensures few { IfOk result (λ r. length r.items < 2 ^ 32) }
{
    let taken = TakenNames::of(alloc, set)?;
    taken_rows(alloc, &taken, set)
}

/// The same by the names that each phase takes.
fn taken_rows(alloc: Global, taken: &TakenNames, set: &Key) -> Result<Vec<Staged>, AllocError>
    requires { HoldsKeys set.now }
    ensures rows { IfOk result (λ r. r.items ≡ map (staged_in taken.now) (entries_of set.now)) }
    ensures few { IfOk result (λ r. length r.items < 2 ^ 32) }
{
    let table = entries(alloc, set)?;
    let count = table.len();
    let entries = table.into_entries(alloc)?;
    few_staged(alloc, taken, entries.into_vec(), count)
}

/// The same of that many entries.
fn few_staged(
    alloc: Global,
    taken: &TakenNames,
    entries: Vec<Entry>,
    count: usize,
) -> Result<Vec<Staged>, AllocError>
    requires count { count ≡ length entries.items }
    requires few { count < 2 ^ 32 }
    ensures rows { IfOk result (λ r. r.items ≡ map (staged_in taken.now) entries.items) }
    ensures few { IfOk result (λ r. length r.items < 2 ^ 32) }
{
    each_staged(alloc, taken, entries)
}

fn each_staged(
    alloc: Global,
    taken: &TakenNames,
    entries: Vec<Entry>,
) -> Result<Vec<Staged>, AllocError>
    ensures { IfOk result (λ r. r.items ≡ map (staged_in taken.now) entries.items) }
{
    entries
        .into_iter()
        .map(|entry| staged(taken, entry))
        .collect(alloc)
}

fn staged(taken: &TakenNames, entry: Entry) -> Staged
    ensures { result ≡ staged_in taken.now entry }
{
    let stage = taken.stage(&entry);
    Staged { entry, stage }
}

/// The names of the entries.
fn names_of(alloc: Global, rows: &[Staged]) -> Result<Names, AllocError>
    ensures { IfOk result (λ n. n ≡ names_of rows.now) }
{
    let mut names = Names::new(alloc);
    for row in rows {
        names.push(row.entry.name.copy(alloc)?)?;
    }
    Ok(names)
}

/// The groups of the entries that are taken by this stage.
fn groups_upto(alloc: Global, stage: Stage, rows: &[Staged]) -> Result<Names, AllocError>
    ensures { IfOk result (λ n. n ≡ groups_upto stage rows.now) }
{
    let mut groups = Names::new(alloc);
    for row in rows {
        put_group(alloc, stage, row, &mut groups)?;
    }
    Ok(groups)
}

fn put_group(
    alloc: Global,
    stage: Stage,
    row: &Staged,
    groups: &mut Names,
) -> Result<(), AllocError>
    ensures { OnOk result (groups.new ≡ groups.old ++ group_upto stage row.now) }
{
    if is_upto(stage, row.stage) {
        return put_own(alloc, &row.entry.group, groups);
    }
    Ok(())
}

fn put_own(alloc: Global, group: &Option<Units>, groups: &mut Names) -> Result<(), AllocError>
    ensures { OnOk result (groups.new ≡ groups.old ++ option_to_list group.now) }
{
    match group {
        Some(name) => groups.push(name.copy(alloc)?),
        None => Ok(()),
    }
}
