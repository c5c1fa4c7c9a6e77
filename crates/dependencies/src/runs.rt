//! Names in runs, each of them in order: a new name and the last runs become one, as bits carry.

ghost use Rattle.std.specs.Prelude.{◌≡◌, ◌<◌, ◌≤◌, ◌++◌, ◌∷◌, ◌||◌, [], Some, IfOk, OnOk, vec_len, vec_capacity, take, List, ℕ};
ghost use Rattle.std.specs.List.{flat_map};
ghost use Rattle.std.specs.Option.{option_to_list};
ghost use Rattle.dependencies.specs.Index.{AddsAlike, AreCarried, is_among, is_that, stands_in};

use crate::order::NamesInOrder;
use nt_bytes::Units;
use std::alloc::{AllocError, Global};

/// Whether one of the names in the runs is this one.
pub(crate) fn stands_in(runs: &[NamesInOrder], name: &[u16]) -> bool
    ensures { result ≡ stands_in runs.now name.now }
{
    runs.iter().any(|run| run.has(name))
}

/// A copy of the name, unless it is in the runs, or there is none.
fn unlisted(
    alloc: Global,
    runs: &[NamesInOrder],
    name: &Option<Units>,
) -> Result<Option<Units>, AllocError>
    ensures { IfOk result (λ n. AddsAlike runs.now name.now n) }
{
    match name {
        Some(units) => unlisted_name(alloc, runs, units),
        None => Ok(None),
    }
}

/// A copy of the name, unless it is in the runs.
fn unlisted_name(
    alloc: Global,
    runs: &[NamesInOrder],
    name: &Units,
) -> Result<Option<Units>, AllocError>
    ensures { IfOk result (λ n. AddsAlike runs.now (Some name.now) n) }
{
    if stands_in(runs, name.as_slice()) {
        Ok(None)
    } else {
        Ok(Some(name.copy(alloc)?))
    }
}

/// These names as one run.
pub(crate) fn one_run(alloc: Global, names: Vec<Units>) -> Result<Vec<NamesInOrder>, AllocError>
    ensures { IfOk result (λ runs. (q : List ℕ) → stands_in runs.items q ≡ is_among names.items q) }
{
    let only = NamesInOrder::new(names)?;
    let mut runs = Vec::new(alloc);
    runs.push(only)?;
    Ok(runs)
}

/// How many runs stay where a name reaches that many, and the run that goes after them.
fn carried(
    alloc: Global,
    runs: &[NamesInOrder],
    count: usize,
    name: Option<Units>,
) -> Result<(usize, NamesInOrder), AllocError>
    ensures { IfOk result (λ r. AreCarried runs.now name r.0 r.1) }
{
    let kept = kept(runs.len(), count);
    let run = merged(alloc, &runs[kept..], name)?;
    Ok((kept, run))
}

/// How many runs stay, and the run that goes after them, where this name is put in.
pub(crate) fn carried_name(
    alloc: Global,
    runs: &[NamesInOrder],
    count: usize,
    name: &Units,
) -> Result<(usize, NamesInOrder), AllocError>
    ensures { IfOk result (λ r. AreCarried runs.now (Some name.now) r.0 r.1) }
{
    let own = name.copy(alloc)?;
    carried(alloc, runs, count, Some(own))
}

/// The same for a name that is put in only where the runs lack it.
pub(crate) fn carried_group(
    alloc: Global,
    runs: &[NamesInOrder],
    count: usize,
    name: &Option<Units>,
) -> Result<(usize, NamesInOrder), AllocError>
    ensures { IfOk result (λ r. AreCarried runs.now name.now r.0 r.1) }
{
    let own = unlisted(alloc, runs, name)?;
    carried(alloc, runs, count, own)
}

/// How many runs stay. Each has a power of two of the names that were put in, the greatest one the first.
fn kept(runs: usize, count: usize) -> usize
    ensures { result ≤ runs }
{
    runs.saturating_sub(count.trailing_ones() as usize)
}

/// One run in place of these, with a name more where there is one.
fn merged(
    alloc: Global,
    runs: &[NamesInOrder],
    name: Option<Units>,
) -> Result<NamesInOrder, AllocError>
    ensures { IfOk result (λ s. (q : List ℕ) → is_among s q ≡ (stands_in runs.now q || is_that name q)) }
{
    let mut names = gathered(alloc, runs)?;
    push_some(&mut names, name)?;
    NamesInOrder::new(names)
}

/// The names of the runs, one run after another.
fn gathered(alloc: Global, runs: &[NamesInOrder]) -> Result<Vec<Units>, AllocError>
    ensures { IfOk result (λ names. names.items ≡ flat_map (λ run. run) runs.now) }
{
    let mut names = Vec::new(alloc);
    for run in runs {
        append(alloc, run.as_slice(), &mut names)?;
    }
    Ok(names)
}

/// Puts copies of the names after the others.
fn append(alloc: Global, names: &[Units], all: &mut Vec<Units>) -> Result<(), AllocError>
    ensures { OnOk result (all.new.items ≡ all.old.items ++ names.now) }
{
    for name in names {
        all.push(name.copy(alloc)?)?;
    }
    Ok(())
}

/// Puts a name after the others, where there is one.
pub(crate) fn push_some(names: &mut Vec<Units>, name: Option<Units>) -> Result<(), AllocError>
    ensures { OnOk result (names.new.items ≡ names.old.items ++ option_to_list name) }
{
    match name {
        Some(units) => {
            names.push(units)?;
            Ok(())
        }
        None => Ok(()),
    }
}

/// Puts a run in place of those after the first ones, where there is room.
pub(crate) fn replace(runs: &mut Vec<NamesInOrder>, kept: usize, run: NamesInOrder)
    requires { vec_len runs.old < vec_capacity runs.old }
    ensures { runs.new.items ≡ take kept runs.old.items ++ run ∷ [] }
{
    runs.truncate(kept);
    match runs.push(run) {
        Ok(()) => {}
        Err(_) => unreachable!(),
    }
}
