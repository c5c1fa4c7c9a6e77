//! Who leans on a name.

ghost use Rattle.std.specs.Prelude.{◌≡◌, ◌<◌, ◌^◌, ◌+◌, ◌++◌, ◌∷◌, [], ℕ, suc, not, map, filter, IfOk, IfSome, OnOk};
ghost use Rattle.std.specs.List.{filter_map, list_any, cons_option};
ghost use Rattle.failure_effects.specs.Lost.{has_name as has};
ghost use Rattle.hive_model.specs.Valid.{HoldsKeys};
ghost use Rattle.nt_bytes.specs.Folding.{folds_same};
ghost use Rattle.start_model.specs.Entries.{entries_of};
ghost use Rattle.failure_effects.specs.Givers.{AreLeft, rest_of};
ghost use Rattle.failure_effects.specs.Leans.{layer_of, first_layer, names_one, need_word, leans_line, leans_from, leans_on, leans_lines};

use crate::givers::{Left, Needers};
use crate::lines::{EffectLine, EffectLines, NeedWord};
use crate::lost::has_name;
use crate::states::States;
use boot_phases::service_entries::{Entry, entries};
use nt_bytes::{Names, Units, same_folded};
use nt_names::name_places::NamePlaces;
use reg_tree::Key;
use std::alloc::{AllocError, Global};

/// The names of entries, and the groups that they are members of, each found without a scan.
#[derive(Drop)]
pub struct Layer {
    pub names: NamePlaces,
    pub groups: NamePlaces,
}

/// How far a walk has come: a layer, and the entries that are in no layer so far.
#[derive(Drop)]
pub struct Walk {
    pub layer: Layer,
    pub left: Left,
}

/// Says who of the set leans on a name.
pub(crate) fn push_leaning(
    alloc: Global,
    set: &Key,
    states: &States<'_>,
    name: &Units,
    lines: &mut EffectLines,
) -> Result<(), AllocError>
    requires { HoldsKeys set.now }
    ensures { OnOk result (lines.new ≡ lines.old ++ leans_lines states.now name.now (entries_of set.now)) }
{
    let table = entries(alloc, set)?;
    let count = table.len();
    let needers = Needers::new(alloc, table.into_entries(alloc)?)?;
    let walk = first_walk(alloc, &needers, name)?;
    push_layers(alloc, states, count, &needers, walk, lines)
}

/// The name itself with the groups of its entry, and the other entries.
fn first_walk(alloc: Global, needers: &Needers, name: &Units) -> Result<Walk, AllocError>
    ensures layer { IfOk result (λ walk. walk.layer ≡ first_layer name.now needers.now) }
    ensures rest { IfOk result (λ walk. rest_of needers.now walk.left.rest.items ≡ filter (λ e. not (folds_same name.now e.name)) needers.now) }
    ensures left { IfOk result (λ walk. AreLeft needers.now walk.left) }
{
    let layer = first_layer(alloc, needers.as_slice(), name)?;
    let others = others(alloc, needers.as_slice(), name.as_slice())?;
    let left = needers.unseen(alloc, others)?;
    Ok(Walk { layer, left })
}

/// The name itself with the groups of its entry.
fn first_layer(alloc: Global, entries: &[Entry], name: &Units) -> Result<Layer, AllocError>
    ensures { IfOk result (λ layer. layer ≡ first_layer name.now entries.now) }
{
    let mut names = Names::new(alloc);
    names.push(name.copy(alloc)?)?;
    Ok(Layer {
        names: NamePlaces::new(alloc, names)?,
        groups: NamePlaces::new(alloc, named_groups(alloc, entries, name.as_slice())?)?,
    })
}

/// The groups of the entries of the name.
fn named_groups(alloc: Global, entries: &[Entry], name: &[u16]) -> Result<Names, AllocError>
    ensures { IfOk result (λ names. names ≡ filter_map (λ e. e.group) (filter (λ e. folds_same name.now e.name) entries.now)) }
{
    let mut names = Names::new(alloc);
    for entry in entries {
        push_group_where(alloc, name, entry, &mut names)?;
    }
    Ok(names)
}

/// Puts the group that the entry is a member of after the others, if it has the name.
fn push_group_where(
    alloc: Global,
    name: &[u16],
    entry: &Entry,
    names: &mut Names,
) -> Result<(), AllocError>
    ensures { OnOk result (names.new ≡ names.old ++ filter_map (λ e. e.group) (filter (λ e. folds_same name.now e.name) (entry.now ∷ []))) }
{
    if same_folded(name, entry.name.as_slice()) {
        push_group(alloc, entry, names)
    } else {
        Ok(())
    }
}

/// For each entry, whether it is another one.
fn others(alloc: Global, entries: &[Entry], name: &[u16]) -> Result<Vec<bool>, AllocError>
    ensures { IfOk result (λ others. others.items ≡ map (λ e. not (folds_same name.now e.name)) entries.now) }
{
    let mut others = Vec::new(alloc);
    for entry in entries {
        others.push(!same_folded(name, entry.name.as_slice()))?;
    }
    Ok(others)
}

/// The names of the entries, in their order.
fn names_of(alloc: Global, entries: &[Entry]) -> Result<Names, AllocError>
    ensures { IfOk result (λ names. names ≡ map (λ e. e.name) entries.now) }
{
    let mut names = Names::new(alloc);
    for entry in entries {
        names.push(entry.name.copy(alloc)?)?;
    }
    Ok(names)
}

/// The groups that the entries are members of, in their order.
fn groups_of(alloc: Global, entries: &[Entry]) -> Result<Names, AllocError>
    ensures { IfOk result (λ names. names ≡ filter_map (λ e. e.group) entries.now) }
{
    let mut names = Names::new(alloc);
    for entry in entries {
        push_group(alloc, entry, &mut names)?;
    }
    Ok(names)
}

/// Puts the group that the entry is a member of after the others, if it is one.
fn push_group(alloc: Global, entry: &Entry, names: &mut Names) -> Result<(), AllocError>
    ensures { OnOk result (names.new ≡ names.old ++ cons_option entry.now.group []) }
{
    match &entry.group {
        Some(group) => names.push(group.copy(alloc)?),
        None => Ok(()),
    }
}

/// The layer of these entries.
fn layer_of(alloc: Global, entries: &[Entry]) -> Result<Layer, AllocError>
    ensures { IfOk result (λ layer. layer ≡ layer_of entries.now) }
{
    Ok(Layer {
        names: NamePlaces::new(alloc, names_of(alloc, entries)?)?,
        groups: NamePlaces::new(alloc, groups_of(alloc, entries)?)?,
    })
}

/// Whether DependOnService names one of the layer.
fn names_one(layer: &Layer, entry: &Entry) -> bool
    ensures { result ≡ names_one layer.now entry.now }
{
    any_named(&layer.names, entry.services.as_slice())
}

/// Whether one of these names is among those.
fn any_named(names: &NamePlaces, wanted: &[Units]) -> bool
    ensures { result ≡ list_any (has names.now) wanted.now }
{
    wanted.iter().any(|name| has_name(names, name.as_slice()))
}

/// How the entry needs one of the layer.
fn need_word(layer: &Layer, entry: &Entry) -> NeedWord
    ensures { result ≡ need_word layer.now entry.now }
{
    if names_one(layer, entry) {
        NeedWord::Service
    } else {
        NeedWord::Group
    }
}

fn leans_line(
    alloc: Global,
    states: &States<'_>,
    steps: usize,
    layer: &Layer,
    entry: &Entry,
) -> Result<EffectLine, AllocError>
    ensures { IfOk result (λ line. line ≡ leans_line states.now steps layer.now entry.now) }
{
    Ok(EffectLine::Leans {
        steps,
        by: need_word(layer, entry),
        state: states.state(entry.name.as_slice()),
        name: entry.name.copy(alloc)?,
    })
}

/// Says the entries that need one of the layer.
fn push_near(
    alloc: Global,
    states: &States<'_>,
    steps: usize,
    layer: &Layer,
    near: &[Entry],
    lines: &mut EffectLines,
) -> Result<(), AllocError>
    ensures { OnOk result (lines.new ≡ lines.old ++ map (leans_line states.now steps layer.now) near.now) }
{
    for entry in near {
        lines.push(leans_line(alloc, states, steps, layer, entry)?)?;
    }
    Ok(())
}

/// Says the entries that need one of the layer, and goes on to theirs, if there is one.
fn next_layer(
    alloc: Global,
    states: &States<'_>,
    steps: usize,
    needers: &Needers,
    walk: Walk,
    lines: &mut EffectLines,
) -> Result<Option<Walk>, AllocError>
    requires { AreLeft needers.now walk.left }
    ensures lines { IfOk result (λ next. (n : ℕ) → lines.new ++ leans_on n (steps + 1) states.now needers.now next
        ≡ lines.old ++ leans_from (suc n) steps states.now walk.layer (rest_of needers.now walk.left.rest.items)) }
    ensures left { IfOk result (λ next. IfSome next (λ w. AreLeft needers.now w.left)) }
{
    let Walk { layer, left } = walk;
    let mut left = left;
    let near = needers.near(alloc, &layer, &mut left)?;
    if near.is_empty() {
        return Ok(None);
    }
    push_near(alloc, states, steps, &layer, near.as_slice(), lines)?;
    let next = layer_of(alloc, near.as_slice())?;
    Ok(Some(Walk { layer: next, left }))
}

/// Says layer after layer, at most that many.
fn push_layers(
    alloc: Global,
    states: &States<'_>,
    count: usize,
    needers: &Needers,
    walk: Walk,
    lines: &mut EffectLines,
) -> Result<(), AllocError>
    requires count { count < 2 ^ 32 }
    requires left { AreLeft needers.now walk.left }
    ensures { OnOk result (lines.new ≡ lines.old ++ leans_from count 1 states.now walk.layer (rest_of needers.now walk.left.rest.items)) }
{
    let mut walk = walk;
    for steps in 0..count {
        match next_layer(alloc, states, steps + 1, needers, walk, lines)? {
            Some(next) => walk = next,
            None => return Ok(()),
        }
    }
    Ok(())
}
