//! The lines of lacking groups.

ghost use Rattle.std.specs.Prelude.{◌≡◌, ◌<◌, ◌++◌, [], map, length, IfOk, OnOk, if◌then◌else◌};
ghost use Rattle.why_needs.specs.why_needs.Lacking.{is_first};
ghost use Rattle.why_lacks.specs.why_items.Items.{members_at};
ghost use Rattle.why_lacks.specs.why_lacks.Lacks.{member_line, key_at, group_lines, groups_from};

use crate::why_items::{NeedsRun, has_members, members_at};
use crate::why_lacks::names::push_members;
use answer_lines::why_lines::{WhyLine, WhyLines};
use nt_bytes::Units;
use nt_names::name_places::NamePlaces;
use std::alloc::{AllocError, Global};
use why_needs::why_state::PhaseView;

/// A group in a phase, as one name. There are fewer than four phases.
pub(crate) fn key_at(alloc: Global, at: usize, group: &Units) -> Result<Units, AllocError>
    ensures { IfOk result (λ key. key ≡ key_at at group.now) }
{
    let Ok(first) = u16::try_from(at) else {
        return Err(AllocError);
    };
    let mut units = Vec::new(alloc);
    units.push(first)?;
    units.extend_from_slice(group.as_slice())?;
    Ok(Units::from_vec(units))
}

/// Puts the members after the others, where `shown`.
fn push_where(
    alloc: Global,
    needs: &NeedsRun,
    at: usize,
    view: &PhaseView,
    group: &Units,
    shown: bool,
    lines: &mut WhyLines,
) -> Result<(), AllocError>
    requires { at < length needs.now.run.views }
    ensures { OnOk result (lines.new ≡ lines.old ++ (if shown then map (member_line needs.now at view.now) (members_at needs.now at group.now) else [])) }
{
    if shown {
        let members = members_at(alloc, needs, at, group.as_slice())?;
        return push_members(alloc, needs, at, view, members.as_slice(), lines);
    }
    Ok(())
}

/// Puts a group's line after the others, and its members where `shown`.
fn push_group(
    alloc: Global,
    needs: &NeedsRun,
    at: usize,
    view: &PhaseView,
    group: &Units,
    shown: bool,
    lines: &mut WhyLines,
) -> Result<(), AllocError>
    requires { at < length needs.now.run.views }
    ensures { OnOk result (lines.new ≡ lines.old ++ group_lines needs.now at view.now group.now shown) }
{
    lines.push(WhyLine::LackGroup {
        has_members: has_members(needs, at, group.as_slice()),
        name: group.copy(alloc)?,
    })?;
    push_where(alloc, needs, at, view, group, shown, lines)
}

/// Whether no name before this place folds as this one does.
fn is_first(names: &NamePlaces, at: usize, name: &[u16]) -> bool
    ensures { result ≡ is_first names.now at name.now }
{
    match names.place_of(name) {
        Some(first) => first == at,
        None => false,
    }
}

/// Whether a group is the first of its name in the phase, by its place among all.
fn is_shown(
    alloc: Global,
    keys: &NamePlaces,
    k: usize,
    at: usize,
    group: &Units,
) -> Result<bool, AllocError>
    ensures { IfOk result (λ shown. shown ≡ is_first keys.now k (key_at at group.now)) }
{
    let key = key_at(alloc, at, group)?;
    Ok(is_first(keys, k, key.as_slice()))
}

/// Puts the lines of groups after the others, the first of which is that at a place of all.
pub(crate) fn push_groups(
    alloc: Global,
    needs: &NeedsRun,
    keys: &NamePlaces,
    at: usize,
    view: &PhaseView,
    k: usize,
    groups: &[Units],
    lines: &mut WhyLines,
) -> Result<(), AllocError>
    requires { at < length needs.now.run.views }
    ensures { OnOk result (lines.new ≡ lines.old ++ groups_from needs.now keys.now at view.now k groups.now) }
{
    let mut rest = groups;
    let mut place = k;
    'group: loop {
        let [group, more @ ..] = rest else {
            return Ok(());
        };
        let shown = is_shown(alloc, keys, place, at, group)?;
        push_group(alloc, needs, at, view, group, shown, lines)?;
        let Some(next) = place.checked_add(1) else {
            return Err(AllocError);
        };
        place = next;
        rest = more;
    }
}
