//! The lines of names: those that are lacking, and members.

ghost use Rattle.std.specs.Prelude.{◌≡◌, ◌<◌, ◌++◌, map, length, IfOk, OnOk};
ghost use Rattle.why_lacks.specs.why_lacks.Lacks.{spelled, spelled_at, service_line, member_line};

use crate::why_items::NeedsRun;
use answer_lines::why_lines::{WhyLine, WhyLines};
use nt_bytes::Units;
use reg_tree::Key;
use std::alloc::{AllocError, Global};
use why_needs::why_state::{PhaseView, key_named, need_of};

/// A name as the set spells it, else as it is.
pub(crate) fn spelled(alloc: Global, set: &Key, name: &Units) -> Result<Units, AllocError>
    ensures { IfOk result (λ units. units ≡ spelled set.now name.now) }
{
    match key_named(set, name.as_slice()) {
        Some(key) => key.name.copy(alloc),
        None => name.copy(alloc),
    }
}

fn spelled_at(alloc: Global, needs: &NeedsRun, at: usize, name: &Units) -> Result<Units, AllocError>
    ensures { IfOk result (λ units. units ≡ spelled_at needs.now at name.now) }
{
    match needs.run.run.start.phases.get(at) {
        Some(phase) => spelled(alloc, &phase.set, name),
        None => name.copy(alloc),
    }
}

fn service_line(
    alloc: Global,
    needs: &NeedsRun,
    at: usize,
    view: &PhaseView,
    name: &Units,
) -> Result<WhyLine, AllocError>
    requires { at < length needs.now.run.views }
    ensures { IfOk result (λ line. line ≡ service_line needs.now at view.now name.now) }
{
    Ok(WhyLine::LackService {
        state: need_of(&needs.run, at, view, name.as_slice()),
        name: spelled_at(alloc, needs, at, name)?,
    })
}

fn member_line(
    alloc: Global,
    needs: &NeedsRun,
    at: usize,
    view: &PhaseView,
    name: &Units,
) -> Result<WhyLine, AllocError>
    requires { at < length needs.now.run.views }
    ensures { IfOk result (λ line. line ≡ member_line needs.now at view.now name.now) }
{
    Ok(WhyLine::Member {
        state: need_of(&needs.run, at, view, name.as_slice()),
        name: name.copy(alloc)?,
    })
}

/// Puts the lines of lacking names after the others.
pub(crate) fn push_services(
    alloc: Global,
    needs: &NeedsRun,
    at: usize,
    view: &PhaseView,
    names: &[Units],
    lines: &mut WhyLines,
) -> Result<(), AllocError>
    requires { at < length needs.now.run.views }
    ensures { OnOk result (lines.new ≡ lines.old ++ map (service_line needs.now at view.now) names.now) }
{
    for name in names {
        lines.push(service_line(alloc, needs, at, view, name)?)?;
    }
    Ok(())
}

/// Puts the lines of members after the others.
pub(crate) fn push_members(
    alloc: Global,
    needs: &NeedsRun,
    at: usize,
    view: &PhaseView,
    names: &[Units],
    lines: &mut WhyLines,
) -> Result<(), AllocError>
    requires { at < length needs.now.run.views }
    ensures { OnOk result (lines.new ≡ lines.old ++ map (member_line needs.now at view.now) names.now) }
{
    for name in names {
        lines.push(member_line(alloc, needs, at, view, name)?)?;
    }
    Ok(())
}
