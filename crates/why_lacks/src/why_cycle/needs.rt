//! The open lacks of items, and the items that they lead to.

ghost use Rattle.std.specs.Prelude.{◌≡◌, ◌<◌, length, IfOk};
ghost use Rattle.why_lacks.specs.why_cycle.Needs.{if_open, group_ways};

use crate::why_items::{NeedsRun, all_leads, members_at};
use nt_bytes::{Row, Units};
use std::alloc::{AllocError, Global};
use why_needs::why_state::PhaseView;

/// A group of that many members leads to items, where it is open.
fn if_open(count: usize, to: Row<usize>) -> Option<Row<usize>>
    ensures { result ≡ if_open count to }
{
    if 0 < count && to.len() == count {
        Some(to)
    } else {
        None
    }
}

/// The ways of a group, where it is open.
pub(crate) fn group_ways(
    alloc: Global,
    needs: &NeedsRun,
    at: usize,
    view: &PhaseView,
    group: &Units,
) -> Result<Option<Row<usize>>, AllocError>
    requires { at < length needs.now.run.views }
    ensures { IfOk result (λ ways. ways ≡ group_ways needs.now at view.now group.now) }
{
    let names = members_at(alloc, needs, at, group.as_slice())?;
    let to = all_leads(alloc, needs, at, view, names.as_slice())?;
    Ok(if_open(names.len(), to))
}
