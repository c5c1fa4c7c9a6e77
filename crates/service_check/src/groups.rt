//! Groups of taken entries that aren't listed.

ghost use Rattle.std.specs.Prelude.{◌≡◌, ◌++◌, map, filter, IfOk, OnOk};
ghost use Rattle.start_model.specs.Order.{first_names};
ghost use Rattle.service_check.specs.Check.{is_unlisted, unlisted_in, group_line, group_lines};

use crate::child::Scope;
use crate::names::firsts;
use crate::stage::Stage;
use answer_lines::check_lines::{CheckLine, CheckLines};
use boot_phases::group_order::Orders;
use nt_bytes::{Names, Units};
use nt_names::name_places::NamePlaces;
use std::alloc::{AllocError, Global};

/// Appends a line for each group that isn't listed, where the order is asked for.
pub(crate) fn put_groups(
    alloc: Global,
    scope: &Scope,
    lines: &mut CheckLines,
) -> Result<(), AllocError>
    ensures { OnOk result (lines.new ≡ lines.old ++ group_lines scope.now) }
{
    if scope.in_order {
        return put_unlisted(alloc, scope, lines);
    }
    Ok(())
}

fn put_unlisted(alloc: Global, scope: &Scope, lines: &mut CheckLines) -> Result<(), AllocError>
    ensures { OnOk result (lines.new ≡ lines.old ++ map (group_line (unlisted_in scope.now)) (first_names (unlisted_in scope.now))) }
{
    let taken = scope.table.groups(Stage::Automatic);
    let unlisted = unlisted_among(alloc, &scope.orders, taken.as_slice())?;
    let groups = NamePlaces::new(alloc, unlisted)?;
    let first = firsts(alloc, &groups)?;
    put_lines(alloc, &groups, first.as_slice(), lines)
}

/// Those of the groups that aren't listed.
fn unlisted_among(alloc: Global, orders: &Orders, groups: &[Units]) -> Result<Names, AllocError>
    ensures { IfOk result (λ n. n ≡ filter (is_unlisted orders.now) groups.now) }
{
    let mut unlisted = Names::new(alloc);
    for group in groups {
        if is_unlisted(orders, group) {
            unlisted.push(group.copy(alloc)?)?;
        }
    }
    Ok(unlisted)
}

fn is_unlisted(orders: &Orders, group: &Units) -> bool
    ensures { result ≡ is_unlisted orders.now group.now }
{
    orders.place_of(group.as_slice()).is_none()
}

fn put_lines(
    alloc: Global,
    groups: &NamePlaces,
    first: &[Units],
    lines: &mut CheckLines,
) -> Result<(), AllocError>
    ensures { OnOk result (lines.new ≡ lines.old ++ map (group_line groups.now) first.now) }
{
    for group in first {
        lines.push(group_line(alloc, groups, group)?)?;
    }
    Ok(())
}

fn group_line(alloc: Global, groups: &NamePlaces, group: &Units) -> Result<CheckLine, AllocError>
    ensures { IfOk result (λ l. l ≡ group_line groups.now group.now) }
{
    Ok(CheckLine::GroupUnlisted {
        count: groups.places(group.as_slice()).len() as u64,
        group: group.copy(alloc)?,
    })
}
