//! Entries that wait for one another.

ghost use Rattle.std.specs.Prelude.{◌≡◌, ◌+◌, ◌<◌, ◌++◌, map, slice_index_or, [], IfOk, OnOk};
ghost use Rattle.wait_cycles.specs.Waits.{cycles_of};
ghost use Rattle.service_check.specs.Needs.{waits_of};
ghost use Rattle.service_check.specs.Check.{name_at, cycle_line, numbered_lines, cycle_lines};

use crate::child::Scope;
use crate::table::Table;
use crate::waits::waits;
use answer_lines::check_lines::{CheckLine, CheckLines};
use nt_bytes::{Row, Units};
use std::alloc::{AllocError, Global};

/// Appends the members of each cycle.
pub(crate) fn put_cycles(
    alloc: Global,
    scope: &Scope,
    lines: &mut CheckLines,
) -> Result<(), AllocError>
    ensures { OnOk result (lines.new ≡ lines.old ++ cycle_lines scope.now) }
{
    let cycles = cycles_in(alloc, &scope.table)?;
    put_all(alloc, &scope.table, cycles.as_slice(), lines)
}

/// The cycles of the entries, each by their places.
fn cycles_in(alloc: Global, table: &Table) -> Result<Row<Row<usize>>, AllocError>
    ensures { IfOk result (λ c. c ≡ cycles_of (waits_of table.now)) }
{
    let rows = waits(alloc, table)?;
    wait_cycles::cycles(alloc, rows.as_slice(), table.len())
}

fn put_all(
    alloc: Global,
    table: &Table,
    cycles: &[Row<usize>],
    lines: &mut CheckLines,
) -> Result<(), AllocError>
    ensures { OnOk result (lines.new ≡ lines.old ++ numbered_lines table.now cycles.now) }
{
    for at in 0..cycles.len() {
        put_cycle(alloc, table, at + 1, cycle_at(cycles, at), lines)?;
    }
    Ok(())
}

/// The cycle at a place, which is empty past the last one.
fn cycle_at(cycles: &[Row<usize>], at: usize) -> &[usize]
    ensures { result.now ≡ slice_index_or cycles.now at [] }
{
    match cycles.get(at) {
        Some(cycle) => cycle.as_slice(),
        None => &[],
    }
}

fn put_cycle(
    alloc: Global,
    table: &Table,
    number: usize,
    places: &[usize],
    lines: &mut CheckLines,
) -> Result<(), AllocError>
    ensures { OnOk result (lines.new ≡ lines.old ++ map (cycle_line table.now number) places.now) }
{
    for place in places {
        let name = name_at(alloc, table, *place)?;
        lines.push(CheckLine::Cycle {
            number: number as u64,
            name,
        })?;
    }
    Ok(())
}

/// The name of the entry at a place.
fn name_at(alloc: Global, table: &Table, place: usize) -> Result<Units, AllocError>
    ensures { IfOk result (λ n. n ≡ name_at table.now place) }
{
    match table.rows().get(place) {
        Some(row) => row.entry.name.copy(alloc),
        None => Ok(Units::new(alloc)),
    }
}
