//! Which needs of an entry are wrong.

ghost use Rattle.std.specs.Prelude.{◌≡◌, ◌∷◌, ◌++◌, [], Some, OnOk};
ghost use Rattle.std.specs.List.{flat_map};
ghost use Rattle.std.specs.Option.{option_copied};
ghost use Rattle.start_model.specs.Order.{first_names};
ghost use Rattle.service_check.specs.Needs.{stage_fault, name_fault, service_fault, group_fault, is_demand, faults_at, need_faults};

use crate::names::first_names;
use crate::stage::{Stage, Staged};
use crate::table::Table;
use answer_lines::check_lines::{Fault, Faults};
use nt_bytes::Units;
use std::alloc::{AllocError, Global};

/// Appends what is wrong with the needs of an entry.
pub(crate) fn put_needs(
    alloc: Global,
    table: &Table,
    row: &Staged,
    faults: &mut Faults,
) -> Result<(), AllocError>
    ensures { OnOk result (faults.new ≡ faults.old ++ need_faults table.now row.now) }
{
    match row.stage {
        Some(own) => put_needs_at(alloc, table, row, own, faults),
        None => Ok(()),
    }
}

fn put_needs_at(
    alloc: Global,
    table: &Table,
    row: &Staged,
    own: Stage,
    faults: &mut Faults,
) -> Result<(), AllocError>
    ensures { OnOk result (faults.new ≡ faults.old ++ faults_at table.now row.now own) }
{
    let services = first_names(alloc, row.entry.services.as_slice())?;
    put_services(alloc, table, own, services.as_slice(), faults)?;
    let groups = first_names(alloc, row.entry.groups.as_slice())?;
    put_groups(alloc, table, own, groups.as_slice(), faults)
}

// ---- names

fn put_services(
    alloc: Global,
    table: &Table,
    own: Stage,
    needs: &[Units],
    faults: &mut Faults,
) -> Result<(), AllocError>
    ensures { OnOk result (faults.new ≡ faults.old ++ flat_map (service_fault table.now own) needs.now) }
{
    for need in needs {
        put_service(alloc, table, own, need, faults)?;
    }
    Ok(())
}

fn put_service(
    alloc: Global,
    table: &Table,
    own: Stage,
    need: &Units,
    faults: &mut Faults,
) -> Result<(), AllocError>
    ensures { OnOk result (faults.new ≡ faults.old ++ service_fault table.now own need.now) }
{
    put_name(alloc, table.named(need.as_slice()), own, need, faults)
}

fn put_name(
    alloc: Global,
    named: Option<&Staged>,
    own: Stage,
    need: &Units,
    faults: &mut Faults,
) -> Result<(), AllocError>
    ensures { OnOk result (faults.new ≡ faults.old ++ name_fault own need.now (option_copied named.entry)) }
{
    match named {
        Some(row) => put_stage(alloc, row.stage, row.entry.start, own, need, faults),
        None => faults.push(Fault::NoService {
            need: need.copy(alloc)?,
        }),
    }
}

fn put_stage(
    alloc: Global,
    stage: Option<Stage>,
    start: u32,
    own: Stage,
    need: &Units,
    faults: &mut Faults,
) -> Result<(), AllocError>
    ensures { OnOk result (faults.new ≡ faults.old ++ stage_fault own need.now start stage) }
{
    match stage {
        Some(other) => put_other(alloc, other, start, own, need, faults),
        None => put_never(alloc, start, need, faults),
    }
}

fn put_other(
    alloc: Global,
    other: Stage,
    start: u32,
    own: Stage,
    need: &Units,
    faults: &mut Faults,
) -> Result<(), AllocError>
    ensures { OnOk result (faults.new ≡ faults.old ++ stage_fault own need.now start (Some other)) }
{
    if is_demand(other) && !is_demand(own) {
        return put_never(alloc, start, need, faults);
    }
    if own.rank() < other.rank() {
        return faults.push(Fault::Later {
            start,
            need: need.copy(alloc)?,
        });
    }
    Ok(())
}

fn put_never(alloc: Global, start: u32, need: &Units, faults: &mut Faults) -> Result<(), AllocError>
    ensures { OnOk result (faults.new ≡ faults.old ++ Fault.Never start need.now ∷ []) }
{
    faults.push(Fault::Never {
        start,
        need: need.copy(alloc)?,
    })
}

pub(crate) fn is_demand(stage: Stage) -> bool
    ensures { result ≡ is_demand stage }
{
    match stage {
        Stage::Demand => true,
        Stage::Boot | Stage::System | Stage::Automatic => false,
    }
}

// ---- groups

fn put_groups(
    alloc: Global,
    table: &Table,
    own: Stage,
    needs: &[Units],
    faults: &mut Faults,
) -> Result<(), AllocError>
    ensures { OnOk result (faults.new ≡ faults.old ++ flat_map (group_fault table.now own) needs.now) }
{
    for need in needs {
        put_group(alloc, table, own, need, faults)?;
    }
    Ok(())
}

fn put_group(
    alloc: Global,
    table: &Table,
    own: Stage,
    need: &Units,
    faults: &mut Faults,
) -> Result<(), AllocError>
    ensures { OnOk result (faults.new ≡ faults.old ++ group_fault table.now own need.now) }
{
    if table.has_group(own, need) {
        return Ok(());
    }
    faults.push(Fault::NoMember {
        group: need.copy(alloc)?,
    })
}
