//! The logon, and the save of a start that is good.

ghost use Rattle.std.specs.Prelude.{◌≡◌, None, Err, OnOk, Some, Result};
ghost use Rattle.std.specs.List.{All};
ghost use Rattle.hive_model.specs.Tree.{Tree};
ghost use Rattle.hive_model.specs.Valid.{HoldsKeys};
ghost use Rattle.reg_tree.specs.Fitting.{Fits};
ghost use Rattle.select_keys.specs.Plans.{IsStopped};
ghost use Rattle.start_model.specs.Machine.{Start};
ghost use Rattle.start_model.specs.Sets.{SetPlan as Plan, SetStop, NoPlan, stepped, changed_by, planned, save_of};
ghost use Rattle.start_model.specs.Act.{done};
ghost use Rattle.start_model.specs.Commit.{saved_by, save_where_due};
ghost use Rattle.start_model.specs.EventActs.{logon_act};
ghost use Rattle.quiet_run.specs.Play.{state_in, watched_in, IsSound};
ghost use Rattle.quiet_run.specs.Watch.{watch};

use crate::committing::commit;
use crate::play::Play;
use crate::stepping::{parts, step_tree};
use reg_tree::Key;
use select_keys::{SelectStop, SetPlan, plan_save, select_numbers, sets_in};
use std::alloc::{AllocError, Global};

/// Makes the steps of the plan, and commits the tree with the clone in it; a tree that grew too large is refused.
fn save_by(alloc: Global, plan: SetPlan, play: &mut Play) -> Result<(), AllocError>
    requires sound { IsSound play.old }
    requires fits { All Fits plan.steps }
    ensures watched { OnOk result ((s : Start) (clone : Tree) → play.old.machine.start ≡ Some (record s { clone = None }) → watched_in play.new
        ≡ watch (saved_by s clone (state_in play.old) done (changed_by plan (stepped play.old.version play.old.live plan.steps))) play.old.last) }
    ensures sound { OnOk result (IsSound play.new) }
{
    let (_, steps) = parts(plan);
    if !step_tree(alloc, steps, play.version, &mut play.live)? {
        play.machine.saved(false);
        return Ok(());
    }
    commit(alloc, play)?;
    play.machine.saved(true);
    Ok(())
}

/// The save is refused, since there is no plan.
fn unsaved(play: &mut Play)
    requires sound { IsSound play.old }
    ensures watched { (s : Start) (clone : Tree) (why : SetStop) → play.old.machine.start ≡ Some (record s { clone = None })
        → watched_in play.new ≡ watch (saved_by s clone (state_in play.old) done (Err (NoPlan why))) play.old.last }
    ensures sound { IsSound play.new }
{
    play.machine.saved(false);
}

/// There is no plan, for this reason.
fn refuse(stop: SelectStop, play: &mut Play) -> Result<(), AllocError>
    requires sound { IsSound play.old }
    ensures watched { OnOk result ((s : Start) (clone : Tree) (r : Result Plan SetStop) → play.old.machine.start ≡ Some (record s { clone = None })
        → IsStopped r stop
        → watched_in play.new ≡ watch (saved_by s clone (state_in play.old) done (planned play.old.version play.old.live r)) play.old.last) }
    ensures sound { OnOk result (IsSound play.new) }
{
    match stop {
        SelectStop::NoControlSet => unsaved(play),
        SelectStop::NoLastKnownGood => unsaved(play),
        SelectStop::NoFreeNumber => unsaved(play),
        SelectStop::Memory => return Err(AllocError),
    }
    Ok(())
}

/// Adds the clone under a free number, and commits the live tree with it; where none is free that is refused.
fn save(alloc: Global, clone: Key, play: &mut Play) -> Result<(), AllocError>
    requires sound { IsSound play.old }
    requires clone { HoldsKeys clone }
    ensures watched { OnOk result ((s : Start) → play.old.machine.start ≡ Some (record s { clone = None }) → watched_in play.new
        ≡ watch (saved_by s clone (state_in play.old) done (save_of play.old.version play.old.live clone)) play.old.last) }
    ensures sound { OnOk result (IsSound play.new) }
{
    let numbers = select_numbers(&play.live);
    let sets = sets_in(&play.live);
    match plan_save(alloc, numbers, &sets, clone) {
        Ok(plan) => save_by(alloc, plan, play),
        Err(stop) => refuse(stop, play),
    }
}

/// Where the start became good just now, its clone is saved. A start must run.
pub(crate) fn save_where_due(alloc: Global, play: &mut Play) -> Result<(), AllocError>
    requires sound { IsSound play.old }
    ensures watched { OnOk result ((s : Start) → play.old.machine.start ≡ Some s
        → watched_in play.new ≡ watch (save_where_due (Some s) (state_in play.old) done) play.old.last) }
    ensures sound { OnOk result (IsSound play.new) }
{
    if !play.machine.save_due() {
        return Ok(());
    }
    match play.machine.take_clone() {
        Some(clone) => save(alloc, clone, play),
        None => Ok(()),
    }
}

/// Notes the logon, and saves a start that became good by it.
pub(crate) fn logon(alloc: Global, play: &mut Play) -> Result<(), AllocError>
    requires sound { IsSound play.old }
    ensures watched { OnOk result ((s : Start) → play.old.machine.start ≡ Some s
        → watched_in play.new ≡ watch (logon_act s (state_in play.old)) play.old.last) }
    ensures sound { OnOk result (IsSound play.new) }
{
    play.machine.log_on();
    save_where_due(alloc, play)
}
