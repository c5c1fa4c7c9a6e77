//! The beginning of a start: which set is taken, and what its beginning changes.

ghost use Rattle.std.specs.Prelude.{◌≡◌, Result, None, OnOk, if◌then◌else◌};
ghost use Rattle.std.specs.List.{All};
ghost use Rattle.reg_tree.specs.Fitting.{Fits};
ghost use Rattle.select_keys.specs.Plans.{IsStopped};
ghost use Rattle.report_words.specs.declared.words.CommitWord.TheVariants as commits;
ghost use Rattle.start_model.specs.Sets.{SetPlan as Plan, SelectNumbers, SetStop, select_numbers_of, taken_number, stepped, changed_by, planned};
ghost use Rattle.start_model.specs.Commit.{commit};
ghost use Rattle.start_model.specs.Boot.{begin_start, begin_by, take_set};
ghost use Rattle.quiet_run.specs.Play.{state_in, watched_in, IsSound, IsSetNumber};
ghost use Rattle.quiet_run.specs.Watch.{watch};

use crate::committing::commit;
use crate::ending::end;
use crate::play::Play;
use crate::sets::set_in;
use crate::stepping::{parts, step_tree};
use boot_machine::boot_machine::Verdict;
use select_keys::{SelectStop, SetPlan, plan_begin, select_numbers, sets_in};
use std::alloc::{AllocError, Global};

/// The start begins on the set of this number, in its boot phase.
fn begin_on(alloc: Global, number: u32, on_good: bool, play: &mut Play) -> Result<(), AllocError>
    requires off { play.old.machine.start ≡ None }
    requires sound { IsSound play.old }
    requires number { IsSetNumber number }
    ensures watched { OnOk result ((numbers : SelectNumbers)
        → watched_in play.new ≡ watch (begin_start number on_good numbers (state_in play.old)) play.old.last) }
    ensures sound { OnOk result (IsSound play.new) }
{
    let set = set_in(alloc, &play.live, number)?;
    play.machine.begin_with(alloc, set, number, on_good)?;
    play.last.ended = true;
    Ok(())
}

/// The live tree is committed, and the start begins.
fn begin_committed(
    alloc: Global,
    number: u32,
    on_good: bool,
    play: &mut Play,
) -> Result<(), AllocError>
    requires off { play.old.machine.start ≡ None }
    requires sound { IsSound play.old }
    requires number { IsSetNumber number }
    ensures watched { OnOk result ((numbers : SelectNumbers) → watched_in play.new
        ≡ watch (commit commits.Begin play.old.live (state_in play.old) (begin_start number on_good numbers)) play.old.last) }
    ensures sound { OnOk result (IsSound play.new) }
{
    commit(alloc, play)?;
    begin_on(alloc, number, on_good, play)
}

/// The live tree is committed where something changed, and the start begins.
fn begin_made(
    alloc: Global,
    changed: bool,
    number: u32,
    on_good: bool,
    play: &mut Play,
) -> Result<(), AllocError>
    requires off { play.old.machine.start ≡ None }
    requires sound { IsSound play.old }
    requires number { IsSetNumber number }
    ensures watched { OnOk result ((numbers : SelectNumbers) → watched_in play.new
        ≡ watch (if changed then commit commits.Begin play.old.live (state_in play.old) (begin_start number on_good numbers)
        else begin_start number on_good numbers (state_in play.old)) play.old.last) }
    ensures sound { OnOk result (IsSound play.new) }
{
    if changed {
        return begin_committed(alloc, number, on_good, play);
    }
    begin_on(alloc, number, on_good, play)
}

/// The steps of the plan are made, and the start begins; or it ends as full.
fn begin_planned(
    alloc: Global,
    plan: SetPlan,
    taken: u32,
    on_good: bool,
    play: &mut Play,
) -> Result<(), AllocError>
    requires off { play.old.machine.start ≡ None }
    requires sound { IsSound play.old }
    requires number { IsSetNumber plan.chosen }
    requires fits { All Fits plan.steps }
    requires taken { taken ≡ taken_number (select_numbers_of play.old.live) on_good }
    ensures watched { OnOk result (watched_in play.new
        ≡ watch (begin_by on_good (state_in play.old) (changed_by plan (stepped play.old.version play.old.live plan.steps))) play.old.last) }
    ensures sound { OnOk result (IsSound play.new) }
{
    let (number, steps) = parts(plan);
    let changed = !steps.is_empty();
    play.last.set = Some((taken, on_good));
    if step_tree(alloc, steps, play.version, &mut play.live)? {
        return begin_made(alloc, changed, number, on_good, play);
    }
    end(Verdict::Full, play);
    Ok(())
}

/// There is no plan, for this reason: the start ends.
fn end_unset(stop: SelectStop, taken: u32, on_good: bool, play: &mut Play) -> Result<(), AllocError>
    requires taken { taken ≡ taken_number (select_numbers_of play.old.live) on_good }
    requires sound { IsSound play.old }
    ensures watched { OnOk result ((r : Result Plan SetStop) → IsStopped r stop
        → watched_in play.new ≡ watch (begin_by on_good (state_in play.old) (planned play.old.version play.old.live r)) play.old.last) }
    ensures sound { OnOk result (IsSound play.new) }
{
    match stop {
        SelectStop::NoControlSet => end(Verdict::NoControlSet, play),
        SelectStop::NoLastKnownGood => end(Verdict::NoLastKnownGood, play),
        SelectStop::NoFreeNumber => {
            play.last.set = Some((taken, on_good));
            end(Verdict::NoNumber, play);
        }
        SelectStop::Memory => return Err(AllocError),
    }
    Ok(())
}

/// LastKnownGood or Default is taken, guard and retirement are done, and the start begins; or it ends.
pub(crate) fn take_set(alloc: Global, on_good: bool, play: &mut Play) -> Result<(), AllocError>
    requires off { play.old.machine.start ≡ None }
    requires sound { IsSound play.old }
    ensures watched { OnOk result (watched_in play.new ≡ watch (take_set on_good (state_in play.old)) play.old.last) }
    ensures sound { OnOk result (IsSound play.new) }
{
    let numbers = select_numbers(&play.live);
    let sets = sets_in(&play.live);
    match plan_begin(alloc, numbers, &sets, on_good) {
        Ok(plan) => begin_planned(alloc, plan, numbers.taken(on_good), on_good, play),
        Err(stop) => end_unset(stop, numbers.taken(on_good), on_good, play),
    }
}
