//! What the beginning of a start and the save of a good one change.

ghost use Rattle.std.specs.Prelude.{◌≡◌, ◌≤◌, ◌∷◌, [], map, IfOk, Err, if◌then◌else◌};
ghost use Rattle.std.specs.List.{All};
ghost use Rattle.hive_model.specs.Valid.{HoldsKeys};
ghost use Rattle.reg_tree.specs.Fitting.{Fits};
ghost use Rattle.reg_tree.specs.Makes.{step_of};
ghost use Rattle.start_model.specs.Sets.{plan_with, begin_plan_of, guarded_plan, save_plan_of, taken_number, free_number_of, NoLastKnownGood, NoControlSet};
ghost use Rattle.select_keys.specs.Plans.{Plans, IsStopped};

use crate::name::set_name;
use crate::numbers::SelectNumbers;
use crate::steps::write_numbers;
use crate::stop::SelectStop;
use crate::taken::TakenNumbers;
use reg_tree::{Key, Steps, TreeStep};
use std::alloc::{AllocError, Global};
use std::marker::Model;

/// The number of a set, the numbers of `Select` then, and the steps that lead there. Where there are none,
/// nothing changes.
#[derive(Drop)]
pub struct SetPlan {
    /// The set that the start takes, or the saved one.
    pub chosen: u32,
    /// The numbers of `Select` after the steps.
    pub numbers: SelectNumbers,
    /// First a set is copied or added, then sets are deleted, then numbers are written.
    pub steps: Steps,
}

impl Model for SetPlan {
    ghost use Rattle.std.specs.Prelude.{map};
    ghost use Rattle.reg_tree.specs.Makes.{step_of};
    ghost use Rattle.start_model.specs.Sets.{SetPlan as Plan};
    ghost use Rattle.select_keys.specs.Codes.{coded_plan};

    ghost Value = { Plan };

    ghost coded = { coded_plan };

    ghost view = { λ a. record { chosen = a.chosen; numbers = a.numbers; steps = map step_of a.steps } };
}

/// What the beginning of a start changes, on LastKnownGood or on Default.
pub fn plan_begin(
    alloc: Global,
    numbers: SelectNumbers,
    taken: &TakenNumbers,
    last_known_good: bool,
) -> Result<SetPlan, SelectStop>
    ensures plans { Plans result (begin_plan_of numbers taken.now last_known_good) }
    ensures fits { IfOk result (λ plan. All Fits plan.steps) }
{
    let chosen = numbers.taken(last_known_good);
    if !taken.has(chosen) {
        return Err(not_there(last_known_good));
    }
    if numbers.good == chosen {
        return plan_guarded(alloc, numbers, taken, last_known_good);
    }
    let new = numbers.begun(last_known_good);
    let plan = plan_with(alloc, chosen, taken, numbers, new, Steps::new(alloc))?;
    Ok(plan)
}

/// What the save of a good start changes: the clone of its set is added under the least free number.
pub fn plan_save(
    alloc: Global,
    numbers: SelectNumbers,
    taken: &TakenNumbers,
    clone: Key,
) -> Result<SetPlan, SelectStop>
    ensures plans { Plans result (save_plan_of numbers taken.now clone) }
    ensures fits { HoldsKeys clone → IfOk result (λ plan. All Fits plan.steps) }
{
    let Some(free) = taken.free_number() else {
        return Err(SelectStop::NoFreeNumber);
    };
    let new = SelectNumbers {
        good: free,
        ..numbers
    };
    let first = TreeStep::AddChild {
        name: set_name(alloc, free)?,
        key: clone,
    };
    let plan = plan_with(alloc, free, taken, numbers, new, one_step(alloc, first)?)?;
    Ok(plan)
}

/// Why no set is taken.
fn not_there(last_known_good: bool) -> SelectStop
    ensures { IsStopped (Err (if last_known_good then NoLastKnownGood else NoControlSet)) result }
{
    if last_known_good {
        SelectStop::NoLastKnownGood
    } else {
        SelectStop::NoControlSet
    }
}

/// The plan of a beginning on the set that LastKnownGood names: that is copied first, so that it stays.
fn plan_guarded(
    alloc: Global,
    old: SelectNumbers,
    taken: &TakenNumbers,
    last_known_good: bool,
) -> Result<SetPlan, SelectStop>
    requires { taken_number old last_known_good ≤ 999 }
    ensures plans { Plans result (guarded_plan old taken.now last_known_good (free_number_of taken.now)) }
    ensures fits { IfOk result (λ plan. All Fits plan.steps) }
{
    let Some(free) = taken.free_number() else {
        return Err(SelectStop::NoFreeNumber);
    };
    let chosen = old.taken(last_known_good);
    let new = SelectNumbers {
        good: free,
        ..old.begun(last_known_good)
    };
    let first = TreeStep::CopyChild {
        from: set_name(alloc, chosen)?,
        to: set_name(alloc, free)?,
    };
    let plan = plan_with(alloc, chosen, taken, old, new, one_step(alloc, first)?)?;
    Ok(plan)
}

/// The plan that begins with these steps: then sets retire, and numbers are written.
fn plan_with(
    alloc: Global,
    chosen: u32,
    taken: &TakenNumbers,
    old: SelectNumbers,
    new: SelectNumbers,
    first: Steps,
) -> Result<SetPlan, AllocError>
    ensures plan { IfOk result (λ plan. plan ≡ plan_with chosen taken.now old new (map step_of first)) }
    ensures fits { All Fits (map step_of first) → IfOk result (λ plan. All Fits plan.steps) }
{
    let mut steps = first;
    taken.delete_retired(alloc, old, new, &mut steps)?;
    write_numbers(alloc, old, new, &mut steps)?;
    Ok(SetPlan {
        chosen,
        numbers: new,
        steps,
    })
}

fn one_step(alloc: Global, step: TreeStep) -> Result<Steps, AllocError>
    ensures { IfOk result (λ steps. steps ≡ step ∷ []) }
{
    let mut steps = Steps::new(alloc);
    steps.push(step)?;
    Ok(steps)
}
