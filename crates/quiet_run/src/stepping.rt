//! The steps that a plan makes on the live tree.

ghost use Rattle.std.specs.Prelude.{◌≡◌, map, IfOk};
ghost use Rattle.std.specs.List.{All};
ghost use Rattle.hive_model.specs.Edit.{edited};
ghost use Rattle.hive_model.specs.Valid.{IsValid};
ghost use Rattle.reg_tree.specs.Fitting.{Fits};
ghost use Rattle.reg_tree.specs.Makes.{step_of};
ghost use Rattle.start_model.specs.Sets.{stepped};
ghost use Rattle.quiet_run.specs.Play.{Stepped};

use nt_bytes::HiveVersion;
use reg_tree::{EditStop, Key, Steps};
use select_keys::SetPlan;
use std::alloc::{AllocError, Global};

/// The number of a plan, and its steps.
pub(crate) fn parts(plan: SetPlan) -> (u32, Steps)
    ensures number { result.0 ≡ plan.chosen }
    ensures steps { map step_of result.1 ≡ plan.steps }
{
    (plan.chosen, plan.steps)
}

/// Makes the steps, where there are any. Answers whether they were made.
pub(crate) fn step_tree(
    alloc: Global,
    steps: Steps,
    version: HiveVersion,
    tree: &mut Key,
) -> Result<bool, AllocError>
    requires valid { IsValid tree.old }
    requires fits { All Fits (map step_of steps) }
    ensures made { IfOk result (λ made. Stepped made (stepped version tree.old (map step_of steps)) tree.old tree.new) }
    ensures valid { IfOk result (λ made. IsValid tree.new) }
{
    if steps.is_empty() {
        return Ok(true);
    }
    apply(alloc, steps, version, tree)
}

/// Makes the steps, all or none. Answers whether they were made.
pub(crate) fn apply(
    alloc: Global,
    steps: Steps,
    version: HiveVersion,
    tree: &mut Key,
) -> Result<bool, AllocError>
    requires valid { IsValid tree.old }
    requires fits { All Fits (map step_of steps) }
    ensures made { IfOk result (λ made. Stepped made (edited version tree.old (map step_of steps)) tree.old tree.new) }
    ensures valid { IfOk result (λ made. IsValid tree.new) }
{
    match tree.apply(alloc, steps, version) {
        Ok(()) => Ok(true),
        Err(EditStop::Memory) => Err(AllocError),
        Err(
            EditStop::NoKey
            | EditStop::NoValue
            | EditStop::BadName
            | EditStop::Exists
            | EditStop::NameTooLong
            | EditStop::TooDeep
            | EditStop::DataTooLong
            | EditStop::Full,
        ) => Ok(false),
    }
}
