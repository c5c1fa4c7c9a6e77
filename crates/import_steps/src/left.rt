//! Steps without those that delete what isn't there.

ghost use Rattle.std.specs.Prelude.{◌≡◌, ◌++◌, ◌∷◌, [], map, IfOk, OnOk};
ghost use Rattle.std.specs.List.{All};
ghost use Rattle.std.specs.Vec.Iter.{into_iter_items};
ghost use Rattle.hive_model.specs.Valid.{HoldsKeys};
ghost use Rattle.reg_tree.specs.Fitting.{Fits};
ghost use Rattle.reg_tree.specs.Makes.{step_of};
ghost use Rattle.import_steps.specs.Left.{left_of};
ghost use Rattle.import_steps.specs.Made.{left_seen};
ghost use Rattle.import_steps.specs.Verdict.{IsMarkedBy};

use crate::marks::{Life, Marks};
use crate::verdict::{Verdict, judged, marked_by, seen_with};
use nt_bytes::Row;
use reg_tree::{Key, Steps, TreeStep};
use std::alloc::{AllocError, Global};
use std::vec::IntoIter;

/// The steps that are left, and how many were passed over.
#[derive(Drop)]
pub struct LeftSteps {
    pub steps: Steps,
    pub passed: usize,
}

fn push_rest(steps: &mut Steps, rest: IntoIter<TreeStep>) -> Result<(), AllocError>
    ensures { OnOk result (map step_of steps.new ≡ map step_of steps.old ++ map step_of (into_iter_items rest)) }
{
    let mut more = rest;
    'steps: while let Some(step) = more.next() {
        steps.push(step)?;
    }
    Ok(())
}

/// Puts a step after those that are left, and then the rest, none of which is judged.
fn ended(left: &mut Steps, step: TreeStep, rest: IntoIter<TreeStep>) -> Result<(), AllocError>
    ensures { OnOk result (map step_of left.new ≡ map step_of left.old ++ step_of step ∷ map step_of (into_iter_items rest)) }
{
    left.push(step)?;
    push_rest(left, rest)
}

/// Marks a step, and puts it after those that are left.
fn made(
    alloc: Global,
    marks: Marks,
    tree: &Key,
    step: TreeStep,
    left: &mut Steps,
) -> Result<Marks, AllocError>
    ensures marked { IfOk result (IsMarkedBy (step_of step) tree.now marks) }
    ensures left { OnOk result (left.new ≡ left.old ++ step ∷ []) }
{
    let marks = marked_by(alloc, marks, tree, &step)?;
    left.push(step)?;
    Ok(marks)
}

/// Puts the steps that are left into a list without any, and answers how many were passed over.
fn judge_each(
    alloc: Global,
    tree: &Key,
    steps: Steps,
    left: &mut Steps,
) -> Result<usize, AllocError>
    requires held { HoldsKeys tree.now }
    requires none { left.old ≡ [] }
    ensures { IfOk result (λ passed. left_seen (record { steps = left.new; passed = passed }) ≡ left_of tree.now (map step_of steps)) }
{
    let mut passed: usize = 0;
    let mut marks = Marks::new(alloc, Life::Kept);
    let mut rest = steps.into_vec().into_iter();
    'steps: while let Some(step) = rest.next() {
        match judged(alloc, seen_with(&marks, tree), &step)? {
            Verdict::Void => passed += 1,
            Verdict::Ends => {
                ended(left, step, rest)?;
                return Ok(passed);
            }
            Verdict::Made => marks = made(alloc, marks, tree, step, left)?,
        }
    }
    Ok(passed)
}

fn judge_all(alloc: Global, tree: &Key, steps: Steps) -> Result<LeftSteps, AllocError>
    requires { HoldsKeys tree.now }
    ensures { IfOk result (λ left. left_seen left ≡ left_of tree.now (map step_of steps)) }
{
    let mut left = Row::new(alloc);
    let passed = judge_each(alloc, tree, steps, &mut left)?;
    Ok(LeftSteps {
        steps: left,
        passed,
    })
}

/// The steps without those that delete a key or a value which isn't there when their turn comes, and how many these are.
pub fn left_steps(alloc: Global, tree: &Key, steps: Steps) -> Result<LeftSteps, AllocError>
    requires { HoldsKeys tree.now }
    ensures left { IfOk result (λ left. left_seen left ≡ left_of tree.now (map step_of steps)) }
    ensures fits { All Fits (map step_of steps) → IfOk result (λ left. All Fits (map step_of left.steps)) }
{
    judge_all(alloc, tree, steps)
}
