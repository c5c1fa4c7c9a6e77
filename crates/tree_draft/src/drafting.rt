//! Many steps made on a draft, all or none.

ghost use Rattle.std.specs.Prelude.{map};
ghost use Rattle.std.specs.List.{All};
ghost use Rattle.hive_model.specs.Edit.{after_steps, edited};
ghost use Rattle.hive_model.specs.Valid.{IsValid};
ghost use Rattle.reg_tree.specs.Fitting.{Fits};
ghost use Rattle.reg_tree.specs.Makes.{Makes, step_of};
ghost use Rattle.tree_draft.specs.Stops.{Answers, Drafts};

use crate::draft::Draft;
use crate::stop::DraftStop;
use nt_bytes::HiveVersion;
use reg_tree::{EditStop, Key, MOST_BULK, Steps, TreeStep};
use std::alloc::Global;

/// The least number of steps for which a draft is made.
const MANY: usize = 16;

/// Makes the steps in order on a draft.
fn make_steps(alloc: Global, work: &mut Draft, steps: &[TreeStep]) -> Result<(), DraftStop>
    ensures { Drafts work.new result (after_steps work.old (map step_of steps.now)) }
{
    let mut rest = steps;
    'steps: loop {
        let [step, more @ ..] = rest else {
            return Ok(());
        };
        match work.step(alloc, step) {
            Ok(()) => {}
            Err(stop) => return Err(stop),
        }
        rest = more;
    }
}

/// The tree after the steps.
fn drafted(alloc: Global, tree: &Key, steps: &[TreeStep]) -> Result<Key, DraftStop>
    ensures { Answers result (after_steps tree.now (map step_of steps.now)) }
{
    let mut work = Draft::of(alloc, tree.copy(alloc)?);
    make_steps(alloc, &mut work, steps)?;
    Ok(work.closed(alloc)?)
}

/// Makes the steps in order, all or none. The first step that is refused decides; where none is,
/// a result whose bulk in this version is over 16,773,120 bytes is `Full`. After an `Err` the tree is
/// as before. A tree that a hive can hold stays one, where each key that a step brings along can be
/// held too.
pub fn apply(
    tree: &mut Key,
    alloc: Global,
    steps: Steps,
    version: HiveVersion,
) -> Result<(), EditStop>
    ensures made { Makes tree.old tree.new result (edited version tree.old (map step_of steps)) }
    ensures valid { IsValid tree.old → All Fits (map step_of steps) → IsValid tree.new }
{
    if steps.len() < MANY {
        return tree.apply(alloc, steps, version);
    }
    match drafted(alloc, tree, steps.as_slice()) {
        Err(DraftStop::Disorder) => tree.apply(alloc, steps, version),
        Err(DraftStop::Refused(stop)) => Err(stop),
        Ok(work) => {
            if work.bulk(version) > MOST_BULK {
                return Err(EditStop::Full);
            }
            *tree = work;
            Ok(())
        }
    }
}
