//! Edits of the live tree, flush and off.

ghost use Rattle.std.specs.Prelude.{◌≡◌, ◌∷◌, [], ◌||◌, true, false, map, not, IfOk, OnOk, Some};
ghost use Rattle.std.specs.List.{All};
ghost use Rattle.boot_machine.specs.boot_machine.Steps.{is_there};
ghost use Rattle.hive_model.specs.Tree.{same_tree};
ghost use Rattle.hive_model.specs.Edit.{edited};
ghost use Rattle.reg_tree.specs.Fitting.{Fits};
ghost use Rattle.reg_tree.specs.Makes.{step_of};
ghost use Rattle.start_model.specs.Events.{Event};
ghost use Rattle.start_model.specs.Machine.{Start, ending_of};
ghost use Rattle.report_words.specs.declared.words.CommitWord.TheVariants as commits;
ghost use Rattle.start_model.specs.Act.{end_with};
ghost use Rattle.start_model.specs.Commit.{commit};
ghost use Rattle.start_model.specs.EventActs.{edit_done, flush_act, off_act};
ghost use Rattle.quiet_run.specs.Play.{state_in, watched_in, IsSound};
ghost use Rattle.quiet_run.specs.Watch.{watch};

use crate::committing::commit;
use crate::ending::end_off;
use crate::play::Play;
use crate::stepping::apply;
use reg_tree::{Key, Steps, TreeStep};
use std::alloc::{AllocError, Global};

/// The step alone.
fn one_step(alloc: Global, step: TreeStep) -> Result<Steps, AllocError>
    ensures { IfOk result (λ steps. steps ≡ step ∷ []) }
{
    let mut steps = Steps::new(alloc);
    steps.push(step)?;
    Ok(steps)
}

/// Whether the tree is another one than before, or was.
fn is_changed(changed: bool, before: &Key, live: &Key) -> bool
    ensures { result ≡ (changed || not (same_tree before.now live.now)) }
{
    changed || !is_same(before, live)
}

/// Whether two trees are one.
fn is_same(a: &Key, b: &Key) -> bool
    ensures { result ≡ same_tree a.now b.now }
{
    a.same(b)
}

/// Makes the edit, unless it is refused.
pub(crate) fn edit(alloc: Global, step: TreeStep, play: &mut Play) -> Result<(), AllocError>
    requires sound { IsSound play.old }
    requires fits { Fits (step_of step) }
    ensures watched { OnOk result ((e : Event) → watched_in play.new
        ≡ watch (edit_done e (state_in play.old) (edited play.old.version play.old.live (step_of step ∷ []))) play.old.last) }
    ensures sound { OnOk result (IsSound play.new) }
{
    let steps = one_step(alloc, step)?;
    let before = play.live.copy(alloc)?;
    make(alloc, steps, &before, play)
}

/// Makes the steps on the tree, which was this before, unless they are refused.
fn make(alloc: Global, steps: Steps, before: &Key, play: &mut Play) -> Result<(), AllocError>
    requires sound { IsSound play.old }
    requires fits { All Fits (map step_of steps) }
    requires before { before.now ≡ play.old.live }
    ensures watched { OnOk result ((e : Event) → watched_in play.new
        ≡ watch (edit_done e (state_in play.old) (edited play.old.version play.old.live (map step_of steps))) play.old.last) }
    ensures sound { OnOk result (IsSound play.new) }
{
    if !apply(alloc, steps, play.version, &mut play.live)? {
        return Ok(());
    }
    play.changed = is_changed(play.changed, before, &play.live);
    Ok(())
}

/// Commits what was changed.
pub(crate) fn flush(alloc: Global, play: &mut Play) -> Result<(), AllocError>
    requires sound { IsSound play.old }
    ensures watched { OnOk result (watched_in play.new ≡ watch (flush_act (state_in play.old)) play.old.last) }
    ensures sound { OnOk result (IsSound play.new) }
{
    if !play.changed {
        return Ok(());
    }
    commit(alloc, play)
}

/// Commits, and ends the start. One must run.
fn commit_off(alloc: Global, play: &mut Play) -> Result<(), AllocError>
    requires sound { IsSound play.old }
    requires on { is_there play.old.machine.start ≡ true }
    ensures watched { OnOk result ((s : Start) → play.old.machine.start ≡ Some s → watched_in play.new
        ≡ watch (commit commits.Off play.old.live (state_in play.old) (end_with (ending_of s) false)) play.old.last) }
    ensures sound { OnOk result (IsSound play.new) }
{
    commit(alloc, play)?;
    end_off(play);
    Ok(())
}

/// Commits what was changed, and ends the start. One must run.
pub(crate) fn off(alloc: Global, play: &mut Play) -> Result<(), AllocError>
    requires sound { IsSound play.old }
    requires on { is_there play.old.machine.start ≡ true }
    ensures watched { OnOk result ((s : Start) → play.old.machine.start ≡ Some s
        → watched_in play.new ≡ watch (off_act s (state_in play.old)) play.old.last) }
    ensures sound { OnOk result (IsSound play.new) }
{
    if play.changed {
        return commit_off(alloc, play);
    }
    end_off(play);
    Ok(())
}
