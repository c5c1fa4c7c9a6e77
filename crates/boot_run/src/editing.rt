//! Edits of the live tree.

ghost use Rattle.std.specs.Prelude.{◌≡◌, ◌∷◌, [], ℕ, true, false, Some, IfOk};
ghost use Rattle.nt_edge.specs.Disk.{DiskState};
ghost use Rattle.hive_model.specs.Edit.{edited};
ghost use Rattle.reg_tree.specs.Fitting.{Fits};
ghost use Rattle.reg_tree.specs.Makes.{step_of};
ghost use Rattle.boot_machine.specs.boot_machine.Views.{event_in};
ghost use Rattle.start_model.specs.Events.{Edit, Edits, is_protected};
ghost use Rattle.start_model.specs.Events as book;
ghost use Rattle.start_model.specs.Act.{RunState};
ghost use Rattle.start_model.specs.EventActs.{edit_done};
ghost use Rattle.boot_run.specs.Agrees.{IsLive, IsSound, Counts, TurnLeft, RunsOn};
ghost use Rattle.boot_run.specs.Edits.{edit_line, TellsLine};
ghost use Rattle.boot_run.specs.Hosts.{LeavesHost};
ghost use Rattle.boot_run.specs.Views.{told_in, moment, RunsTo};

use crate::live::Live;
use crate::runner::Runner;
use crate::saying::say;
use crate::stop::RunStop;
use crate::words::{edit_word, event_word};
use boot_script::boot_script::Event;
use nt_edge::Host;
use reg_tree::{EditStop, Steps, TreeStep};
use report_text::boot_report::Line;
use std::alloc::{AllocError, Global};

/// Says how the edit of the event ended.
fn say_edit<H: Host>(
    alloc: Global,
    event: &Event,
    done: Result<(), EditStop>,
    runner: &mut Runner,
    host: &mut H,
) -> Result<(), RunStop>
    ensures tells { (H.state host.old).tells ≡ true
        → TellsLine (edit_line (event_in event.now) done) (told_in (H.state host.old) runner.old) (told_in (H.state host.new) runner.new) result }
    ensures machine { runner.new.machine ≡ runner.old.machine }
    ensures starts { runner.new.starts ≡ runner.old.starts }
    ensures host { LeavesHost result (H.state host.old) (H.state host.new) }
{
    let Err(stop) = done else {
        return say(alloc, host, &mut runner.summary, Line::EditOk);
    };
    let Some(why) = edit_word(stop) else {
        return Err(RunStop::Memory);
    };
    let event = event_word(event);
    say(
        alloc,
        host,
        &mut runner.summary,
        Line::Refused { event, why },
    )
}

/// The step alone.
fn one_step(alloc: Global, step: TreeStep) -> Result<Steps, AllocError>
    ensures { IfOk result (λ steps. steps ≡ step ∷ []) }
{
    let mut steps = Steps::new(alloc);
    steps.push(step)?;
    Ok(steps)
}

/// Makes the edit of the event on the live tree, or says why it is refused.
pub(crate) fn edit<H: Host>(
    alloc: Global,
    event: &Event,
    step: TreeStep,
    hive: Live,
    runner: &mut Runner,
    host: &mut H,
) -> Result<Live, RunStop>
    requires fits { Fits (step_of step) }
    ensures sound { (d : DiskState) (e : Edit) (number : ℕ) → IsSound runner.old d (Some hive) → RunsOn runner.old number
        → step_of step ≡ book.step_of number e → is_protected e ≡ false → IfOk result (λ h. IsSound runner.new d (Some h)) }
    ensures plays { (d : DiskState) (m : RunState) (e : Edit) (number : ℕ) → (H.state host.old).tells ≡ true → Counts m runner.old
        → IsSound runner.old d (Some hive) → IsLive m hive d → event_in event.now ≡ Edits e → step_of step ≡ book.step_of number e
        → RunsTo (edit_done (Edits e) m (edited m.version m.live (book.step_of number e ∷ []))) (moment (H.state host.old) runner.old d)
        (moment (H.state host.new) runner.new d) result (λ h. TurnLeft runner.new d (Some h)) }
    ensures host { LeavesHost result (H.state host.old) (H.state host.new) }
{
    let mut hive = hive;
    let Ok(steps) = one_step(alloc, step) else {
        return Err(RunStop::Memory);
    };
    let done = hive.apply(alloc, steps);
    say_edit(alloc, event, done, runner, host)?;
    Ok(hive)
}
