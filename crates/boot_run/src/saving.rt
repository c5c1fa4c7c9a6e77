//! The logon, and the save of a start that is good.

ghost use Rattle.std.specs.Prelude.{◌≡◌, true, Some, IfOk, IfErr, OnOk, IfSome};
ghost use Rattle.std.specs.Option.{option_map_or};
ghost use Rattle.std.specs.List.{All};
ghost use Rattle.hive_model.specs.Tree.{Tree};
ghost use Rattle.hive_model.specs.Valid.{HoldsKeys};
ghost use Rattle.reg_tree.specs.Fitting.{Fits};
ghost use Rattle.nt_edge.specs.Disk.{DiskState};
ghost use Rattle.boot_machine.specs.boot_machine.Steps.{on_start};
ghost use Rattle.report_words.specs.declared.words.CommitWord.TheVariants as commits;
ghost use Rattle.start_model.specs.Machine.{Start};
ghost use Rattle.start_model.specs.Sets.{planned, save_of, save_plan_of, select_numbers_of, usable_numbers_of};
ghost use Rattle.start_model.specs.Act.{RunState, Act, done};
ghost use Rattle.start_model.specs.Commit.{saved_by};
ghost use Rattle.start_model.specs.EventActs.{logon_act};
ghost use Rattle.start_model.specs.Commit as book;
ghost use Rattle.run_parts.specs.run_parts.Parts.{Stays};
ghost use Rattle.run_parts.specs.printed_parts.Parts.{TellsOr};
ghost use Rattle.boot_run.specs.Agrees.{IsStored, IsLive, IsSound, Counts, CommitLeft, OnLeft};
ghost use Rattle.boot_run.specs.Hosts.{LeavesHost};
ghost use Rattle.boot_run.specs.Turns.{Turns, stage};
ghost use Rattle.boot_run.specs.Saves.{HandedOut, IsSavePlan, PlansOr, noting};
ghost use Rattle.boot_run.specs.declared.stop.RunStop.TheVariants.{Memory};
ghost use Rattle.boot_run.specs.Views.{moment, told_in, RunsTo};

use crate::committing::commit_live;
use crate::live::Live;
use crate::runner::Runner;
use crate::saying::say;
use crate::sets::{live_numbers, live_sets};
use crate::stop::RunStop;
use crate::words::{edit_word, select_line};
use nt_edge::{Bench, Host};
use reg_tree::Key;
use report_text::boot_report::{CommitWord, Line};
use select_keys::{SelectNumbers, SelectStop, SetPlan, plan_save};
use std::alloc::Global;

/// Says a line, and notes whether the good start was saved.
fn note<H: Host>(
    alloc: Global,
    line: Line,
    ok: bool,
    runner: &mut Runner,
    host: &mut H,
) -> Result<(), RunStop>
    ensures tells { (H.state host.old).tells ≡ true
        → TellsOr line (told_in (H.state host.old) runner.old) (told_in (H.state host.new) runner.new) result }
    ensures machine { OnOk result (runner.new.machine ≡ on_start (λ s. record s { saved = Some ok }) runner.old.machine) }
    ensures starts { runner.new.starts ≡ runner.old.starts }
    ensures host { LeavesHost result (H.state host.old) (H.state host.new) }
{
    say(alloc, host, &mut runner.summary, line)?;
    runner.machine.saved(ok);
    Ok(())
}

/// After the commit of a save: the numbers are printed, and the save is noted. A start that was stopped is over.
fn note_behind<H: Host>(
    alloc: Global,
    numbers: SelectNumbers,
    left: &Option<Live>,
    runner: &mut Runner,
    host: &mut H,
) -> Result<(), RunStop>
    ensures sound { (d : DiskState) → IsSound runner.old d left.now → OnOk result (IsSound runner.new d left.now) }
    ensures plays { (m : RunState) (s : Start) (tree : Tree) (next : RunState → Act) (d : DiskState) (rest : Act) → (H.state host.old).tells ≡ true
        → HandedOut m s → IsSound runner.old d left.now → CommitLeft m tree (noting numbers s next) runner.old d left.now rest → Stays next
        → RunsTo rest (moment (H.state host.old) runner.old d) (moment (H.state host.new) runner.new d)
        result (λ u a. OnLeft next runner.new d left.now a) }
    ensures host { LeavesHost result (H.state host.old) (H.state host.new) }
{
    match left {
        Some(_) => note(alloc, select_line(numbers), true, runner, host),
        None => Ok(()),
    }
}

/// Commits the tree with the clone in it, says the numbers, and notes the save.
fn commit_save<H: Host, B: Bench>(
    alloc: Global,
    numbers: SelectNumbers,
    hive: Live,
    runner: &mut Runner,
    host: &mut H,
    bench: &mut B,
) -> Result<Option<Live>, RunStop>
    requires sound { IsSound runner.old (B.state bench.old) (Some hive) }
    ensures sound { IfOk result (IsSound runner.new (B.state bench.new)) }
    ensures plays { (m : RunState) (s : Start) (next : RunState → Act) → (H.state host.old).tells ≡ true → HandedOut m s → Counts m runner.old
        → IsStored m hive (B.state bench.old) → Stays next
        → RunsTo (book.commit commits.Save hive.tree m (noting numbers s next)) (moment (H.state host.old) runner.old (B.state bench.old))
        (moment (H.state host.new) runner.new (B.state bench.new)) result (OnLeft next runner.new (B.state bench.new)) }
    ensures host { LeavesHost result (H.state host.old) (H.state host.new) }
{
    let left = commit_live(alloc, CommitWord::Save, hive, runner, host, bench)?;
    note_behind(alloc, numbers, &left, runner, host)?;
    Ok(left)
}

/// Says why the save was refused, and notes it.
fn refuse<H: Host>(
    alloc: Global,
    full: bool,
    hive: Live,
    runner: &mut Runner,
    host: &mut H,
) -> Result<Option<Live>, RunStop>
    ensures sound { (d : DiskState) → IsSound runner.old d (Some hive) → IfOk result (IsSound runner.new d) }
    ensures plays { (m : RunState) (s : Start) (next : RunState → Act) (d : DiskState) → (H.state host.old).tells ≡ true → HandedOut m s → Counts m runner.old
        → IsSound runner.old d (Some hive) → IsLive m hive d → Stays next
        → RunsTo (book.save_refused full s m next) (moment (H.state host.old) runner.old d) (moment (H.state host.new) runner.new d)
        result (OnLeft next runner.new d) }
    ensures host { LeavesHost result (H.state host.old) (H.state host.new) }
{
    note(alloc, Line::SaveRefused { full }, false, runner, host)?;
    Ok(Some(hive))
}

/// Makes the steps of the plan, and commits the tree with the clone in it; a tree that grew too large is refused.
fn save_by<H: Host, B: Bench>(
    alloc: Global,
    plan: SetPlan,
    hive: Live,
    runner: &mut Runner,
    host: &mut H,
    bench: &mut B,
) -> Result<Option<Live>, RunStop>
    requires sound { IsSound runner.old (B.state bench.old) (Some hive) }
    requires fits { All Fits plan.steps }
    requires plan { (clone : Tree) × IsSavePlan hive.tree clone plan }
    ensures sound { IfOk result (IsSound runner.new (B.state bench.new)) }
    ensures plays { (m : RunState) (s : Start) (clone : Tree) (next : RunState → Act) → (H.state host.old).tells ≡ true → HandedOut m s → Counts m runner.old
        → IsLive m hive (B.state bench.old) → IsSavePlan hive.tree clone plan → Stays next
        → RunsTo (saved_by s clone m next (planned m.version m.live (save_plan_of (select_numbers_of m.live) (usable_numbers_of m.live) clone)))
        (moment (H.state host.old) runner.old (B.state bench.old)) (moment (H.state host.new) runner.new (B.state bench.new))
        result (OnLeft next runner.new (B.state bench.new)) }
    ensures host { LeavesHost result (H.state host.old) (H.state host.new) }
{
    let mut hive = hive;
    match hive.apply(alloc, plan.steps) {
        Ok(()) => commit_save(alloc, plan.numbers, hive, runner, host, bench),
        Err(stop) => match edit_word(stop) {
            Some(_) => refuse(alloc, true, hive, runner, host),
            None => Err(RunStop::Memory),
        },
    }
}

/// The plan of the clone's save in the live tree; none where no number is free.
fn plan_of(alloc: Global, clone: Key, live: &Live) -> Result<Option<SetPlan>, RunStop>
    requires { HoldsKeys clone }
    ensures plan { IfOk result (λ o. PlansOr o (save_plan_of (select_numbers_of live.now.tree) (usable_numbers_of live.now.tree) clone)) }
    ensures fits { IfOk result (λ o. IfSome o (λ plan. All Fits plan.steps)) }
    ensures memory { IfErr result (λ stop. stop ≡ Memory) }
{
    let Ok(numbers) = live_numbers(alloc, &live.hive) else {
        return Err(RunStop::Memory);
    };
    let Ok(taken) = live_sets(alloc, &live.hive) else {
        return Err(RunStop::Memory);
    };
    match plan_save(alloc, numbers, &taken, clone) {
        Ok(plan) => Ok(Some(plan)),
        Err(SelectStop::Memory) => Err(RunStop::Memory),
        Err(_) => Ok(None),
    }
}

/// Adds the clone under a free number, and commits the live tree with it; where none is free that is refused.
fn save<H: Host, B: Bench>(
    alloc: Global,
    clone: Key,
    hive: Live,
    runner: &mut Runner,
    host: &mut H,
    bench: &mut B,
) -> Result<Option<Live>, RunStop>
    requires sound { IsSound runner.old (B.state bench.old) (Some hive) }
    requires clone { HoldsKeys clone }
    ensures sound { IfOk result (IsSound runner.new (B.state bench.new)) }
    ensures plays { (m : RunState) (s : Start) (next : RunState → Act) → (H.state host.old).tells ≡ true → HandedOut m s → Counts m runner.old
        → IsLive m hive (B.state bench.old) → Stays next
        → RunsTo (saved_by s clone m next (save_of m.version m.live clone)) (moment (H.state host.old) runner.old (B.state bench.old))
        (moment (H.state host.new) runner.new (B.state bench.new)) result (OnLeft next runner.new (B.state bench.new)) }
    ensures host { LeavesHost result (H.state host.old) (H.state host.new) }
{
    match plan_of(alloc, clone, &hive)? {
        Some(plan) => save_by(alloc, plan, hive, runner, host, bench),
        None => refuse(alloc, false, hive, runner, host),
    }
}

/// Where the start became good just now, its clone is saved. A start must run.
pub(crate) fn save_where_due<H: Host, B: Bench>(
    alloc: Global,
    hive: Live,
    runner: &mut Runner,
    host: &mut H,
    bench: &mut B,
) -> Result<Option<Live>, RunStop>
    requires sound { IsSound runner.old (B.state bench.old) (Some hive) }
    ensures sound { IfOk result (IsSound runner.new (B.state bench.new)) }
    ensures plays { (m : RunState) (next : RunState → Act) → (H.state host.old).tells ≡ true → Counts m runner.old → IsLive m hive (B.state bench.old)
        → Stays next
        → RunsTo (book.save_where_due m.machine.start m next) (moment (H.state host.old) runner.old (B.state bench.old))
        (moment (H.state host.new) runner.new (B.state bench.new)) result (OnLeft next runner.new (B.state bench.new)) }
    ensures host { LeavesHost result (H.state host.old) (H.state host.new) }
{
    if !runner.machine.save_due() {
        return Ok(Some(hive));
    }
    match runner.machine.take_clone() {
        Some(clone) => save(alloc, clone, hive, runner, host, bench),
        None => Ok(Some(hive)),
    }
}

/// Says and notes the logon, and saves a start that became good by it.
pub(crate) fn logon<H: Host, B: Bench>(
    alloc: Global,
    hive: Live,
    runner: &mut Runner,
    host: &mut H,
    bench: &mut B,
) -> Result<Option<Live>, RunStop>
    requires sound { IsSound runner.old (B.state bench.old) (Some hive) }
    ensures { Turns (λ m. option_map_or (λ s. logon_act s m) m.machine.start (done m)) (Some hive) (stage (H.state host.old) runner.old (B.state bench.old))
        (stage (H.state host.new) runner.new (B.state bench.new)) result }
{
    say(alloc, host, &mut runner.summary, Line::Logon)?;
    runner.machine.log_on();
    save_where_due(alloc, hive, runner, host, bench)
}
