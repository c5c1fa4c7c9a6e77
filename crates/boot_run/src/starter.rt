//! The starter: attempts and changes of phase.

ghost use Rattle.std.specs.Prelude.{◌≡◌, ◌≤◌, true, false, [], Some, IfOk, IfErr, OnOk};
ghost use Rattle.std.specs.Option.{option_map_or};
ghost use Rattle.hive_model.specs.Tree.{Tree};
ghost use Rattle.hive_store.specs.Session.{Session};
ghost use Rattle.start_model.specs.Judge.{Judgement};
ghost use Rattle.start_model.specs.Machine.{Start, MachineState, Tried, attempt_of, after_phase, unmet_in};
ghost use Rattle.start_model.specs.Act.{RunState, Act};
ghost use Rattle.start_model.specs.Starter.{good_is_usable, try_line, judged, starter_step, phase_step, stepping, go_steps, go_act, enough_steps};
ghost use Rattle.boot_machine.specs.boot_machine.Steps.{is_at_end, is_in_last_phase, on_start};
ghost use Rattle.run_parts.specs.run_parts.Parts.{Stays};
ghost use Rattle.run_parts.specs.printed_parts.Parts.{TellsOr};
ghost use Rattle.boot_run.specs.Agrees.{IsRunningBy, IsLive, IsSound, Counts, OnLeft, TurnLeft};
ghost use Rattle.boot_run.specs.Hosts.{LeavesHost};
ghost use Rattle.boot_run.specs.Turns.{Turns, stage};
ghost use Rattle.boot_run.specs.Starts.{is_under_way, EndsBy, Attempts, NextPhase, phase_lines, phase_gone};
ghost use Rattle.boot_run.specs.declared.stop.RunStop.TheVariants.{Memory};
ghost use Rattle.boot_run.specs.Views.{moment, told_in, RunsTo, SaysAll};

use crate::ending::end_with;
use crate::live::Live;
use crate::missing::stop_without;
use crate::runner::Runner;
use crate::saving::save_where_due;
use crate::saying::say;
use crate::stop::RunStop;
use crate::unmet::say_unmet;
use crate::words::{try_word, verdict_after};
use boot_machine::boot_machine::{Machine, Phase, phase_word};
use nt_bytes::Names;
use nt_edge::{Bench, Host};
use report_text::boot_report::{Line, Verdict};
use std::alloc::Global;

// ---- an attempt

/// Attempts the first ready entry, and says how that went. Answers the verdict with which the start ends by it, if
/// it does. `usable`: LastKnownGood names a set.
fn attempt<H: Host>(
    alloc: Global,
    usable: bool,
    runner: &mut Runner,
    host: &mut H,
) -> Result<Option<Verdict>, RunStop>
    requires { is_at_end runner.old.machine.start ≡ false }
    ensures attempts { IfOk result (Attempts runner.old.machine usable runner.new.machine) }
    ensures tells { (one : MachineState × Tried) → (H.state host.old).tells ≡ true → attempt_of runner.old.machine usable ≡ Some one
        → TellsOr (try_line one.1) (told_in (H.state host.old) runner.old) (told_in (H.state host.new) runner.new) result }
    ensures starts { runner.new.starts ≡ runner.old.starts }
    ensures host { LeavesHost result (H.state host.old) (H.state host.new) }
{
    let Ok(tried) = runner.machine.attempt(alloc, usable) else {
        return Err(RunStop::Memory);
    };
    let outcome = try_word(&tried);
    let verdict = verdict_after(&tried);
    let name = tried.name;
    say(
        alloc,
        host,
        &mut runner.summary,
        Line::Try { name, outcome },
    )?;
    Ok(verdict)
}

/// Ends the start with the verdict, where there is one.
fn end_where<H: Host, B: Bench>(
    alloc: Global,
    verdict: Option<Verdict>,
    hive: Live,
    runner: &mut Runner,
    host: &mut H,
    bench: &mut B,
) -> Result<Option<Live>, RunStop>
    requires sound { IsSound runner.old (B.state bench.old) (Some hive) }
    ensures sound { IfOk result (IsSound runner.new (B.state bench.new)) }
    ensures plays { (m : RunState) (next : RunState → Act) (judgement : Judgement) → (H.state host.old).tells ≡ true → Counts m runner.old
        → IsLive m hive (B.state bench.old) → EndsBy verdict judgement
        → RunsTo (judged judgement m next) (moment (H.state host.old) runner.old (B.state bench.old))
        (moment (H.state host.new) runner.new (B.state bench.new)) result (OnLeft next runner.new (B.state bench.new)) }
    ensures host { LeavesHost result (H.state host.old) (H.state host.new) }
{
    match verdict {
        None => Ok(Some(hive)),
        Some(word) => {
            runner.judged = Some(hive.into_cells());
            end_with(alloc, word, runner, host, bench)?;
            Ok(None)
        }
    }
}

/// One attempt, and what follows from it.
fn try_next<H: Host, B: Bench>(
    alloc: Global,
    hive: Live,
    runner: &mut Runner,
    host: &mut H,
    bench: &mut B,
) -> Result<Option<Live>, RunStop>
    requires sound { IsSound runner.old (B.state bench.old) (Some hive) }
    requires ready { is_at_end runner.old.machine.start ≡ false }
    ensures sound { IfOk result (IsSound runner.new (B.state bench.new)) }
    ensures plays { (m : RunState) (s : Start) (next : RunState → Act) → (H.state host.old).tells ≡ true → Counts m runner.old
        → IsLive m hive (B.state bench.old) → Stays next
        → RunsTo (starter_step s m next (attempt_of m.machine (good_is_usable m.live))) (moment (H.state host.old) runner.old (B.state bench.old))
        (moment (H.state host.new) runner.new (B.state bench.new)) result (OnLeft next runner.new (B.state bench.new)) }
    ensures host { LeavesHost result (H.state host.old) (H.state host.new) }
{
    let mut hive = hive;
    let Ok(usable) = hive.good_is_usable(alloc) else {
        return Err(RunStop::Memory);
    };
    let verdict = attempt(alloc, usable, runner, host)?;
    end_where(alloc, verdict, hive, runner, host, bench)
}

// ---- a change of phase

/// Goes on from the last phase, after which nothing is taken of a set. Answers what was unmet.
fn end_phases(alloc: Global, runner: &mut Runner) -> Result<Names, RunStop>
    requires { is_in_last_phase runner.old.machine.start ≡ true }
    ensures machine { IfOk result (λ _. (set : Tree) → runner.new.machine ≡ on_start (after_phase set) runner.old.machine) }
    ensures unmet { IfOk result (λ names. names ≡ option_map_or unmet_in runner.old.machine.start []) }
    ensures starts { runner.new.starts ≡ runner.old.starts }
    ensures summary { runner.new.summary ≡ runner.old.summary }
    ensures memory { IfErr result (λ stop. stop ≡ Memory) }
{
    match runner.machine.end_phases(alloc) {
        Ok(unmet) => Ok(unmet),
        Err(_) => Err(RunStop::Memory),
    }
}

/// Goes on to the next phase, with the entries of the taken set as it is now. Answers what was unmet.
fn plan_phase(alloc: Global, hive: &mut Live, runner: &mut Runner) -> Result<Names, RunStop>
    requires { IsRunningBy runner.old.machine.start hive.old.tree }
    ensures next { OnOk result (NextPhase hive.old.tree runner.old.machine runner.new.machine) }
    ensures unmet { IfOk result (λ names. names ≡ option_map_or unmet_in runner.old.machine.start []) }
    ensures sound { OnOk result (IsRunningBy runner.new.machine.start hive.old.tree) }
    ensures session { hive.new ≡ hive.old }
    ensures starts { runner.new.starts ≡ runner.old.starts }
    ensures summary { runner.new.summary ≡ runner.old.summary }
    ensures memory { IfErr result (λ stop. stop ≡ Memory) }
{
    let Some((number, _)) = runner.machine.running() else {
        unreachable!()
    };
    let Ok(lists) = hive.take_lists(alloc, number) else {
        return Err(RunStop::Memory);
    };
    let Ok(unmet) = runner.machine.next_phase_listed(alloc, &lists) else {
        return Err(RunStop::Memory);
    };
    hive.keep(lists);
    Ok(unmet)
}

/// Goes on to the next phase. Answers what was unmet.
fn next_phase(alloc: Global, hive: &mut Live, runner: &mut Runner) -> Result<Names, RunStop>
    requires { IsRunningBy runner.old.machine.start hive.old.tree }
    ensures next { OnOk result (NextPhase hive.old.tree runner.old.machine runner.new.machine) }
    ensures unmet { IfOk result (λ names. names ≡ option_map_or unmet_in runner.old.machine.start []) }
    ensures sound { OnOk result (IsRunningBy runner.new.machine.start hive.old.tree) }
    ensures session { hive.new ≡ hive.old }
    ensures starts { runner.new.starts ≡ runner.old.starts }
    ensures summary { runner.new.summary ≡ runner.old.summary }
    ensures memory { IfErr result (λ stop. stop ≡ Memory) }
{
    if runner.machine.in_last_phase() {
        return end_phases(alloc, runner);
    }
    plan_phase(alloc, hive, runner)
}

/// The phase ends and the next one begins: what still waits is printed as unmet, and then the phase.
fn say_phase<H: Host>(
    alloc: Global,
    hive: &mut Live,
    runner: &mut Runner,
    host: &mut H,
) -> Result<(), RunStop>
    requires { IsRunningBy runner.old.machine.start hive.old.tree }
    ensures next { OnOk result (NextPhase hive.old.tree runner.old.machine runner.new.machine) }
    ensures sound { OnOk result (IsRunningBy runner.new.machine.start hive.old.tree) }
    ensures session { hive.new ≡ hive.old }
    ensures tells { (s : Start) → (H.state host.old).tells ≡ true → runner.old.machine.start ≡ Some s
        → SaysAll (phase_lines s) (told_in (H.state host.old) runner.old) (told_in (H.state host.new) runner.new) result }
    ensures starts { runner.new.starts ≡ runner.old.starts }
    ensures host { LeavesHost result (H.state host.old) (H.state host.new) }
{
    let unmet = next_phase(alloc, hive, runner)?;
    say_unmet(alloc, unmet.as_slice(), &mut runner.summary, host)?;
    let word = phase_word(runner.machine.phase());
    say(alloc, host, &mut runner.summary, Line::Phase { word })
}

/// What still waits is unmet, the next phase begins, and a start that became good by that is saved.
fn go_past<H: Host, B: Bench>(
    alloc: Global,
    hive: Live,
    runner: &mut Runner,
    host: &mut H,
    bench: &mut B,
) -> Result<Option<Live>, RunStop>
    requires sound { IsSound runner.old (B.state bench.old) (Some hive) }
    ensures sound { IfOk result (IsSound runner.new (B.state bench.new)) }
    ensures plays { (m : RunState) (s : Start) (next : RunState → Act) → (H.state host.old).tells ≡ true → Counts m runner.old
        → IsLive m hive (B.state bench.old) → m.machine.start ≡ Some s → Stays next
        → RunsTo (phase_gone s m next) (moment (H.state host.old) runner.old (B.state bench.old))
        (moment (H.state host.new) runner.new (B.state bench.new)) result (OnLeft next runner.new (B.state bench.new)) }
    ensures host { LeavesHost result (H.state host.old) (H.state host.new) }
{
    let mut hive = hive;
    say_phase(alloc, &mut hive, runner, host)?;
    save_where_due(alloc, hive, runner, host, bench)
}

/// The phase is at its end: what still waits is unmet, and the next one begins. Where the boot phase ends without a
/// vital name the start stops instead.
fn change_phase<H: Host, B: Bench>(
    alloc: Global,
    hive: Live,
    runner: &mut Runner,
    host: &mut H,
    bench: &mut B,
) -> Result<Option<Live>, RunStop>
    requires sound { IsSound runner.old (B.state bench.old) (Some hive) }
    ensures sound { IfOk result (IsSound runner.new (B.state bench.new)) }
    ensures plays { (m : RunState) (s : Start) (next : RunState → Act) → (H.state host.old).tells ≡ true → Counts m runner.old
        → IsLive m hive (B.state bench.old) → m.machine.start ≡ Some s → Stays next
        → RunsTo (phase_step s m next) (moment (H.state host.old) runner.old (B.state bench.old))
        (moment (H.state host.new) runner.new (B.state bench.new)) result (OnLeft next runner.new (B.state bench.new)) }
    ensures host { LeavesHost result (H.state host.old) (H.state host.new) }
{
    let Ok(missing) = runner.machine.missing(alloc) else {
        return Err(RunStop::Memory);
    };
    if missing.is_empty() {
        return go_past(alloc, hive, runner, host, bench);
    }
    let Ok(unmet) = runner.machine.unmet(alloc) else {
        return Err(RunStop::Memory);
    };
    runner.judged = Some(hive.into_cells());
    stop_without(
        alloc,
        unmet.as_slice(),
        missing.as_slice(),
        runner,
        host,
        bench,
    )?;
    Ok(None)
}

// ---- steps

/// Whether a start runs whose phases are not over.
fn is_under_way(machine: &Machine) -> bool
    ensures { result ≡ is_under_way machine.now.start }
{
    machine.phase() != Phase::Done
}

/// One step of the starter. A start must run whose phases are not over.
fn step<H: Host, B: Bench>(
    alloc: Global,
    hive: Live,
    runner: &mut Runner,
    host: &mut H,
    bench: &mut B,
) -> Result<Option<Live>, RunStop>
    requires sound { IsSound runner.old (B.state bench.old) (Some hive) }
    requires under_way { is_under_way runner.old.machine.start ≡ true }
    ensures sound { IfOk result (IsSound runner.new (B.state bench.new)) }
    ensures plays { (m : RunState) (next : RunState → Act) → (H.state host.old).tells ≡ true → Counts m runner.old
        → IsLive m hive (B.state bench.old) → Stays next
        → RunsTo (stepping m.machine.start m next) (moment (H.state host.old) runner.old (B.state bench.old))
        (moment (H.state host.new) runner.new (B.state bench.new)) result (OnLeft next runner.new (B.state bench.new)) }
    ensures host { LeavesHost result (H.state host.old) (H.state host.new) }
{
    if runner.machine.at_phase_end() {
        return change_phase(alloc, hive, runner, host, bench);
    }
    try_next(alloc, hive, runner, host, bench)
}

/// At most that many steps of the starter, while a start is under way.
fn take_steps<H: Host, B: Bench>(
    alloc: Global,
    most: u128,
    session: &mut Option<Live>,
    runner: &mut Runner,
    host: &mut H,
    bench: &mut B,
) -> Result<(), RunStop>
    requires sound { IsSound runner.old (B.state bench.old) session.old }
    ensures sound { OnOk result (IsSound runner.new (B.state bench.new) session.new) }
    ensures plays { (m : RunState) (hive : Session) → (H.state host.old).tells ≡ true → session.old ≡ Some hive → Counts m runner.old
        → IsLive m hive (B.state bench.old)
        → RunsTo (go_steps most m) (moment (H.state host.old) runner.old (B.state bench.old))
        (moment (H.state host.new) runner.new (B.state bench.new)) result (λ u rest. TurnLeft runner.new (B.state bench.new) session.new rest) }
    ensures host { LeavesHost result (H.state host.old) (H.state host.new) }
{
    let mut left = most;
    'steps: while left != 0 && is_under_way(&runner.machine) {
        let Some(hive) = session.take() else {
            unreachable!()
        };
        *session = step(alloc, hive, runner, host, bench)?;
        left -= 1;
    }
    Ok(())
}

/// That many steps as are enough for all that the start can still do: one for each entry that waits or that the set could
/// still give, and three for the phases.
fn enough(alloc: Global, hive: &Live, runner: &Runner) -> Result<u128, RunStop>
    requires { IsRunningBy runner.now.machine.start hive.now.tree }
    ensures memory { IfErr result (λ stop. stop ≡ Memory) }
    ensures steps { IfOk result (λ n. (m : RunState) → m.live ≡ hive.now.tree → enough_steps runner.now.machine.start m ≤ n) }
{
    let Some((number, _)) = runner.machine.running() else {
        unreachable!()
    };
    let Ok(services) = hive.most_services(alloc, number) else {
        return Err(RunStop::Memory);
    };
    Ok(services as u128 + u32::MAX as u128 + 3)
}

/// How many steps are taken at most: that many, or the same number as there can be.
fn most_steps(
    alloc: Global,
    steps: Option<u32>,
    hive: &Live,
    runner: &Runner,
) -> Result<u128, RunStop>
    requires { IsRunningBy runner.now.machine.start hive.now.tree }
    ensures memory { IfErr result (λ stop. stop ≡ Memory) }
    ensures steps { IfOk result (λ n. (m : RunState) → m.live ≡ hive.now.tree → m.machine ≡ runner.now.machine → go_steps n m ≡ go_act steps m) }
{
    match steps {
        Some(steps) => Ok(u128::from(steps)),
        None => enough(alloc, hive, runner),
    }
}

/// That many steps of the starter, or all that there can be.
pub(crate) fn go<H: Host, B: Bench>(
    alloc: Global,
    steps: Option<u32>,
    hive: Live,
    runner: &mut Runner,
    host: &mut H,
    bench: &mut B,
) -> Result<Option<Live>, RunStop>
    requires sound { IsSound runner.old (B.state bench.old) (Some hive) }
    ensures { Turns (go_act steps) (Some hive) (stage (H.state host.old) runner.old (B.state bench.old))
        (stage (H.state host.new) runner.new (B.state bench.new)) result }
{
    let most = most_steps(alloc, steps, &hive, runner)?;
    let mut session = Some(hive);
    take_steps(alloc, most, &mut session, runner, host, bench)?;
    Ok(session)
}
