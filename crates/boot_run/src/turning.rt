//! One event.

ghost use Rattle.std.specs.Prelude.{◌≡◌, ◌≤◌, true, ℕ, None, Some, Option, IfOk, IfSome, OnOk};
ghost use Rattle.nt_edge.specs.Crash.{EachCrash};
ghost use Rattle.nt_edge.specs.Host.{HostState};
ghost use Rattle.boot_machine.specs.boot_machine.Steps.{is_there};
ghost use Rattle.boot_machine.specs.boot_machine.Views.{event_in, word_of_refusal};
ghost use Rattle.boot_script.specs.boot_script.Script.{HasCounts};
ghost use Rattle.reg_tree.specs.Fitting.{Fits};
ghost use Rattle.reg_tree.specs.Makes.{step_of};
ghost use Rattle.start_model.specs.Fits.{MayLoad};
ghost use Rattle.report_words.specs.declared.line.Line.TheVariants.{Refused as RefusedLine};
ghost use Rattle.start_model.specs.Machine.{Start, failing, requiring, refusal_of};
ghost use Rattle.start_model.specs.Act.{RunState, done};
ghost use Rattle.start_model.specs.Boot.{Choice};
ghost use Rattle.start_model.specs.EventActs.{accepted_act, idle_act, event_step_of, event_word_of};
ghost use Rattle.run_parts.specs.printed_parts.Parts.{Told, PlaysOr, TellsOr};
ghost use Rattle.boot_run.specs.Agrees.{IsSound, Agrees, TurnLeft};
ghost use Rattle.boot_run.specs.Begins.{aside_machine, aside_disk, aside_act, IsStepOf, IsEdit};
ghost use Rattle.boot_run.specs.Choices.{choices};
ghost use Rattle.boot_run.specs.Hosts.{LeavesHost};
ghost use Rattle.boot_run.specs.Turns.{Turns, stage};
ghost use Rattle.boot_run.specs.Views.{moment, told_by, RunsTo};

use crate::booting::boot;
use crate::closing::{flush, off};
use crate::cutting::{arm_cut, arm_fault, cut};
use crate::editing::edit;
use crate::live::Live;
use crate::runner::Runner;
use crate::saving::logon;
use crate::saying::say;
use crate::starter::go;
use crate::stop::RunStop;
use crate::summary::Summary;
use crate::words::{event_word, refused_word};
use boot_ini::arc_path::Arc;
use boot_ini::boot_ini::BootIni;
use boot_machine::boot_machine::{EventRefusal, Machine};
use boot_machine::edit_steps::{delete_step, make_step, remove_step, set_step};
use boot_script::boot_script::Event;
use nt_bytes::Units;
use nt_edge::{Bench, Host};
use reg_tree::TreeStep;
use report_text::boot_report::Line;
use std::alloc::{AllocError, Global};

// ---- events that leave the session alone

/// Notes failures to come.
fn fail(alloc: Global, name: &Units, count: u32, machine: &mut Machine) -> Result<(), AllocError>
    ensures { OnOk result (machine.new ≡ failing name.now count machine.old) }
{
    let name = name.copy(alloc)?;
    machine.fail(alloc, name, count)
}

/// Notes a vital name.
fn require(alloc: Global, name: &Units, machine: &mut Machine) -> Result<(), AllocError>
    ensures { OnOk result (machine.new ≡ requiring name.now machine.old) }
{
    let name = name.copy(alloc)?;
    machine.require(name)
}

/// Notes failures and vital names, and orders stops; other events do nothing.
fn aside<B: Bench>(
    alloc: Global,
    event: &Event,
    machine: &mut Machine,
    bench: &mut B,
) -> Result<(), RunStop>
    requires counts { HasCounts event.now }
    ensures machine { OnOk result (machine.new ≡ aside_machine (event_in event.now) machine.old) }
    ensures disk { OnOk result (B.state bench.new ≡ aside_disk (event_in event.now) (B.state bench.old)) }
    ensures plays { (m : RunState) (told : Told) → EachCrash (B.state bench.old) (MayLoad m.disk)
        → PlaysOr (aside_act (event_in event.now) m) told told (B.state bench.old) (B.state bench.new) result
        (λ u a. a ≡ done (record m { machine = aside_machine (event_in event.now) m.machine })) }
{
    match event {
        Event::Fail { name, count } => match fail(alloc, name, *count, machine) {
            Ok(()) => Ok(()),
            Err(_) => Err(RunStop::Memory),
        },
        Event::Vital { name } => match require(alloc, name, machine) {
            Ok(()) => Ok(()),
            Err(_) => Err(RunStop::Memory),
        },
        Event::ArmCut { call, n, keep } => arm_cut(*call, *n, *keep, bench),
        Event::ArmFault { call, n } => arm_fault(*call, *n, bench),
        _ => Ok(()),
    }
}

/// The same beside a session.
fn beside<B: Bench>(
    alloc: Global,
    event: &Event,
    hive: Option<Live>,
    runner: &mut Runner,
    bench: &mut B,
) -> Result<Option<Live>, RunStop>
    requires sound { IsSound runner.old (B.state bench.old) hive }
    requires counts { HasCounts event.now }
    ensures sound { IfOk result (IsSound runner.new (B.state bench.new)) }
    ensures plays { (m : RunState) (h : HostState) → Agrees m runner.old (B.state bench.old) hive
        → RunsTo (aside_act (event_in event.now) m) (moment h runner.old (B.state bench.old)) (moment h runner.new (B.state bench.new))
        result (TurnLeft runner.new (B.state bench.new)) }
    ensures host { (h : HostState) → LeavesHost result h h }
{
    match aside(alloc, event, &mut runner.machine, bench) {
        Ok(()) => Ok(hive),
        Err(_) => Err(RunStop::Memory),
    }
}

// ---- edits

/// The step of an edit of the script.
fn step_in(alloc: Global, event: &Event, number: u32) -> Result<TreeStep, AllocError>
    requires number { number ≤ 999 }
    requires edit { IsEdit (event_in event.now) }
    ensures step { IfOk result (IsStepOf number (event_in event.now)) }
    ensures fits { IfOk result (λ step. Fits (step_of step)) }
{
    match event {
        Event::Set {
            path,
            name,
            kind,
            bytes,
        } => set_step(alloc, path, name, *kind, bytes, number),
        Event::Delete { path, name } => delete_step(alloc, path, name, number),
        Event::Make { path } => make_step(alloc, path, number),
        Event::Remove { path } => remove_step(alloc, path, number),
        _ => unreachable!(),
    }
}

/// The step of an edit, by the set that the running start took.
fn next_step(alloc: Global, event: &Event, machine: &Machine) -> Result<TreeStep, AllocError>
    requires edit { IsEdit (event_in event.now) }
    requires number { IfSome machine.now.start (λ (s : Start). s.number ≤ 999) }
    requires on { is_there machine.now.start ≡ true }
    ensures step { IfOk result (λ step. IfSome machine.now.start (λ (s : Start). IsStepOf s.number (event_in event.now) step)) }
    ensures fits { IfOk result (λ step. Fits (step_of step)) }
{
    let Some((number, _)) = machine.running() else {
        unreachable!()
    };
    step_in(alloc, event, number)
}

/// Makes the edit of the event, or says why it is refused.
fn edit_by<H: Host, B: Bench>(
    alloc: Global,
    event: &Event,
    hive: Live,
    runner: &mut Runner,
    host: &mut H,
    bench: &B,
) -> Result<Option<Live>, RunStop>
    requires sound { IsSound runner.old (B.state bench.now) (Some hive) }
    requires edit { IsEdit (event_in event.now) }
    requires accepted { refusal_of runner.old.machine (event_in event.now) ≡ None }
    ensures { (choice : Option ℕ → Choice) → Turns (λ m. accepted_act choice m.machine.start (event_in event.now) m) (Some hive)
        (stage (H.state host.old) runner.old (B.state bench.now)) (stage (H.state host.new) runner.new (B.state bench.now)) result }
{
    let Ok(step) = next_step(alloc, event, &runner.machine) else {
        return Err(RunStop::Memory);
    };
    match edit(alloc, event, step, hive, runner, host) {
        Ok(hive) => Ok(Some(hive)),
        Err(stop) => Err(stop),
    }
}

// ---- an event

/// An event that was accepted while no start runs.
fn idle<H: Host, B: Bench>(
    alloc: Global,
    ini: &BootIni,
    system: &Arc,
    event: &Event,
    runner: &mut Runner,
    host: &mut H,
    bench: &mut B,
) -> Result<Option<Live>, RunStop>
    requires sound { IsSound runner.old (B.state bench.old) None }
    requires counts { HasCounts event.now }
    ensures { Turns (idle_act (choices ini.now system.now) (event_in event.now)) None (stage (H.state host.old) runner.old (B.state bench.old))
        (stage (H.state host.new) runner.new (B.state bench.new)) result }
{
    match event {
        Event::Boot {
            entry,
            last_known_good,
        } => boot(
            alloc,
            ini,
            system,
            *entry,
            *last_known_good,
            runner,
            host,
            bench,
        ),
        _ => beside(alloc, event, None, runner, bench),
    }
}

/// An event that was accepted while a start runs.
fn running<H: Host, B: Bench>(
    alloc: Global,
    event: &Event,
    hive: Live,
    runner: &mut Runner,
    host: &mut H,
    bench: &mut B,
) -> Result<Option<Live>, RunStop>
    requires sound { IsSound runner.old (B.state bench.old) (Some hive) }
    requires counts { HasCounts event.now }
    requires accepted { refusal_of runner.old.machine (event_in event.now) ≡ None }
    ensures { (choice : Option ℕ → Choice) → Turns (λ m. accepted_act choice m.machine.start (event_in event.now) m) (Some hive)
        (stage (H.state host.old) runner.old (B.state bench.old)) (stage (H.state host.new) runner.new (B.state bench.new)) result }
{
    match event {
        Event::Go { steps } => go(alloc, *steps, hive, runner, host, bench),
        Event::Flush => flush(alloc, hive, runner, host, bench),
        Event::Logon => logon(alloc, hive, runner, host, bench),
        Event::Off => match off(alloc, hive, runner, host, bench) {
            Ok(()) => Ok(None),
            Err(stop) => Err(stop),
        },
        Event::CutNow { keep } => match cut(alloc, *keep, hive, runner, host, bench) {
            Ok(()) => Ok(None),
            Err(stop) => Err(stop),
        },
        Event::Set { .. } => edit_by(alloc, event, hive, runner, host, bench),
        Event::Delete { .. } => edit_by(alloc, event, hive, runner, host, bench),
        Event::Make { .. } => edit_by(alloc, event, hive, runner, host, bench),
        Event::Remove { .. } => edit_by(alloc, event, hive, runner, host, bench),
        _ => beside(alloc, event, Some(hive), runner, bench),
    }
}

/// Says that the event is refused, and why.
fn refuse<H: Host>(
    alloc: Global,
    event: &Event,
    refusal: EventRefusal,
    summary: &mut Summary,
    host: &mut H,
) -> Result<(), RunStop>
    ensures tells { (H.state host.old).tells ≡ true → TellsOr (RefusedLine (event_word_of (event_in event.now)) (word_of_refusal refusal))
        (told_by (H.state host.old) summary.old) (told_by (H.state host.new) summary.new) result }
    ensures host { LeavesHost result (H.state host.old) (H.state host.new) }
{
    let line = Line::Refused {
        event: event_word(event),
        why: refused_word(refusal),
    };
    say(alloc, host, summary, line)
}

/// An event that was accepted, with a session where a start runs.
fn act<H: Host, B: Bench>(
    alloc: Global,
    ini: &BootIni,
    system: &Arc,
    event: &Event,
    hive: Option<Live>,
    runner: &mut Runner,
    host: &mut H,
    bench: &mut B,
) -> Result<Option<Live>, RunStop>
    requires sound { IsSound runner.old (B.state bench.old) hive }
    requires counts { HasCounts event.now }
    requires accepted { refusal_of runner.old.machine (event_in event.now) ≡ None }
    ensures { Turns (λ m. accepted_act (choices ini.now system.now) m.machine.start (event_in event.now) m) hive
        (stage (H.state host.old) runner.old (B.state bench.old)) (stage (H.state host.new) runner.new (B.state bench.new)) result }
{
    match hive {
        Some(hive) => running(alloc, event, hive, runner, host, bench),
        None => idle(alloc, ini, system, event, runner, host, bench),
    }
}

/// An event, with a session where a start runs.
pub(crate) fn turn<H: Host, B: Bench>(
    alloc: Global,
    ini: &BootIni,
    system: &Arc,
    event: &Event,
    hive: Option<Live>,
    runner: &mut Runner,
    host: &mut H,
    bench: &mut B,
) -> Result<Option<Live>, RunStop>
    requires sound { IsSound runner.old (B.state bench.old) hive }
    requires counts { HasCounts event.now }
    ensures { Turns (event_step_of (choices ini.now system.now) (event_in event.now)) hive (stage (H.state host.old) runner.old (B.state bench.old))
        (stage (H.state host.new) runner.new (B.state bench.new)) result }
{
    match runner.machine.accept(event) {
        Ok(()) => act(alloc, ini, system, event, hive, runner, host, bench),
        Err(refusal) => match refuse(alloc, event, refusal, &mut runner.summary, host) {
            Ok(()) => Ok(hive),
            Err(stop) => Err(stop),
        },
    }
}
