//! One event.

ghost use Rattle.std.specs.Prelude.{◌≡◌, true, false, None, OnOk, Some};
ghost use Rattle.boot_machine.specs.boot_machine.Steps.{is_there};
ghost use Rattle.boot_machine.specs.boot_machine.Views.{event_in};
ghost use Rattle.start_model.specs.Machine.{Start, failing, requiring, refusal_of};
ghost use Rattle.start_model.specs.EventActs.{running_act, idle_act, accepted_act, act_unless};
ghost use Rattle.start_model.specs.Events as book;
ghost use Rattle.quiet_run.specs.Choices.{choices};
ghost use Rattle.quiet_run.specs.Play.{state_in, watched_in, is_go, IsSound};
ghost use Rattle.quiet_run.specs.Watch.{watch, noted, turned};

use crate::booting::boot;
use crate::editing::{edit, flush, off};
use crate::ending::end;
use crate::play::Play;
use crate::saving::logon;
use crate::starter::{note, turn_go};
use boot_ini::arc_path::Arc;
use boot_ini::boot_ini::BootIni;
use boot_machine::boot_machine::{Machine, Verdict};
use boot_machine::edit_steps::{delete_step, make_step, remove_step, set_step};
use boot_script::boot_script::Event;
use nt_bytes::Units;
use std::alloc::{AllocError, Global};

/// Notes failures to come.
fn fail(alloc: Global, name: &Units, count: u32, machine: &mut Machine) -> Result<(), AllocError>
    ensures { OnOk result (machine.new ≡ failing name.now count machine.old) }
{
    let name = name.copy(alloc)?;
    machine.fail(alloc, name, count)
}

/// Notes a vital name.
fn require(alloc: Global, name: &Units, machine: &mut Machine) -> Result<(), AllocError>
    ensures { OnOk result (machine.new ≡ requiring name.now machine.old) }
{
    let name = name.copy(alloc)?;
    machine.require(name)
}

/// The number of the set that the running start took. One must run.
fn number_in(machine: &Machine) -> u32
    requires { is_there machine.now.start ≡ true }
    ensures { (s : Start) → machine.now.start ≡ Some s → result ≡ s.number }
{
    match machine.running() {
        Some((number, _)) => number,
        None => unreachable!(),
    }
}

/// An event that was accepted while a start runs, but for the steps of the starter.
fn running(alloc: Global, event: &Event, play: &mut Play) -> Result<(), AllocError>
    requires sound { IsSound play.old }
    requires on { is_there play.old.machine.start ≡ true }
    requires other { is_go (event_in event.now) ≡ false }
    ensures watched { OnOk result ((s : Start) → play.old.machine.start ≡ Some s
        → watched_in play.new ≡ watch (running_act s (event_in event.now) (state_in play.old)) play.old.last) }
    ensures sound { OnOk result (IsSound play.new) }
{
    let number = number_in(&play.machine);
    match event {
        Event::Go { .. } => unreachable!(),
        Event::Set {
            path,
            name,
            kind,
            bytes,
        } => {
            let step = set_step(alloc, path, name, *kind, bytes, number)?;
            edit(alloc, step, play)
        }
        Event::Delete { path, name } => {
            let step = delete_step(alloc, path, name, number)?;
            edit(alloc, step, play)
        }
        Event::Make { path } => {
            let step = make_step(alloc, path, number)?;
            edit(alloc, step, play)
        }
        Event::Remove { path } => {
            let step = remove_step(alloc, path, number)?;
            edit(alloc, step, play)
        }
        Event::Fail { name, count } => fail(alloc, name, *count, &mut play.machine),
        Event::Vital { name } => require(alloc, name, &mut play.machine),
        Event::Flush => flush(alloc, play),
        Event::Logon => logon(alloc, play),
        Event::Off => off(alloc, play),
        Event::CutNow { .. } => {
            end(Verdict::Cut, play);
            Ok(())
        }
        Event::Boot { .. } | Event::ArmCut { .. } | Event::ArmFault { .. } => Ok(()),
    }
}

/// An event that was accepted while no start runs.
fn idle(
    alloc: Global,
    ini: &BootIni,
    system: &Arc,
    event: &Event,
    play: &mut Play,
) -> Result<(), AllocError>
    requires sound { IsSound play.old }
    requires off { play.old.machine.start ≡ None }
    ensures watched { OnOk result (watched_in play.new
        ≡ watch (idle_act (choices ini.now system.now) (event_in event.now) (state_in play.old)) play.old.last) }
    ensures sound { OnOk result (IsSound play.new) }
{
    match event {
        Event::Boot {
            entry,
            last_known_good,
        } => boot(alloc, ini, system, *entry, *last_known_good, play),
        Event::Fail { name, count } => fail(alloc, name, *count, &mut play.machine),
        Event::Vital { name } => require(alloc, name, &mut play.machine),
        Event::Go { .. }
        | Event::Set { .. }
        | Event::Delete { .. }
        | Event::Make { .. }
        | Event::Remove { .. }
        | Event::Flush
        | Event::Logon
        | Event::Off
        | Event::CutNow { .. }
        | Event::ArmCut { .. }
        | Event::ArmFault { .. } => Ok(()),
    }
}

/// An event that was accepted, but for the steps of the starter.
fn act(
    alloc: Global,
    ini: &BootIni,
    system: &Arc,
    event: &Event,
    play: &mut Play,
) -> Result<(), AllocError>
    requires sound { IsSound play.old }
    requires other { is_go (event_in event.now) ≡ false }
    ensures watched { OnOk result (watched_in play.new
        ≡ watch (accepted_act (choices ini.now system.now) play.old.machine.start (event_in event.now) (state_in play.old)) play.old.last) }
    ensures sound { OnOk result (IsSound play.new) }
{
    if play.machine.is_on() {
        return running(alloc, event, play);
    }
    idle(alloc, ini, system, event, play)
}

/// The same, and a phase that begins by it is noted.
fn act_and_note(
    alloc: Global,
    ini: &BootIni,
    system: &Arc,
    event: &Event,
    play: &mut Play,
) -> Result<(), AllocError>
    requires sound { IsSound play.old }
    requires other { is_go (event_in event.now) ≡ false }
    ensures watched { OnOk result (watched_in play.new ≡ noted
        (watch (accepted_act (choices ini.now system.now) play.old.machine.start (event_in event.now) (state_in play.old)) play.old.last)) }
    ensures sound { OnOk result (IsSound play.new) }
{
    act(alloc, ini, system, event, play)?;
    note(alloc, play)
}

/// An event, but for the steps of the starter.
fn turn_other(
    alloc: Global,
    ini: &BootIni,
    system: &Arc,
    event: &Event,
    play: &mut Play,
) -> Result<(), AllocError>
    requires sound { IsSound play.old }
    requires other { is_go (event_in event.now) ≡ false }
    ensures watched { OnOk result (watched_in play.new ≡ noted (watch (act_unless (choices ini.now system.now) (event_in event.now) (state_in play.old)
        (refusal_of play.old.machine (event_in event.now))) play.old.last)) }
    ensures sound { OnOk result (IsSound play.new) }
{
    match play.machine.accept(event) {
        Ok(()) => act_and_note(alloc, ini, system, event, play),
        Err(_) => note(alloc, play),
    }
}

/// Whether the event asks for steps of the starter.
fn is_go(event: &Event) -> bool
    ensures { result ≡ is_go (event_in event.now) }
{
    matches!(event, Event::Go { .. })
}

/// How many steps of the starter the event asks for.
fn steps_in(event: &Event) -> Option<u32>
    requires { is_go (event_in event.now) ≡ true }
    ensures { event_in event.now ≡ book.Go result }
{
    match event {
        Event::Go { steps } => *steps,
        _ => unreachable!(),
    }
}

/// An event.
pub(crate) fn turn(
    alloc: Global,
    ini: &BootIni,
    system: &Arc,
    event: &Event,
    play: &mut Play,
) -> Result<(), AllocError>
    requires sound { IsSound play.old }
    ensures watched { OnOk result (watched_in play.new ≡ turned (choices ini.now system.now) (event_in event.now) (watched_in play.old)) }
    ensures sound { OnOk result (IsSound play.new) }
{
    if is_go(event) {
        return turn_go(alloc, event, steps_in(event), play);
    }
    turn_other(alloc, ini, system, event, play)
}
