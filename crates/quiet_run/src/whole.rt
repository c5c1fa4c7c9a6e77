//! A whole script.

ghost use Rattle.std.specs.Prelude.{◌≡◌, map, IfOk, OnOk};
ghost use Rattle.hive_model.specs.Valid.{HoldsKeys, IsValid};
ghost use Rattle.boot_machine.specs.boot_machine.Views.{event_in};
ghost use Rattle.start_model.specs.Run.{closing_act};
ghost use Rattle.quiet_run.specs.Choices.{choices};
ghost use Rattle.quiet_run.specs.Play.{state_in, watched_in, AreHeld, IsSound};
ghost use Rattle.quiet_run.specs.Watch.{watch, watched_from, unplayed, last_set, left_of, quiet_run_of};

use crate::last::{QuietRun, fresh_start};
use crate::play::Play;
use crate::sets::{no_set, usable_set};
use crate::turning::turn;
use boot_ini::arc_path::Arc;
use boot_ini::boot_ini::BootIni;
use boot_machine::boot_machine::Machine;
use boot_script::boot_script::Event;
use nt_bytes::HiveVersion;
use reg_tree::Key;
use std::alloc::{AllocError, Global};
use std::mem::replace;

/// A run before its first event.
fn unplayed(alloc: Global, version: HiveVersion, root: Key) -> Result<Play, AllocError>
    requires { IsValid root }
    ensures watched { IfOk result (λ play. watched_in play ≡ unplayed version root) }
    ensures sound { IfOk result IsSound }
{
    let settled = root.copy(alloc)?;
    Ok(Play {
        machine: Machine::new(alloc),
        live: root,
        settled,
        sequence: 0,
        dirty: false,
        version,
        changed: false,
        starts: 0,
        last: fresh_start(alloc, 0),
    })
}

/// The events in their order.
fn events(
    alloc: Global,
    ini: &BootIni,
    system: &Arc,
    script: &[Event],
    play: &mut Play,
) -> Result<(), AllocError>
    requires sound { IsSound play.old }
    ensures watched { OnOk result (watched_from (choices ini.now system.now) (map event_in script.now) (watched_in play.old)
        ≡ watch (closing_act (state_in play.new)) play.new.last) }
    ensures sound { OnOk result (IsSound play.new) }
{
    let mut rest = script;
    'event: loop {
        let [event, more @ ..] = rest else {
            return Ok(());
        };
        turn(alloc, ini, system, event, play)?;
        rest = more;
    }
}

/// A start that still runs gets its verdict.
fn close(play: &mut Play)
    ensures state { state_in play.new ≡ (watch (closing_act (state_in play.old)) play.old.last).state }
    ensures last { play.new.last ≡ (watch (closing_act (state_in play.old)) play.old.last).last }
    ensures sound { IsSound play.old → IsSound play.new }
{
    if !play.machine.is_on() {
        return;
    }
    play.last.verdict = Some(play.machine.ending());
}

/// The set that the start took, as the live tree has it.
fn last_set(alloc: Global, play: &Play) -> Result<Key, AllocError>
    requires { IsValid play.now.live }
    ensures set { IfOk result (λ set. set ≡ last_set (watched_in play.now)) }
    ensures held { IfOk result HoldsKeys }
{
    match play.last.set {
        Some((number, _)) => usable_set(alloc, &play.live, number),
        None => no_set(alloc),
    }
}

/// What the events leave of the last start. The run is of no use then.
fn played(
    alloc: Global,
    ini: &BootIni,
    system: &Arc,
    script: &[Event],
    play: &mut Play,
) -> Result<QuietRun, AllocError>
    requires sound { IsSound play.old }
    ensures exact { IfOk result (λ run. run
        ≡ left_of (watched_from (choices ini.now system.now) (map event_in script.now) (watched_in play.old))) }
    ensures phases { IfOk result (λ run. AreHeld run.start.phases) }
    ensures set { IfOk result (λ run. HoldsKeys run.set) }
{
    events(alloc, ini, system, script, play)?;
    close(play);
    let set = last_set(alloc, play)?;
    let start = replace(&mut play.last, fresh_start(alloc, 0));
    Ok(QuietRun { start, set })
}

/// What a script leaves of its last start on a tree that a hive of this version loads as, by boot.ini and the system's path. The
/// tree must be one that a hive can hold. Each edit copies the tree once, and each phase the set.
#[tactic(auto, unfolding(crate::specs::Watch::quiet_run_of))]
pub fn quiet_run(
    alloc: Global,
    ini: &BootIni,
    system: &Arc,
    script: &[Event],
    root: Key,
    version: HiveVersion,
) -> Result<QuietRun, AllocError>
    requires { IsValid root }
    ensures exact { IfOk result (λ run. run ≡ quiet_run_of (choices ini.now system.now) (map event_in script.now) version root) }
    ensures phases { IfOk result (λ run. AreHeld run.start.phases) }
    ensures set { IfOk result (λ run. HoldsKeys run.set) }
{
    let mut play = unplayed(alloc, version, root)?;
    played(alloc, ini, system, script, &mut play)
}
