//! The events before, and then the event too, played each with the probe after them.

ghost use Rattle.std.specs.Prelude.{◌≡◌, IfOk};
ghost use Rattle.std.specs.List.{All};
ghost use Rattle.boot_script.specs.boot_script.Script.{HasCounts};
ghost use Rattle.boot_run.specs.Agrees.{LoadsAny};
ghost use Rattle.boot_run.specs.Choices.{choices};
ghost use Rattle.command_parts.specs.command_parts.Placed.{image_in};
ghost use Rattle.boot_script.specs.sweep_script.Sweep.{events_of, IsUnordered};
ghost use Rattle.sweep_command.specs.sweep_command.Answer.{probe_event, ArePlayed, PlaysProbed};

use crate::sweep_run::{Played, play};
use boot_ini::arc_path::Arc;
use boot_ini::boot_ini::BootIni;
use boot_script::boot_script::Event;
use boot_script::sweep_script::SweepScript;
use command_parts::command_parts::HiveFiles;
use mem_edge::MemDisk;
use nt_bytes::{Names, Units};
use std::alloc::{AllocError, Global};

/// `Select`.
static SELECT: [u16; 6] = [0x53, 0x65, 0x6C, 0x65, 0x63, 0x74];

/// An edit that is refused whether a start runs or not, and changes nothing.
fn probe(alloc: Global) -> Result<Event, AllocError>
    ensures { IfOk result (λ e. e ≡ probe_event) }
{
    let mut path = Names::new(alloc);
    path.push(Units::from_slice(alloc, SELECT.as_slice())?)?;
    Ok(Event::Make { path })
}

/// Plays the events with the probe after them on a disk of their own, and gives them back.
fn play_probed(
    alloc: Global,
    ini: &BootIni,
    system: &Arc,
    hive: &HiveFiles,
    events: Vec<Event>,
) -> Result<(Played, Vec<Event>), AllocError>
    requires loads { LoadsAny (image_in hive.now) }
    requires counts { All HasCounts events.items }
    requires unordered { All IsUnordered events.items }
    ensures { IfOk result (λ r. PlaysProbed (choices ini.now system.now) hive.now events.items (r.0, r.1.items)) }
{
    let mut events = events;
    let count = events.len();
    events.push(probe(alloc)?)?;
    let mut disk = MemDisk::new(alloc);
    let played = play(alloc, ini, system, hive, events.as_slice(), &mut disk)?;
    events.truncate(count);
    Ok((played, events))
}

/// Plays the events before, and then these with the event.
pub(crate) fn play_both(
    alloc: Global,
    ini: &BootIni,
    system: &Arc,
    hive: &HiveFiles,
    script: SweepScript,
) -> Result<(Played, Played), AllocError>
    requires loads { LoadsAny (image_in hive.now) }
    requires counts { All HasCounts (events_of script) }
    requires unordered { All IsUnordered (events_of script) }
    ensures { IfOk result (ArePlayed (choices ini.now system.now) hive.now script) }
{
    let SweepScript { before, event } = script;
    let (first, events) = play_probed(alloc, ini, system, hive, before.into_vec())?;
    let mut events = events;
    events.push(event)?;
    let (second, _) = play_probed(alloc, ini, system, hive, events)?;
    Ok((first, second))
}
