//! Events played on a disk.

ghost use Rattle.std.specs.Prelude.{◌≡◌, false, map, IfOk};
ghost use Rattle.std.specs.List.{All};
ghost use Rattle.hive_model.specs.Load.{Loads};
ghost use Rattle.nt_edge.specs.Disk.{new_state};
ghost use Rattle.boot_script.specs.boot_script.Script.{HasCounts};
ghost use Rattle.boot_machine.specs.boot_machine.Views.{event_in};
ghost use Rattle.boot_run.specs.Agrees.{LoadsAny};
ghost use Rattle.boot_run.specs.Choices.{choices};
ghost use Rattle.kept_laws.specs.order_laws.Unordered.{AreUnordered};
ghost use Rattle.start_model.specs.Possible.{Woken};
ghost use Rattle.command_parts.specs.command_parts.Placed.{image_in, placed_disk};
ghost use Rattle.sweep_command.specs.sweep_run.Played.{PlaysOn, IsPlayed, Taken};

use boot_ini::arc_path::Arc;
use boot_ini::boot_ini::BootIni;
use boot_run::run;
use boot_script::boot_script::Event;
use command_parts::command_parts::{HiveFiles, place};
use mem_edge::QuietHost;
use nt_bytes::Bytes;
use nt_edge::{Bench, HiveFile};
use report_text::line_text::ReportForm;
use std::alloc::{AllocError, Global};

/// What events said, and what the log's file of the disk then held.
#[derive(Drop)]
pub struct Played {
    pub said: Bytes,
    pub log: Bytes,
}

/// Plays events on a disk that holds the hive, and answers what they say.
fn play_on<B: Bench>(
    alloc: Global,
    ini: &BootIni,
    system: &Arc,
    hive: &HiveFiles,
    script: &[Event],
    disk: &mut B,
) -> Result<Bytes, AllocError>
    requires placed { B.state disk.old ≡ placed_disk hive.now }
    requires loads { LoadsAny (image_in hive.now) }
    requires counts { All HasCounts script.now }
    requires unordered { AreUnordered (map event_in script.now) }
    ensures off { (B.state disk.new).on ≡ false }
    ensures plays { PlaysOn (choices ini.now system.now) (image_in hive.now) script.now result (B.state disk.new) }
{
    let mut host = QuietHost::new(alloc);
    match run(
        alloc,
        script,
        ini,
        system,
        ReportForm::Text,
        &mut host,
        disk,
        None,
    ) {
        Ok(_) => Bytes::from_slice(alloc, host.said()),
        Err(_) => Err(AllocError),
    }
}

/// Takes the log's file from the disk after it.
fn take_log<B: Bench>(said: Bytes, disk: &mut B) -> Result<Played, AllocError>
    requires off { (B.state disk.old).on ≡ false }
    ensures { Taken said (B.state disk.old) result }
{
    match disk.take(HiveFile::Log) {
        Ok(log) => Ok(Played { said, log }),
        Err(_) => Err(AllocError),
    }
}

/// Plays events on a new disk, on which the hive is placed first.
pub fn play<B: Bench>(
    alloc: Global,
    ini: &BootIni,
    system: &Arc,
    hive: &HiveFiles,
    script: &[Event],
    disk: &mut B,
) -> Result<Played, AllocError>
    requires fresh { B.state disk.old ≡ new_state }
    requires loads { LoadsAny (image_in hive.now) }
    requires counts { All HasCounts script.now }
    requires unordered { AreUnordered (map event_in script.now) }
    ensures { IfOk result (λ played. (placed : Woken) → Loads (image_in hive.now) placed.state placed.dirty
        → IsPlayed (choices ini.now system.now) (image_in hive.now) script.now placed played) }
{
    if place(hive, disk).is_err() {
        return Err(AllocError);
    }
    let said = play_on(alloc, ini, system, hive, script, disk)?;
    take_log(said, disk)
}
