//! One step after the other, up to the first obstacle.

ghost use Rattle.std.specs.Prelude.{◌≡◌, Err};
ghost use Rattle.command_parts.specs.command_parts.Leaves.{IsBadUsage, Looks};
ghost use Rattle.start_commands.specs.start_inputs.Inputs.{AsksStart, arguments_in, files_seen, inputs_in};

use crate::start_inputs::script::script_in;
use boot_ini::arc_path::Arc;
use boot_ini::boot_ini::BootIni;
use boot_script::boot_script::Script;
use command_parts::command_parts::{HiveFiles, Obstacle, Refusal};
use command_parts::input_search::{boot_files, system_at};
use nt_edge::Host;
use std::alloc::Global;

/// The names of the files, and the ARC path of the system.
#[derive(Clone, Copy)]
pub struct StartFiles<'a> {
    pub hive: &'a str,
    pub log: Option<&'a str>,
    pub boot_ini: Option<&'a str>,
    pub system: &'a str,
    pub script: Option<&'a str>,
}

/// All that is read.
#[derive(Drop)]
pub struct StartInputs {
    pub system: Arc,
    pub script: Script,
    pub ini: BootIni,
    pub hive: HiveFiles,
}

/// What the files have, or the first obstacle. Nothing is printed.
#[tactic(auto, unfolding(command_parts::specs::input_search::Search::searched))]
pub fn start_inputs<H: Host>(
    alloc: Global,
    files: StartFiles<'_>,
    host: &mut H,
) -> Result<StartInputs, Obstacle>
    ensures looks { Looks (inputs_in (files_seen files.entry) (H.state host.old).files) result (H.state host.old) (H.state host.new) }
    ensures asks { AsksStart (files_seen files.entry) result (H.state host.old) (H.state host.new) }
    ensures usage { result ≡ Err (Obstacle.Refused Refusal.Usage) → arguments_in (files_seen files.entry) ≡ Err Refusal.Usage }
    ensures refused { arguments_in (files_seen files.entry) ≡ Err Refusal.Usage → IsBadUsage result }
{
    let system = system_at(alloc, files.system)?;
    let script = script_in(alloc, host, files.script)?;
    let boot = boot_files(
        alloc,
        host,
        files.boot_ini,
        files.system,
        files.hive,
        files.log,
    )?;
    Ok(StartInputs {
        system,
        script,
        ini: boot.ini,
        hive: boot.hive,
    })
}
