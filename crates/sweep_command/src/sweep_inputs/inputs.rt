//! One step after the other, up to the first obstacle.

ghost use Rattle.std.specs.Prelude.{◌≡◌, Err, IfOk};
ghost use Rattle.std.specs.List.{All};
ghost use Rattle.boot_script.specs.boot_script.Script.{HasCounts};
ghost use Rattle.command_parts.specs.command_parts.Leaves.{IsBadUsage, Looks};
ghost use Rattle.boot_script.specs.sweep_script.Sweep.{events_of, IsUnordered};
ghost use Rattle.command_parts.specs.input_search.Search.{AsksFor};
ghost use Rattle.sweep_command.specs.sweep_inputs.Inputs.{arguments_in, files_seen, inputs_in, sweep_search};

use crate::sweep_inputs::script::script_in;
use boot_ini::arc_path::Arc;
use boot_ini::boot_ini::BootIni;
use boot_script::sweep_script::SweepScript;
use command_parts::command_parts::{HiveFiles, Obstacle, Refusal, file_in};
use command_parts::input_search::{boot_files, system_at};
use nt_edge::Host;
use std::alloc::Global;

/// The names of the files, and the ARC path of the system.
#[derive(Clone, Copy)]
pub struct SweepFiles<'a> {
    pub hive: &'a str,
    pub log: Option<&'a str>,
    pub boot_ini: Option<&'a str>,
    pub system: &'a str,
    pub script: &'a str,
}

/// All that is read.
#[derive(Drop)]
pub struct SweepInputs {
    pub system: Arc,
    pub script: SweepScript,
    pub ini: BootIni,
    pub hive: HiveFiles,
}

/// What the files have, or the first obstacle. Nothing is printed.
#[tactic(auto, unfolding(command_parts::specs::input_search::Search::searched))]
pub fn sweep_inputs<H: Host>(
    alloc: Global,
    files: SweepFiles<'_>,
    host: &mut H,
) -> Result<SweepInputs, Obstacle>
    ensures looks { Looks (inputs_in (files_seen files.entry) (H.state host.old).files) result (H.state host.old) (H.state host.new) }
    ensures asks { AsksFor (sweep_search (files_seen files.entry)) result (H.state host.old) (H.state host.new) }
    ensures counts { IfOk result (λ inputs. All HasCounts (events_of inputs.script)) }
    ensures unordered { IfOk result (λ inputs. All IsUnordered (events_of inputs.script)) }
    ensures usage { result ≡ Err (Obstacle.Refused Refusal.Usage) → arguments_in (files_seen files.entry) ≡ Err Refusal.Usage }
    ensures refused { arguments_in (files_seen files.entry) ≡ Err Refusal.Usage → IsBadUsage result }
{
    let system = system_at(alloc, files.system)?;
    let script = file_in(alloc, host, files.script)?;
    let script = script_in(alloc, &script)?;
    let boot = boot_files(
        alloc,
        host,
        files.boot_ini,
        files.system,
        files.hive,
        files.log,
    )?;
    Ok(SweepInputs {
        system,
        script,
        ini: boot.ini,
        hive: boot.hive,
    })
}
