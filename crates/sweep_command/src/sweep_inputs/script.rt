//! The script of a sweep, from the text of its file.

ghost use Rattle.std.specs.Prelude.{◌≡◌, Err, IfOk};
ghost use Rattle.std.specs.List.{All};
ghost use Rattle.boot_script.specs.boot_script.Script.{HasCounts};
ghost use Rattle.command_parts.specs.command_parts.Leaves.{Reads};
ghost use Rattle.boot_script.specs.sweep_script.Sweep.{events_of, IsUnordered, sweep_of};
ghost use Rattle.sweep_command.specs.sweep_inputs.Inputs.{script_in};

use boot_script::sweep_script::{SweepFault, SweepScript, SweepStop, read_sweep};
use command_parts::command_parts::{Obstacle, Refusal, no_memory};
use nt_bytes::Bytes;
use std::alloc::Global;

/// The script that a text is.
pub(crate) fn script_in(alloc: Global, text: &Bytes) -> Result<SweepScript, Obstacle>
    ensures read { Reads (script_in (sweep_of text.now)) result }
    ensures counts { IfOk result (λ script. All HasCounts (events_of script)) }
    ensures unordered { IfOk result (λ script. All IsUnordered (events_of script)) }
    ensures kept { result ≡ Err (Obstacle.Refused Refusal.Usage) → ⊥ }
{
    match read_sweep(alloc, text.as_slice()) {
        Ok(script) => Ok(script),
        Err(SweepStop::Fault(SweepFault::Script(fault))) => {
            Err(Obstacle::Refused(Refusal::ScriptFault(fault)))
        }
        Err(SweepStop::Fault(SweepFault::NoSweep)) => Err(Obstacle::Refused(Refusal::NoSweep)),
        Err(SweepStop::Memory) => Err(no_memory()),
    }
}
