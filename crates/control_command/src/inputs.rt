//! What the command reads: one step after the other, up to the first obstacle.

ghost use Rattle.std.specs.Prelude.{◌≡◌, Err};
ghost use Rattle.command_parts.specs.command_parts.Leaves.{Looks, Reads};
ghost use Rattle.command_words.specs.Views.{control_seen};
ghost use Rattle.command_parts.specs.input_search.Search.{AsksFor};
ghost use Rattle.control_command.specs.Commands.{commands_of};
ghost use Rattle.control_command.specs.Inputs.{inputs_in, commands_in, control_search};

use crate::command::Commands;
use crate::reading::read_commands;
use boot_script::boot_script::ScriptStop;
use command_parts::command_parts::{HiveFiles, Obstacle, Refusal, file_in, hive_in, no_memory};
use command_words::ControlWords;
use nt_bytes::Bytes;
use nt_edge::Host;
use std::alloc::Global;

/// All that the command reads.
#[derive(Drop)]
pub struct ControlInputs {
    pub commands: Commands,
    pub hive: HiveFiles,
}

/// The commands of a text.
fn commands_in(alloc: Global, text: &Bytes) -> Result<Commands, Obstacle>
    ensures read { Reads (commands_in (commands_of text.now)) result }
    ensures kept { result ≡ Err (Obstacle.Refused Refusal.Usage) → ⊥ }
{
    match read_commands(alloc, text.as_slice()) {
        Ok(commands) => Ok(commands),
        Err(ScriptStop::Fault(fault)) => Err(Obstacle::Refused(Refusal::ScriptFault(fault))),
        Err(ScriptStop::Memory) => Err(no_memory()),
    }
}

/// What options and files have for the command, or the first obstacle. Nothing is printed.
#[tactic(auto, unfolding(command_parts::specs::input_search::Search::searched))]
pub(crate) fn inputs_in<H: Host>(
    alloc: Global,
    words: ControlWords<'_>,
    host: &mut H,
) -> Result<ControlInputs, Obstacle>
    ensures looks { Looks (inputs_in (control_seen words.entry) (H.state host.old).files) result (H.state host.old) (H.state host.new) }
    ensures asks { AsksFor (control_search (control_seen words.entry)) result (H.state host.old) (H.state host.new) }
    ensures kept { result ≡ Err (Obstacle.Refused Refusal.Usage) → ⊥ }
{
    let text = file_in(alloc, host, words.commands)?;
    let commands = commands_in(alloc, &text)?;
    let hive = hive_in(alloc, host, words.hive, words.log)?;
    Ok(ControlInputs { commands, hive })
}
