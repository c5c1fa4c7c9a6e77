//! The commands of a text.

ghost use Rattle.std.specs.Prelude.{◌≡◌, ◌≤◌, length, IfErr, OnOk, Some};
ghost use Rattle.std.specs.Str.Lines.{lines};
ghost use Rattle.boot_script.specs.declared.boot_script.stop.ScriptStop.TheVariants as stops;
ghost use Rattle.boot_script.specs.boot_script.Words.{Gives};
ghost use Rattle.control_command.specs.Commands.{trimmed_command, line_command, commands_from, commands_of, GivesCommands, TakesLine, RefusesLine};

use crate::command::{Commands, ControlCommand};
use crate::commands::command;
use boot_script::boot_script::{
    LineStop, ScriptFault, ScriptFaultKind, ScriptStop, after_spaces, words_in,
};
use nt_bytes::first_line;
use std::alloc::Global;

/// The longest text, in bytes.
const MAX_LEN: usize = 65536;

/// The command of a line that begins with no space; an empty line and a comment have none.
#[tactic(auto, unfolding(crate::specs::Commands::trimmed_command))]
fn command_of_trimmed(alloc: Global, line: &[u8]) -> Result<Option<ControlCommand>, LineStop>
    ensures { Gives (λ c. c) result (trimmed_command line.now) }
{
    match line {
        [] | [b'#', ..] => Ok(None),
        _ => {
            let words = words_in(alloc, line)?;
            Ok(Some(command(alloc, &words)?))
        }
    }
}

fn command_of_line(alloc: Global, line: &[u8]) -> Result<Option<ControlCommand>, LineStop>
    ensures { Gives (λ c. c) result (line_command line.now) }
{
    command_of_trimmed(alloc, after_spaces(line))
}

fn fault(kind: ScriptFaultKind, line: u32) -> ScriptStop
    ensures { result ≡ stops.Fault (record { kind = kind; line = line }) }
{
    ScriptStop::Fault(ScriptFault { kind, line })
}

/// The commands that the text is. A text over 65,536 bytes is refused before all else, as line 0.
#[tactic(auto, unfolding(crate::specs::Commands::commands_of))]
pub fn read_commands(alloc: Global, text: &[u8]) -> Result<Commands, ScriptStop>
    ensures { GivesCommands result (commands_of text.now) }
{
    if MAX_LEN < text.len() {
        return Err(fault(ScriptFaultKind::TooLong, 0));
    }
    commands(alloc, text)
}

/// Adds the command of a line.
fn take_line(
    alloc: Global,
    commands: &mut Commands,
    line: &[u8],
    number: u32,
) -> Result<(), ScriptStop>
    ensures taken { OnOk result (TakesLine commands.old commands.new line.now) }
    ensures refused { IfErr result (RefusesLine line.now number) }
{
    let command = match command_of_line(alloc, line) {
        Ok(command) => command,
        Err(LineStop::Memory) => return Err(ScriptStop::Memory),
        Err(LineStop::Kind(kind)) => return Err(fault(kind, number)),
    };
    if let Some(command) = command {
        commands.push(command)?;
    }
    Ok(())
}

fn commands(alloc: Global, text: &[u8]) -> Result<Commands, ScriptStop>
    requires { length text.now ≤ 65536 }
    ensures { GivesCommands result (commands_from 1 (lines text.now)) }
{
    let mut commands = Commands::new(alloc);
    let mut number: u32 = 1;
    let mut rest = text;
    while !rest.is_empty() {
        let (line, after) = first_line(rest);
        take_line(alloc, &mut commands, line, number)?;
        number += 1;
        rest = after;
    }
    Ok(commands)
}
