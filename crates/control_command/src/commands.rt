//! The command that a line stands for.

ghost use Rattle.std.specs.Prelude.{map};
ghost use Rattle.boot_script.specs.boot_script.Words.{Gives};
ghost use Rattle.control_command.specs.Commands.{alone_of, named_of, command_of};

use crate::command::ControlCommand;
use boot_script::boot_script::{LineStop, ScriptFaultKind};
use nt_bytes::narrow;
use std::alloc::Global;

/// The command of these words.
#[tactic(auto, unfolding(crate::specs::Commands::command_of))]
pub(crate) fn command(alloc: Global, words: &[&[u8]]) -> Result<ControlCommand, LineStop>
    ensures { Gives (λ c. c) result (command_of (map (λ w. w.now) words.now)) }
{
    match words {
        [word] => alone(word),
        [word, name] => named(alloc, word, name),
        _ => Err(LineStop::Kind(ScriptFaultKind::Word)),
    }
}

fn alone(word: &[u8]) -> Result<ControlCommand, LineStop>
    ensures { Gives (λ c. c) result (alone_of word.now) }
{
    if word == b"list".as_slice() {
        return Ok(ControlCommand::Listing);
    }
    Err(LineStop::Kind(ScriptFaultKind::Word))
}

fn named(alloc: Global, word: &[u8], name: &[u8]) -> Result<ControlCommand, LineStop>
    ensures { Gives (λ c. c) result (named_of word.now name.now) }
{
    let name = narrow(alloc, name)?;
    if word == b"start".as_slice() {
        return Ok(ControlCommand::Start(name));
    }
    if word == b"stop".as_slice() {
        return Ok(ControlCommand::Stop(name));
    }
    if word == b"stopall".as_slice() {
        return Ok(ControlCommand::StopAll(name));
    }
    Err(LineStop::Kind(ScriptFaultKind::Word))
}
