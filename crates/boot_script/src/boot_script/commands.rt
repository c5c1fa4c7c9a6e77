//! The event that the words of a line stand for.

ghost use Rattle.std.specs.Prelude.{◌≡◌, false, map, codes};
ghost use Rattle.std.specs.Str.{bytes_eq};
ghost use Rattle.nt_bytes.specs.Reading.{Sees};
ghost use Rattle.boot_script.specs.boot_script.Words.{Gives};
ghost use Rattle.boot_script.specs.boot_script.Commands.{set_of, delete_of, make_of, remove_of, alone_of, edit_of, command_of, event_of};

use crate::boot_script::data::data;
use crate::boot_script::disk_words::{cut, fault};
use crate::boot_script::event::Event;
use crate::boot_script::names::path;
use crate::boot_script::starting::{boot, fail, go, vital};
use crate::boot_script::stop::{LineStop, ScriptFaultKind};
use nt_bytes::narrow;
use std::alloc::Global;

#[tactic(auto, unfolding(crate::specs::boot_script::Commands::set_of))]
fn set(alloc: Global, words: &[&[u8]]) -> Result<Event, LineStop>
    ensures { Gives (λ e. e) result (set_of (map (λ w. w.now) words.now)) }
{
    let [path_word, name, kind, rest @ ..] = words else {
        return Err(LineStop::Kind(ScriptFaultKind::Word));
    };
    let (kind, bytes) = data(alloc, kind, rest)?;
    let path = path(alloc, path_word)?;
    let name = narrow(alloc, name)?;
    Ok(Event::Set {
        path,
        name,
        kind,
        bytes,
    })
}

#[tactic(auto, unfolding(crate::specs::boot_script::Commands::delete_of))]
fn delete(alloc: Global, words: &[&[u8]]) -> Result<Event, LineStop>
    ensures { Gives (λ e. e) result (delete_of (map (λ w. w.now) words.now)) }
{
    let [path_word, name] = words else {
        return Err(LineStop::Kind(ScriptFaultKind::Word));
    };
    let path = path(alloc, path_word)?;
    let name = narrow(alloc, name)?;
    Ok(Event::Delete { path, name })
}

#[tactic(auto, unfolding(crate::specs::boot_script::Commands::make_of))]
fn make(alloc: Global, words: &[&[u8]]) -> Result<Event, LineStop>
    ensures { Gives (λ e. e) result (make_of (map (λ w. w.now) words.now)) }
{
    let [path_word] = words else {
        return Err(LineStop::Kind(ScriptFaultKind::Word));
    };
    let path = path(alloc, path_word)?;
    Ok(Event::Make { path })
}

#[tactic(auto, unfolding(crate::specs::boot_script::Commands::remove_of))]
fn remove(alloc: Global, words: &[&[u8]]) -> Result<Event, LineStop>
    ensures { Gives (λ e. e) result (remove_of (map (λ w. w.now) words.now)) }
{
    let [path_word] = words else {
        return Err(LineStop::Kind(ScriptFaultKind::Word));
    };
    let path = path(alloc, path_word)?;
    Ok(Event::Remove { path })
}

/// The commands that take a path.
#[tactic(auto, unfolding(crate::specs::boot_script::Commands::edit_of))]
fn edit(alloc: Global, name: &[u8], words: &[&[u8]]) -> Result<Event, LineStop>
    ensures { Gives (λ e. e) result (edit_of name.now (map (λ w. w.now) words.now)) }
{
    if name == b"set".as_slice() {
        return set(alloc, words);
    }
    if name == b"delete".as_slice() {
        return delete(alloc, words);
    }
    if name == b"make".as_slice() {
        return make(alloc, words);
    }
    if name == b"remove".as_slice() {
        return remove(alloc, words);
    }
    Err(LineStop::Kind(ScriptFaultKind::Word))
}

/// The event, where no word is left.
fn alone(words: &[&[u8]], event: Event) -> Result<Event, ScriptFaultKind>
    ensures { Sees (λ e. e) result (alone_of event (map (λ w. w.now) words.now)) }
{
    if words.is_empty() {
        Ok(event)
    } else {
        Err(ScriptFaultKind::Word)
    }
}

/// The event of a command that is none of the four about starts.
#[tactic(auto, unfolding(crate::specs::boot_script::Commands::command_of))]
fn later(alloc: Global, name: &[u8], words: &[&[u8]]) -> Result<Event, LineStop>
    requires boot { bytes_eq name.now (codes "boot") ≡ false }
    requires go { bytes_eq name.now (codes "go") ≡ false }
    requires fail { bytes_eq name.now (codes "fail") ≡ false }
    requires vital { bytes_eq name.now (codes "vital") ≡ false }
    ensures { Gives (λ e. e) result (command_of name.now (map (λ w. w.now) words.now)) }
{
    if name == b"flush".as_slice() {
        return Ok(alone(words, Event::Flush)?);
    }
    if name == b"logon".as_slice() {
        return Ok(alone(words, Event::Logon)?);
    }
    if name == b"off".as_slice() {
        return Ok(alone(words, Event::Off)?);
    }
    if name == b"cut".as_slice() {
        return Ok(cut(words)?);
    }
    if name == b"fault".as_slice() {
        return Ok(fault(words)?);
    }
    edit(alloc, name, words)
}

/// The event of the command with these words after it.
#[tactic(auto, unfolding(crate::specs::boot_script::Commands::command_of))]
fn command(alloc: Global, name: &[u8], words: &[&[u8]]) -> Result<Event, LineStop>
    ensures { Gives (λ e. e) result (command_of name.now (map (λ w. w.now) words.now)) }
{
    if name == b"boot".as_slice() {
        return Ok(boot(words)?);
    }
    if name == b"go".as_slice() {
        return Ok(go(words)?);
    }
    if name == b"fail".as_slice() {
        return fail(alloc, words);
    }
    if name == b"vital".as_slice() {
        return vital(alloc, words);
    }
    later(alloc, name, words)
}

/// The event of a line with these words; a line without words has none.
#[tactic(auto, unfolding(crate::specs::boot_script::Commands::event_of))]
pub fn event(alloc: Global, words: &[&[u8]]) -> Result<Option<Event>, LineStop>
    ensures { Gives (λ e. e) result (event_of (map (λ w. w.now) words.now)) }
{
    let [name, words @ ..] = words else {
        return Ok(None);
    };
    let event = command(alloc, name, words)?;
    Ok(Some(event))
}
