//! One line of the script.

ghost use Rattle.std.specs.Prelude.{◌≡◌, map, IfOk};
ghost use Rattle.boot_script.specs.boot_script.Script.{script_of};
ghost use Rattle.boot_script.specs.boot_script.Words.{Gives, words_of};
ghost use Rattle.boot_script.specs.sweep_script.Sweep.{mark_role, plain_role, role_by, role_of, last_of, unordered, event_of};

use crate::boot_script::{
    Event, LineStop, Script, ScriptFaultKind, ScriptStop, read_script, words_in,
};
use std::alloc::{AllocError, Global};

/// What a line is to a sweep, by its first word.
#[derive(Clone, Copy, Debug, PartialEq, Eq)]
pub(crate) enum Role {
    /// The line `sweep`.
    Mark,
    /// A line that begins with a word with which no line of a sweep may begin.
    Barred,
    /// Any other line.
    Plain,
}

fn mark_role(more: &[&[u8]]) -> Role
    ensures { result ≡ mark_role (map (λ w. w.now) more.now) }
{
    match more {
        [] => Role::Mark,
        _ => Role::Barred,
    }
}

fn plain_role(name: &[u8]) -> Role
    ensures { result ≡ plain_role name.now }
{
    if name == b"cut".as_slice() || name == b"fault".as_slice() {
        Role::Barred
    } else {
        Role::Plain
    }
}

/// What a line of these words is.
fn role_by(words: &[&[u8]]) -> Role
    ensures { result ≡ role_by (map (λ w. w.now) words.now) }
{
    let [name, more @ ..] = words else {
        return Role::Plain;
    };
    if *name == b"sweep".as_slice() {
        mark_role(more)
    } else {
        plain_role(name)
    }
}

/// What a line is; one without words, or with a fault in them, is read as in any script.
pub(crate) fn role_of(alloc: Global, line: &[u8]) -> Result<Role, AllocError>
    ensures { IfOk result (λ role. role ≡ role_of (words_of line.now)) }
{
    match words_in(alloc, line) {
        Ok(words) => Ok(role_by(words.as_slice())),
        Err(LineStop::Kind(_)) => Ok(Role::Plain),
        Err(LineStop::Memory) => Err(AllocError),
    }
}

/// The one event of a script of one line.
fn last_of(script: Script) -> Option<Event>
    ensures { result ≡ last_of script }
{
    let mut events = script.into_vec();
    events.pop()
}

/// The event, unless it orders a stop of the disk.
fn unordered(event: Option<Event>) -> Result<Option<Event>, LineStop>
    ensures { Gives (λ e. e) result (unordered event) }
{
    match event {
        Some(Event::CutNow { .. }) => Err(LineStop::Kind(ScriptFaultKind::Word)),
        Some(Event::ArmCut { .. }) => Err(LineStop::Kind(ScriptFaultKind::Word)),
        Some(Event::ArmFault { .. }) => Err(LineStop::Kind(ScriptFaultKind::Word)),
        other => Ok(other),
    }
}

/// The event of a plain line.
pub(crate) fn event_of(alloc: Global, line: &[u8]) -> Result<Option<Event>, LineStop>
    ensures { Gives (λ e. e) result (event_of (script_of line.now)) }
{
    match read_script(alloc, line) {
        Ok(script) => unordered(last_of(script)),
        Err(ScriptStop::Fault(fault)) => Err(LineStop::Kind(fault.kind)),
        Err(ScriptStop::Memory) => Err(LineStop::Memory),
    }
}
