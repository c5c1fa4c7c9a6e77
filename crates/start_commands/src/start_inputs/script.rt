//! The events of a script, of which one may be named.

ghost use Rattle.std.specs.Prelude.{◌≡◌, Err, IfOk, option_map};
ghost use Rattle.command_parts.specs.command_parts.Leaves.{Reads};
ghost use Rattle.boot_script.specs.quiet_script.Quiet.{quiet_script_of};
ghost use Rattle.command_parts.specs.input_search.Search.{Seeks};
ghost use Rattle.start_commands.specs.start_inputs.Inputs.{events_in, read_script, script, usual_events};

use boot_script::boot_script::{Event, Script, ScriptStop};
use boot_script::quiet_script::read_quiet_script;
use command_parts::command_parts::{Obstacle, Refusal, file_in, no_memory};
use nt_bytes::{Bytes, Row};
use nt_edge::Host;
use std::alloc::{AllocError, Global};

/// `boot` and `go`.
fn usual_script(alloc: Global) -> Result<Script, AllocError>
    ensures { IfOk result (λ script. script ≡ usual_events) }
{
    let mut script = Row::new(alloc);
    script.push(Event::Boot {
        entry: None,
        last_known_good: false,
    })?;
    script.push(Event::Go { steps: None })?;
    Ok(script)
}

/// The same where no script is named.
fn unnamed_script(alloc: Global) -> Result<Script, Obstacle>
    ensures read { Reads (Ok usual_events) result }
    ensures kept { result ≡ Err (Obstacle.Refused Refusal.Usage) → ⊥ }
{
    match usual_script(alloc) {
        Ok(script) => Ok(script),
        Err(_) => Err(no_memory()),
    }
}

/// The events of a script's text.
fn events_in(alloc: Global, text: &Bytes) -> Result<Script, Obstacle>
    ensures read { Reads (events_in (quiet_script_of text.now)) result }
    ensures kept { result ≡ Err (Obstacle.Refused Refusal.Usage) → ⊥ }
{
    match read_quiet_script(alloc, text.as_slice()) {
        Ok(script) => Ok(script),
        Err(ScriptStop::Fault(fault)) => Err(Obstacle::Refused(Refusal::ScriptFault(fault))),
        Err(ScriptStop::Memory) => Err(no_memory()),
    }
}

/// The events of the script of this name.
fn read_script_in<H: Host>(alloc: Global, host: &mut H, name: &str) -> Result<Script, Obstacle>
    ensures seeks { Seeks (read_script name.now) result (H.state host.old) (H.state host.new) }
    ensures kept { result ≡ Err (Obstacle.Refused Refusal.Usage) → ⊥ }
{
    let text = file_in(alloc, host, name)?;
    events_in(alloc, &text)
}

/// The events of the script, where one is named; else `boot` and `go`. Nothing is printed.
pub(crate) fn script_in<H: Host>(
    alloc: Global,
    host: &mut H,
    name: Option<&str>,
) -> Result<Script, Obstacle>
    ensures seeks { Seeks (script (option_map (λ v. v.now) name.entry)) result (H.state host.old) (H.state host.new) }
    ensures kept { result ≡ Err (Obstacle.Refused Refusal.Usage) → ⊥ }
{
    match name {
        Some(name) => read_script_in(alloc, host, name),
        None => unnamed_script(alloc),
    }
}
