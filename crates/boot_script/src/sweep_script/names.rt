//! The first words of events.

ghost use Rattle.std.specs.Prelude.{◌≡◌};
ghost use Rattle.boot_script.specs.sweep_script.Names.{first_word};

use crate::boot_script::Event;

/// The first word of an event's line.
pub fn first_word(event: &Event) -> &'static [u8]
    ensures { result.now ≡ first_word event.now }
{
    match event {
        Event::Boot { .. } => b"boot",
        Event::Go { .. } => b"go",
        Event::Fail { .. } => b"fail",
        Event::Vital { .. } => b"vital",
        Event::Set { .. } => b"set",
        Event::Delete { .. } => b"delete",
        Event::Make { .. } => b"make",
        Event::Remove { .. } => b"remove",
        Event::Flush => b"flush",
        Event::Logon => b"logon",
        Event::Off => b"off",
        Event::CutNow { .. } => b"cut",
        Event::ArmCut { .. } => b"cut",
        Event::ArmFault { .. } => b"fault",
    }
}
