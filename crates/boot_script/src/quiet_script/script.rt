//! The events of a script that orders no disk.

ghost use Rattle.std.specs.Prelude.{◌≡◌, IfOk};
ghost use Rattle.boot_script.specs.declared.boot_script.stop.ScriptStop.TheVariants as stops;
ghost use Rattle.boot_script.specs.boot_script.Script.{FailsBy, GivesScript, IsBounded};
ghost use Rattle.boot_script.specs.quiet_script.Quiet.{up_to, quiet_script_of};

use crate::boot_script::{Script, ScriptFault, ScriptFaultKind, ScriptStop, read_script};
use crate::quiet_script::orders::first_order;
use std::alloc::Global;

/// The longest script, in bytes.
const MAX_LEN: usize = 65536;

fn fault(kind: ScriptFaultKind, line: u32) -> ScriptStop
    ensures { result ≡ stops.Fault (record { kind = kind; line = line }) }
{
    ScriptStop::Fault(ScriptFault { kind, line })
}

/// What was read, where a line that orders the disk has this number.
fn before_order(read: Result<Script, ScriptStop>, number: u32) -> ScriptStop
    ensures { (wanted : _) → GivesScript read wanted → FailsBy result (up_to (Some number) wanted) }
{
    match read {
        Err(ScriptStop::Memory) => ScriptStop::Memory,
        Err(ScriptStop::Fault(f)) if f.line < number => ScriptStop::Fault(f),
        _ => fault(ScriptFaultKind::Word, number),
    }
}

/// The same up to the first line that orders the disk, if there is one.
fn up_to_order(read: Result<Script, ScriptStop>, order: Option<u32>) -> Result<Script, ScriptStop>
    ensures exact { (wanted : _) → GivesScript read wanted → GivesScript result (up_to order wanted) }
    ensures bounds { IfOk read IsBounded → IfOk result IsBounded }
{
    match order {
        Some(number) => Err(before_order(read, number)),
        None => read,
    }
}

/// The script that the text is, where no disk can be ordered to stop. A text over 65,536 bytes is refused before all else, as line 0.
#[tactic(auto, unfolding(crate::specs::quiet_script::Quiet::quiet_script_of))]
pub fn read_quiet_script(alloc: Global, text: &[u8]) -> Result<Script, ScriptStop>
    ensures exact { GivesScript result (quiet_script_of text.now) }
    ensures bounds { IfOk result IsBounded }
{
    if MAX_LEN < text.len() {
        return Err(fault(ScriptFaultKind::TooLong, 0));
    }
    let order = first_order(alloc, text)?;
    let read = read_script(alloc, text);
    up_to_order(read, order)
}
