//! The entries that are unmet at the end of a phase.

ghost use Rattle.std.specs.Prelude.{◌≡◌, true, map};
ghost use Rattle.report_words.specs.declared.line.Line.TheVariants.{Unmet as UnmetLine};
ghost use Rattle.boot_run.specs.Hosts.{LeavesHost};
ghost use Rattle.boot_run.specs.Views.{told_by, SaysAll};

use crate::saying::say;
use crate::stop::RunStop;
use crate::summary::Summary;
use nt_bytes::Units;
use nt_edge::Host;
use report_text::boot_report::Line;
use std::alloc::Global;

/// Says which entries are unmet, in their order.
pub(crate) fn say_unmet<H: Host>(
    alloc: Global,
    names: &[Units],
    summary: &mut Summary,
    host: &mut H,
) -> Result<(), RunStop>
    ensures tells { (H.state host.old).tells ≡ true
        → SaysAll (map UnmetLine names.now) (told_by (H.state host.old) summary.old) (told_by (H.state host.new) summary.new) result }
    ensures host { LeavesHost result (H.state host.old) (H.state host.new) }
{
    let mut waiting = names;
    'names: loop {
        let [name, more @ ..] = waiting else {
            return Ok(());
        };
        let Ok(name) = name.copy(alloc) else {
            return Err(RunStop::Memory);
        };
        say(alloc, host, summary, Line::Unmet { name })?;
        waiting = more;
    }
}
