//! A line said through the host.

ghost use Rattle.std.specs.Prelude.{◌≡◌, true};
ghost use Rattle.run_parts.specs.printed_parts.Parts.{TellsOr};
ghost use Rattle.boot_run.specs.Hosts.{LeavesHost};
ghost use Rattle.boot_run.specs.Views.{told_by};

use crate::stop::RunStop;
use crate::summary::Summary;
use nt_edge::{Host, HostStop};
use report_text::boot_report::Line;
use report_text::line_objects::printed_bytes;
use std::alloc::Global;

/// Says a line of the report in its form, and counts it.
pub(crate) fn say<H: Host>(
    alloc: Global,
    host: &mut H,
    summary: &mut Summary,
    line: Line,
) -> Result<(), RunStop>
    ensures tells { (H.state host.old).tells ≡ true
        → TellsOr line (told_by (H.state host.old) summary.old) (told_by (H.state host.new) summary.new) result }
    ensures host { LeavesHost result (H.state host.old) (H.state host.new) }
{
    let Ok(bytes) = printed_bytes(alloc, summary.form, &line) else {
        return Err(RunStop::Memory);
    };
    match host.say(bytes.as_slice()) {
        Ok(()) => {
            summary.count(&line);
            Ok(())
        }
        Err(HostStop::Read) => unreachable!(),
        Err(HostStop::Write) => Err(RunStop::Write),
        Err(HostStop::Memory) => Err(RunStop::Memory),
    }
}
