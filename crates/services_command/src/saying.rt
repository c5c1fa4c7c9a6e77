//! Lines said to a host, each as soon as it is made.

ghost use Rattle.std.specs.Prelude.{Result, Ok, Err, OnOk, IfErr};
ghost use Rattle.nt_edge.specs.Host.{AsksNone, KeepsFiles};
ghost use Rattle.command_parts.specs.command_parts.Leaves.{Leaves};
ghost use Rattle.command_parts.specs.command_parts.Refusals.{Ends, IsToldAs};
ghost use Rattle.services_command.specs.Lines.{printed, printed_lines};
ghost use Rattle.services_command.specs.Says.{Says, Breaks};

use crate::line::push_service_line;
use command_parts::command_parts::{Status, stopped};
use nt_edge::{Host, HostStop};
use report_text::line_text::ReportForm;
use service_list::ServiceLine;
use std::alloc::Global;

/// Says a line in a form. Where there is no memory for it, nothing is said.
fn say_line<H: Host>(
    alloc: Global,
    host: &mut H,
    form: ReportForm,
    line: &ServiceLine,
) -> Result<(), HostStop>
    ensures said { OnOk result (Says (H.state host.old) (H.state host.new) (printed form line.now)) }
    ensures breaks { IfErr result (λ stop. Breaks stop (H.state host.old) (H.state host.new) (printed form line.now)) }
{
    let mut out = Vec::new(alloc);
    match push_service_line(alloc, &mut out, form, line) {
        Ok(()) => host.say(out.as_slice()),
        Err(_) => Err(HostStop::Memory),
    }
}

/// Says lines in a form, one after another. After a refusal a first part of them was said.
fn say_lines<H: Host>(
    alloc: Global,
    host: &mut H,
    form: ReportForm,
    lines: &[ServiceLine],
) -> Result<(), HostStop>
    ensures said { OnOk result (Says (H.state host.old) (H.state host.new) (printed_lines form lines.now)) }
    ensures breaks { IfErr result (λ stop. Breaks stop (H.state host.old) (H.state host.new) (printed_lines form lines.now)) }
{
    for line in lines {
        if let Err(stop) = say_line(alloc, host, form, line) {
            return Err(stop);
        }
    }
    Ok(())
}

/// Says lines in a form, and answers that all was done; or the status of the stop.
pub(crate) fn tell_lines<H: Host>(
    alloc: Global,
    host: &mut H,
    form: ReportForm,
    lines: &[ServiceLine],
) -> Status
    ensures leaves { Leaves (Ends (record { status = Status.Done; text = printed_lines form lines.now })) result (H.state host.old) (H.state host.new) }
    ensures files { KeepsFiles (H.state host.old) (H.state host.new) }
    ensures unasked { AsksNone (H.state host.old) (H.state host.new) }
    ensures kept { IsToldAs Status.Done result }
{
    match say_lines(alloc, host, form, lines) {
        Ok(()) => Status::Done,
        Err(stop) => stopped(stop),
    }
}
