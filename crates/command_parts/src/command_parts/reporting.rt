//! How a command ends that prints a report and then puts a file.

ghost use Rattle.std.specs.Prelude.{◌≡◌, ℕ, true, if◌then◌else◌, Some, Err, IsOk, Result, option_map};
ghost use Rattle.nt_edge.specs.Host.{HostState};
ghost use Rattle.command_parts.specs.command_parts.Leaves.{AsksBy, AsksUntil, Looks, stop_in};
ghost use Rattle.command_parts.specs.command_parts.Refusals.{LacksAsHost};
ghost use Rattle.command_parts.specs.command_parts.Reporting.{DecidesReport, FinishesReport, PutsFile, report_answer};

use crate::command_parts::refusal::{Obstacle, Refusal, refuse, stopped, tell};
use crate::command_parts::status::Status;
use nt_bytes::Bytes;
use nt_edge::Host;
use std::alloc::Global;

/// A report, whether it shows that something was found, and the file that comes with it, where that is to be saved.
#[derive(Drop)]
pub struct FileReport {
    pub text: Bytes,
    pub found: bool,
    pub saved: bool,
    pub file: Bytes,
}

fn status_of(found: bool) -> Status
    ensures same { result ≡ if found then Status.Found else Status.Done }
    ensures ends { stop_in result ≡ None }
{
    if found { Status::Found } else { Status::Done }
}

/// Puts the file, and answers this status; or that of the host's stop.
fn put_file<H: Host>(name: &str, file: &[u8], status: Status, host: &mut H) -> Status
    requires ends { stop_in status ≡ None }
    ensures { PutsFile status name.now file.now result (H.state host.old) (H.state host.new) }
{
    match host.put(name, file) {
        Ok(()) => status,
        Err(stop) => stopped(stop),
    }
}

/// Prints the report, and then puts the file.
fn tell_and_put<H: Host>(
    name: &str,
    text: &[u8],
    file: &[u8],
    status: Status,
    host: &mut H,
) -> Status
    requires ends { stop_in status ≡ None }
    ensures { FinishesReport true (Some name.now) (record { status = status; text = text.now }) file.now result (H.state host.old) (H.state host.new) }
{
    match host.say(text) {
        Ok(()) => put_file(name, file, status, host),
        Err(stop) => stopped(stop),
    }
}

/// Prints the report, and then puts the file where it is saved.
fn finish<H: Host>(name: Option<&str>, report: &FileReport, host: &mut H) -> Status
    ensures { FinishesReport report.now.saved (option_map (λ v. v.now) name.entry) (report_answer report.now) report.now.file result
        (H.state host.old) (H.state host.new) }
{
    let text = report.text.as_slice();
    let status = status_of(report.found);
    match name {
        Some(name) if report.saved => {
            tell_and_put(name, text, report.file.as_slice(), status, host)
        }
        _ => tell(host, text, status),
    }
}

/// Prints a report, and then puts its file under the name, where there is one and the file is saved; or prints the line of the first
/// obstacle, or nothing where the host or the memory stopped the search.
pub fn report<H: Host>(
    alloc: Global,
    host: &mut H,
    name: Option<&str>,
    found: Result<FileReport, Obstacle>,
) -> Status
    ensures decides { (wanted : Result FileReport Refusal) (before : HostState)
        → Looks wanted found before (H.state host.old) → DecidesReport wanted (option_map (λ v. v.now) name.entry) result before (H.state host.new) }
    ensures asked { (n before : ℕ) → AsksUntil n found before (H.state host.old).gets
        → AsksBy n (stop_in result) before (H.state host.new).gets }
    ensures usage { result ≡ Status.Usage → found ≡ Err (Obstacle.Refused Refusal.Usage) }
    ensures own { IsOk found → LacksAsHost result (H.state host.old) (H.state host.new) }
{
    match found {
        Ok(report) => finish(name, &report, host),
        Err(Obstacle::Refused(why)) => refuse(alloc, host, &why),
        Err(Obstacle::Stopped(stop)) => stopped(stop),
    }
}
