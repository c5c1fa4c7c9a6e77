//! Lines that are said to a host, each as soon as it is made.

ghost use Rattle.std.specs.Prelude.{◌≡◌, ◌+◌, [], OnOk};
ghost use Rattle.line_parts.specs.Parts.{line, printed, printed_lines};
ghost use Rattle.line_parts.specs.Views.{all_seen};
ghost use Rattle.find_rule.specs.Lines.{closing_lines, end_line, found_line, no_key_line, no_key_lines};
ghost use Rattle.find_command.specs.Prints.{Prints};

use line_parts::{Part, push_line};
use nt_edge::{Host, HostStop};
use report_text::line_text::ReportForm;
use std::alloc::Global;

/// Says a line in a form. Where there is no memory for it, nothing is said.
pub(crate) fn say_line<H: Host>(
    alloc: Global,
    host: &mut H,
    form: ReportForm,
    word: &[u8],
    parts: &[Part<'_>],
) -> Result<(), HostStop>
    ensures { Prints (printed form (line word.now (all_seen parts.now))) result (H.state host.old) (H.state host.new) }
{
    let mut out = Vec::new(alloc);
    match push_line(alloc, &mut out, form, word, parts) {
        Ok(()) => host.say(out.as_slice()),
        Err(_) => Err(HostStop::Memory),
    }
}

/// Says the line of a hit, and counts it. Where the count would be over, the memory has ended long ago.
pub(crate) fn say_hit<H: Host>(
    alloc: Global,
    host: &mut H,
    form: ReportForm,
    found: &mut u64,
    word: &[u8],
    parts: &[Part<'_>],
) -> Result<(), HostStop>
    ensures prints { Prints (printed form (line word.now (all_seen parts.now))) result (H.state host.old) (H.state host.new) }
    ensures count { OnOk result (found.new ≡ found.old + 1) }
{
    match found.checked_add(1) {
        Some(more) => {
            *found = more;
            say_line(alloc, host, form, word, parts)
        }
        None => Err(HostStop::Memory),
    }
}

/// Says the last line.
fn say_end<H: Host>(alloc: Global, host: &mut H, form: ReportForm) -> Result<(), HostStop>
    ensures { Prints (printed form end_line) result (H.state host.old) (H.state host.new) }
{
    say_line(alloc, host, form, b"end", &[])
}

/// Says how many hits there were.
fn say_found<H: Host>(
    alloc: Global,
    host: &mut H,
    form: ReportForm,
    found: u64,
) -> Result<(), HostStop>
    ensures { Prints (printed form (found_line found)) result (H.state host.old) (H.state host.new) }
{
    say_line(
        alloc,
        host,
        form,
        b"found",
        &[Part::Number(b"count", found)],
    )
}

/// Says that there is no such key.
fn say_refused<H: Host>(alloc: Global, host: &mut H, form: ReportForm) -> Result<(), HostStop>
    ensures { Prints (printed form no_key_line) result (H.state host.old) (H.state host.new) }
{
    say_line(
        alloc,
        host,
        form,
        b"refused",
        &[
            Part::Word(b"command", b"find"),
            Part::Word(b"word", b"no-key"),
        ],
    )
}

/// Says the lines after those of the hits.
pub(crate) fn say_closing<H: Host>(
    alloc: Global,
    host: &mut H,
    form: ReportForm,
    found: u64,
) -> Result<(), HostStop>
    ensures { Prints (printed_lines form (closing_lines found)) result (H.state host.old) (H.state host.new) }
{
    match say_found(alloc, host, form, found) {
        Ok(()) => say_end(alloc, host, form),
        Err(stop) => Err(stop),
    }
}

/// Says the lines where the path leads to no key.
pub(crate) fn say_no_key<H: Host>(
    alloc: Global,
    host: &mut H,
    form: ReportForm,
) -> Result<(), HostStop>
    ensures { Prints (printed_lines form no_key_lines) result (H.state host.old) (H.state host.new) }
{
    match say_refused(alloc, host, form) {
        Ok(()) => say_end(alloc, host, form),
        Err(stop) => Err(stop),
    }
}
