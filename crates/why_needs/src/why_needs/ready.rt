//! From which moment on an entry was ready that was attempted.

ghost use Rattle.std.specs.Prelude.{◌≡◌, IfOk, None, slice_get};
ghost use Rattle.std.specs.Option.{option_map_or};
ghost use Rattle.why_needs.specs.why_needs.Met.{service_met, group_met};
ghost use Rattle.why_needs.specs.why_needs.Ready.{later, latest, ready_at, ready_line};
ghost use Rattle.answer_lines.specs.declared.why_lines.lines.WhyLine.TheVariants.{ReadyAtOnce, ReadyAfter};
ghost use Rattle.quiet_run.specs.declared.last.Attempt.{Attempt as Tried};

use crate::why_needs::met::{GroupStarts, group_met, service_met};
use crate::why_state::ViewedRun;
use answer_lines::why_lines::WhyLine;
use boot_phases::service_entries::Entry;
use nt_bytes::Units;
use std::alloc::{AllocError, Global};

/// The later of two attempts.
fn later(a: Option<usize>, b: Option<usize>) -> Option<usize>
    ensures { result ≡ later a b }
{
    match a {
        None => b,
        Some(a) => match b {
            None => Some(a),
            Some(b) => Some(a.max(b)),
        },
    }
}

/// The latest attempt at which one of these names was started.
fn latest_service(run: &ViewedRun, names: &[Units]) -> Option<usize>
    ensures { result ≡ latest (service_met run.now) None names.now }
{
    let mut rest = names;
    let mut so_far = None;
    'name: loop {
        let [name, more @ ..] = rest else {
            return so_far;
        };
        so_far = later(so_far, service_met(run, name.as_slice()));
        rest = more;
    }
}

/// The latest attempt at which one of these groups was met, or the one so far.
fn latest_group(starts: &GroupStarts, before: Option<usize>, groups: &[Units]) -> Option<usize>
    ensures { result ≡ latest (group_met starts.now) before groups.now }
{
    let mut rest = groups;
    let mut so_far = before;
    'group: loop {
        let [group, more @ ..] = rest else {
            return so_far;
        };
        so_far = later(so_far, group_met(starts, group.as_slice()));
        rest = more;
    }
}

/// The attempt at which the last of an entry's needs was met.
pub fn ready_at(run: &ViewedRun, starts: &GroupStarts, entry: &Entry) -> Option<usize>
    ensures { result ≡ ready_at run.now starts.now entry.now }
{
    let services = latest_service(run, entry.services.as_slice());
    latest_group(starts, services, entry.groups.as_slice())
}

/// The line of an attempt in the phase.
fn after(alloc: Global, run: &ViewedRun, at: usize) -> Result<WhyLine, AllocError>
    ensures { IfOk result (λ line. line ≡ option_map_or (λ (a : Tried). ReadyAfter a.name) (slice_get run.now.run.start.attempts at) ReadyAtOnce) }
{
    match run.run.start.attempts.get(at) {
        Some(attempt) => Ok(WhyLine::ReadyAfter(attempt.name.copy(alloc)?)),
        None => Ok(WhyLine::ReadyAtOnce),
    }
}

/// The line of the attempt at which the last need was met, in a phase before which that many were made.
pub fn ready_line(
    alloc: Global,
    run: &ViewedRun,
    from: usize,
    met: Option<usize>,
) -> Result<WhyLine, AllocError>
    ensures { IfOk result (λ line. line ≡ ready_line run.now from met) }
{
    match met {
        Some(at) => if at < from {
            Ok(WhyLine::ReadyAtOnce)
        } else {
            after(alloc, run, at)
        },
        None => Ok(WhyLine::ReadyAtOnce),
    }
}
