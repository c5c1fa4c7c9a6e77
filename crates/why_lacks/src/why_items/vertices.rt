//! The numbers of the entries of all plans.

ghost use Rattle.std.specs.Prelude.{◌≡◌, ◌+◌, IfOk};
ghost use Rattle.why_lacks.specs.why_items.Vertices.{entry_count, number_of, places_from};

use std::alloc::AllocError;
use why_needs::why_state::{PhaseView, ViewedRun};

/// How many entries these plans have.
pub(crate) fn entry_count(views: &[PhaseView]) -> Result<usize, AllocError>
    ensures { IfOk result (λ n. n ≡ entry_count views.now) }
{
    let mut rest = views;
    let mut sum = 0;
    'view: loop {
        let [view, more @ ..] = rest else {
            return Ok(sum);
        };
        sum = add(sum, view.plan.len())?;
        rest = more;
    }
}

/// The sum, unless it is over the greatest number; then as for lack of memory.
pub(crate) fn add(a: usize, b: usize) -> Result<usize, AllocError>
    ensures { IfOk result (λ n. n ≡ a + b) }
{
    match a.checked_add(b) {
        Some(sum) => Ok(sum),
        None => Err(AllocError),
    }
}

/// The number of the entry at a place of the plan at a place, of which there is one.
pub fn number_of(run: &ViewedRun, place: (usize, usize)) -> Result<usize, AllocError>
    ensures { IfOk result (λ n. n ≡ number_of run.now.views place) }
{
    let views = run.views.as_slice();
    let at = place.0.min(views.len());
    add(entry_count(&views[..at])?, place.1)
}

/// The places of the entry of a number: that of the phase, and that in its plan.
pub fn places_of(run: &ViewedRun, number: usize) -> Option<(usize, usize)>
    ensures { result ≡ places_from 0 run.now.views number }
{
    let mut rest = run.views.as_slice();
    let _count = rest.len();
    let mut at = 0;
    let mut left = number;
    'view: loop {
        let [view, more @ ..] = rest else {
            return None;
        };
        if left < view.plan.len() {
            return Some((at, left));
        }
        left -= view.plan.len();
        at += 1;
        rest = more;
    }
}
