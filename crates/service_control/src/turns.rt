//! Entries that start in sequence.

ghost use Rattle.std.specs.Prelude.{◌≡◌, ◌<◌, ◌^◌, length, IfOk, OnOk};
ghost use Rattle.service_control.specs.Turns.{turns, starts_of};
ghost use Rattle.dependencies.specs.Attempts.{all_waiting};

use crate::lists::{copy_of, picked};
use dependencies::{Needs, Places, Started, TestCount, Waiting};
use std::alloc::{AllocError, Global};

/// Those that start where these were started before, each as its turn comes. Takes n log n time in the
/// entries and the names that they give.
pub(crate) fn starts(alloc: Global, needs: &Needs, started: &Started) -> Result<Needs, AllocError>
    ensures { IfOk result (λ n. n ≡ starts_of needs.now started.now) }
{
    let all = copy_of(alloc, needs.as_slice())?;
    let places = turns(alloc, all, started)?;
    picked(alloc, needs.as_slice(), places.as_slice())
}

/// The places of those that start, in the order of their turns.
fn turns(alloc: Global, needs: Needs, started: &Started) -> Result<Places, AllocError>
    ensures { IfOk result (λ p. p ≡ turns (length needs) (all_waiting needs started.now)) }
{
    let mut waiting = waiting(alloc, needs, started)?;
    let mut places = Places::new(alloc);
    let mut tests = TestCount::new();
    'turns: loop {
        match waiting.next() {
            Some(at) => {
                places.push(at)?;
                waiting.tried(at, true, &mut tests);
            }
            None => return Ok(places),
        }
    }
}

/// All of these wait.
pub(crate) fn waiting(alloc: Global, needs: Needs, started: &Started) -> Result<Waiting, AllocError>
    ensures { IfOk result (λ w. w ≡ all_waiting needs started.now) }
{
    few(needs.len())?;
    let mut tests = TestCount::new();
    Waiting::new(alloc, needs, started, &mut tests)
}

/// A list of entries has fewer than 2^32; more of them are taken for lack of memory.
pub(crate) fn few(count: usize) -> Result<(), AllocError>
    ensures { OnOk result (count < 2 ^ 32) }
{
    if count < 0x1_0000_0000 {
        Ok(())
    } else {
        Err(AllocError)
    }
}
