//! Which started services lean on one of them.
//!
//! The causes wait as the entries of a phase do, and the name that is asked for is there at first. What is ready then
//! leans, and makes more ready.

ghost use Rattle.std.specs.Prelude.{◌≡◌, ◌<◌, ◌∷◌, [], None, true, length, slice_index, slice_set, IfOk};
ghost use Rattle.nt_bytes.specs.Folding.{folded};
ghost use Rattle.start_model.specs.Ready.{has_name};
ghost use Rattle.service_control.specs.State.{labels_of};
ghost use Rattle.service_control.specs.Leaning.{leaning_of};
ghost use Rattle.service_control.specs.Causes.{AreCauses};

use crate::causes::{CauseList, causes};
use crate::turns::{few, waiting};
use dependencies::{Need, Needs, Started, TestCount};
use nt_names::name_places::folded;
use std::alloc::{AllocError, Global};

/// For each started service whether it leans on the one of this name, which is started too. Takes n log n time in
/// the services and the names that they give.
pub(crate) fn leaning(
    alloc: Global,
    running: &[Need],
    name: &[u16],
) -> Result<Vec<bool>, AllocError>
    requires { has_name (labels_of running.now) name.now ≡ true }
    ensures { IfOk result (λ l. l.items ≡ leaning_of running.now name.now) }
{
    let CauseList { needs, owners } = causes(alloc, running)?;
    spread(alloc, running, name, needs, owners.as_slice())
}

/// Which services own a cause that gets ready.
fn spread(
    alloc: Global,
    running: &[Need],
    name: &[u16],
    needs: Needs,
    owners: &[usize],
) -> Result<Vec<bool>, AllocError>
    requires causes { AreCauses running.now (length running.now) needs owners.now }
    requires on { has_name (labels_of running.now) name.now ≡ true }
    ensures { IfOk result (λ l. l.items ≡ leaning_of running.now name.now) }
{
    let seed = alone(alloc, name)?;
    let mut waiting = waiting(alloc, needs, &seed)?;
    let mut taken = vec![in alloc; false; running.len()]?;
    let mut tests = TestCount::new();
    'spread: loop {
        match waiting.next() {
            Some(at) => {
                take_owner(&mut taken, owners, at);
                waiting.tried(at, true, &mut tests);
            }
            None => return Ok(taken),
        }
    }
}

/// The owner of a cause leans.
fn take_owner(taken: &mut Vec<bool>, owners: &[usize], at: u32)
    requires at { at < length owners.now }
    requires owner { slice_index owners.now at < length taken.old.items }
    ensures { taken.new.items ≡ slice_set taken.old.items (slice_index owners.now at) true }
{
    let owner = owners[at as usize];
    taken[owner] = true;
}

/// One of this name was started.
fn alone(alloc: Global, name: &[u16]) -> Result<Started, AllocError>
    ensures { IfOk result (λ s. s ≡ (folded name.now, None) ∷ []) }
{
    let mut started = Started::new(alloc);
    started.push(alloc, folded(alloc, name)?, None)?;
    Ok(started)
}
