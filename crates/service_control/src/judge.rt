//! Why a call is refused, one question after another.

ghost use Rattle.std.specs.Prelude.{◌≡◌, ◌<◌, true, not, option_map, position, IfOk, OnOk};
ghost use Rattle.std.specs.Option.{option_copied};
ghost use Rattle.nt_bytes.specs.Folding.{folds_same};
ghost use Rattle.start_model.specs.Ready.{has_name};
ghost use Rattle.service_control.specs.declared.stop.ControlStop.TheVariants as stops;
ghost use Rattle.service_control.specs.Turns.{starts_of};
ghost use Rattle.service_control.specs.Needed.{disabled_in};
ghost use Rattle.service_control.specs.Leaning.{first_other};
ghost use Rattle.service_control.specs.Calls.{Answers, KnowsRefusal, entry_refusal, members_refusal, turns_refusal, idle_refusal};

use crate::needed::{disabled, is_started, missing};
use crate::stop::ControlStop;
use crate::turns::starts;
use dependencies::{Need, Needs, Started};
use nt_bytes::same_folded;
use nt_names::name_places::NamePlaces;
use std::alloc::Global;

/// An entry that is to be started is not disabled, and not started yet.
pub(crate) fn may_start(need: &Need, started: &Started) -> Result<(), ControlStop>
    ensures answer { Answers result (entry_refusal started.now need.now) }
    ensures known { KnowsRefusal result (entry_refusal started.now need.now) }
{
    if need.start == 4 {
        return Err(ControlStop::Disabled);
    }
    if is_started(need, started) {
        return Err(ControlStop::Running);
    }
    Ok(())
}

/// All that these name are entries, and none of these is disabled.
pub(crate) fn are_there(
    alloc: Global,
    index: &NamePlaces,
    members: &[Need],
) -> Result<(), ControlStop>
    ensures { Answers result (members_refusal index.now members.now) }
{
    match missing(index, members) {
        Some(name) => Err(ControlStop::Missing(name.copy(alloc)?)),
        None => none_disabled(alloc, members),
    }
}

fn none_disabled(alloc: Global, members: &[Need]) -> Result<(), ControlStop>
    ensures { Answers result (option_map stops.NeedDisabled (disabled_in members.now)) }
{
    match disabled(members) {
        Some(name) => Err(ControlStop::NeedDisabled(name.copy(alloc)?)),
        None => Ok(()),
    }
}

/// All of these start; they are answered in the order of their starts.
pub(crate) fn all_start(
    alloc: Global,
    members: &Needs,
    started: &Started,
) -> Result<Needs, ControlStop>
    ensures answer { Answers result (turns_refusal members.now (starts_of members.now started.now)) }
    ensures new { IfOk result (λ n. n ≡ starts_of members.now started.now) }
{
    let new = starts(alloc, members, started)?;
    if new.len() == members.len() {
        Ok(new)
    } else {
        Err(ControlStop::Unmet)
    }
}

/// An entry of the name of this one is started.
pub(crate) fn is_on(need: &Need, started: &Started) -> Result<(), ControlStop>
    ensures answer { Answers result (idle_refusal started.now need.now.name) }
    ensures known { KnowsRefusal result (idle_refusal started.now need.now.name) }
    ensures on { OnOk result (has_name started.now need.now.name ≡ true) }
{
    if is_started(need, started) {
        Ok(())
    } else {
        Err(ControlStop::NotStarted)
    }
}

/// None of those that lean on a service has another name.
pub(crate) fn not_in_use(alloc: Global, leaning: &[Need], name: &[u16]) -> Result<(), ControlStop>
    ensures { Answers result (option_map stops.InUse (option_map (λ n. n.name) (first_other name.now leaning.now))) }
{
    match first_other(leaning, name) {
        Some(need) => Err(ControlStop::InUse(need.name.copy(alloc)?)),
        None => Ok(()),
    }
}

/// The first one of another name.
fn first_other<'a>(needs: &'a [Need], name: &[u16]) -> Option<&'a Need>
    ensures { option_copied result ≡ first_other name.now needs.now }
{
    let place = other_place(needs, name)?;
    needs.get(place)
}

fn other_place(needs: &[Need], name: &[u16]) -> Option<usize>
    ensures { result ≡ position (λ n. not (folds_same name.now n.name)) needs.now }
{
    needs
        .iter()
        .position(|n| !same_folded(name, n.name.as_slice()))
}
