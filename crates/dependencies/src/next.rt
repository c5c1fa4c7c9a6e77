//! Which entry may be attempted next.

ghost use Rattle.std.specs.Prelude.{◌≡◌, Bool, List};
ghost use Rattle.std.specs.List.{list_all};
ghost use Rattle.start_model.specs.Demand.{Need as Needed};
ghost use Rattle.start_model.specs.Ready.{Label, has_name};
ghost use Rattle.dependencies.specs.Attempts.{all_waiting, tried_by_place, tried_plainly};

use crate::started::Started;
use nt_bytes::Units;

/// Whether each of these names was started.
pub fn services_met(services: &[Units], started: &Started) -> bool
    ensures { result ≡ list_all (has_name started.now) services.now }
{
    services.iter().all(|s| started.has_name(s.as_slice()))
}

/// The place that `Waiting::next` answers, and that of the first ready one among those that wait, are of
/// the same entry, attempt after attempt, whatever each of them amounts to.
pub fn both_ways_try_the_same()
    ensures { (needs : List Needed) (started : List Label) (oks : List Bool)
        → tried_by_place oks (all_waiting needs started) ≡ tried_plainly oks started needs }
{}
