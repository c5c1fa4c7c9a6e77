//! What the disk counts where a report says no stop.

ghost use Rattle.std.specs.Prelude.{◌≡◌, ℕ, List, Option};
ghost use Rattle.nt_edge.specs.Disk.{DiskState};
ghost use Rattle.start_model.specs.Events as events;
ghost use Rattle.start_model.specs.Possible.{Woken};
ghost use Rattle.start_model.specs.Boot.{Choice};
ghost use Rattle.start_model.specs.Run.{run_of};
ghost use Rattle.start_model.specs.Fits.{outcomes_of};
ghost use Rattle.run_laws.specs.run_laws.Quiet.{AllFinished};
ghost use Rattle.run_parts.specs.run_parts.Parts.{Told, tally_now};
ghost use Rattle.run_parts.specs.run_parts.Reports.{Reports};

/// A stop that came is reported: where the text of the whole report says none, the disk counted no cut and no fault since.
pub fn a_report_that_tells_no_stop_counts_none()
    ensures { (choice : Option ℕ → Choice) (script : List events.Event) (placed : Woken)
        (told : Told) (told' : Told) (before : DiskState) (after : DiskState)
        (r : Reports (run_of choice script placed) told told' before after) → AllFinished (outcomes_of r.text)
        → tally_now after ≡ tally_now before }
{}
