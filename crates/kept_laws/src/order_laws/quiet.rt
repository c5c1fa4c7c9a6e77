//! What a report says where the disk counts no stop.

ghost use Rattle.std.specs.Prelude.{◌≡◌, ℕ, List, ◌++◌, Option};
ghost use Rattle.hive_model.specs.Image.{Image};
ghost use Rattle.nt_edge.specs.Disk.{DiskState};
ghost use Rattle.start_model.specs.Lines.{text_of};
ghost use Rattle.start_model.specs.Summary.{with_lines};
ghost use Rattle.start_model.specs.Events as events;
ghost use Rattle.start_model.specs.Possible.{Woken};
ghost use Rattle.start_model.specs.Boot.{Choice};
ghost use Rattle.start_model.specs.Run.{run_of};
ghost use Rattle.start_model.specs.Quiet.{quiet_run_of};
ghost use Rattle.start_model.specs.Fits.{MayLoad};
ghost use Rattle.run_parts.specs.run_parts.Parts.{Told};
ghost use Rattle.run_parts.specs.run_parts.Reports.{Reports, LeftOf};

/// After a run after which the disk counts no cut and no fault, what was printed is the text of the quiet run, the summary is
/// that of its lines, and each image that the disk may be left as loads as the state that it amounts to.
pub fn without_counts_the_report_is_the_quiet_one()
    ensures said { (choice : Option ℕ → Choice) (script : List events.Event) (placed : Woken)
        (told : Told) (told' : Told) (before : DiskState) (after : DiskState)
        → Reports (run_of choice script placed) told told' before after → after.cuts ≡ 0 → after.faults ≡ 0
        → told'.said ≡ told.said ++ text_of (quiet_run_of choice script placed).lines }
    ensures summary { (choice : Option ℕ → Choice) (script : List events.Event) (placed : Woken)
        (told : Told) (told' : Told) (before : DiskState) (after : DiskState)
        → Reports (run_of choice script placed) told told' before after → after.cuts ≡ 0 → after.faults ≡ 0
        → told'.summary ≡ with_lines told.summary (quiet_run_of choice script placed).lines }
    ensures loads { (choice : Option ℕ → Choice) (script : List events.Event) (placed : Woken)
        (told : Told) (told' : Told) (before : DiskState) (after : DiskState)
        → Reports (run_of choice script placed) told told' before after → after.cuts ≡ 0 → after.faults ≡ 0
        → (c : Image) → LeftOf after c → MayLoad (quiet_run_of choice script placed).state.disk c }
{}
