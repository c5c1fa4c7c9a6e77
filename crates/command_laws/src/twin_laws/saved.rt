//! What the files stand for that the disk holds after `twin`.

ghost use Rattle.std.specs.Prelude.{◌≡◌, true, ℕ, List, Some};
ghost use Rattle.nt_bytes.specs.declared.fault.HiveFaultKind.TheVariants.{NotRegf};
ghost use Rattle.hive_model.specs.Asked.{primary_at};
ghost use Rattle.hive_model.specs.Base.{fault_at};
ghost use Rattle.hive_model.specs.Image.{Image, Primary, Log, Unreadable, IsFileOf, image_of};
ghost use Rattle.nt_edge.specs.Disk.{DiskState};
ghost use Rattle.nt_edge.specs.Host.{HostState};
ghost use Rattle.hive_alt.specs.Schemes.{StandFault};
ghost use Rattle.command_words.specs.Words.{TwinAsked};
ghost use Rattle.command_words.specs.declared.asked.AskedScheme.{AskedScheme};
ghost use Rattle.command_parts.specs.declared.command_parts.status.Status.TheVariants as statuses;
ghost use Rattle.report_text.specs.declared.line_text.form.ReportForm.TheVariants.{Text};
ghost use Rattle.twin_command.specs.Twinned.{stands_by, DecidesTwin};
ghost use Rattle.command_laws.specs.twin_laws.AsTold.{StandsAsTold};

/// After `twin` that ended as done, the two files that the disk holds stand together for the state that the lines tell, by the
/// scheme that is asked for, and there is nothing to repair (`held`). So do the two files that were saved, where each has its own
/// name (`saved`).
pub fn what_was_saved_stands_as_told()
    ensures held { (words : TwinAsked) (old new : HostState) (disk : DiskState) (hive alt : List ℕ)
        → DecidesTwin Text words statuses.Done old new disk → old.tells ≡ true
        → IsFileOf disk.held Primary hive → IsFileOf disk.held Log alt
        → StandsAsTold words old new (image_of hive alt) }
    ensures saved { (words : TwinAsked) (old new : HostState) (disk : DiskState) (name other hive alt : List ℕ)
        → DecidesTwin Text words statuses.Done old new disk → old.tells ≡ true
        → words.save_hive ≡ Some name → words.save_alt ≡ Some other → (name ≡ other → ⊥)
        → new.files name ≡ Some hive → new.files other ≡ Some alt
        → StandsAsTold words old new (image_of hive alt) }
{}

/// Where the primary's sector 0 can't be read, its file is no hive by either scheme, whatever the second file has.
pub fn a_torn_block_stands_for_nothing()
    ensures { (scheme : AskedScheme) (image : Image) (hive alt : List ℕ)
        → IsFileOf image Primary hive → image (primary_at 0) ≡ Some Unreadable
        → StandFault (stands_by scheme) (image_of hive alt) (fault_at NotRegf 0) }
{}
