//! What follows for a run that was printed whole, or given up.

ghost use Rattle.std.specs.Prelude.{◌≡◌, ◌⊎◌, ◌+◌, false, ℕ, List, Option, Ok};
ghost use Rattle.std.specs.Option.{IsSome};
ghost use Rattle.hive_model.specs.Image.{Primary, Log, IsFileOf, image_of};
ghost use Rattle.hive_model.specs.Load.{Loads};
ghost use Rattle.nt_edge.specs.Disk.{DiskState};
ghost use Rattle.nt_edge.specs.Host.{Files};
ghost use Rattle.start_model.specs.Report.{Going};
ghost use Rattle.start_model.specs.Events.{Event as BookEvent};
ghost use Rattle.start_model.specs.Fits.{outcomes_of, KeepsGood, MayLoad};
ghost use Rattle.start_model.specs.Possible.{Woken, loads_as};
ghost use Rattle.start_model.specs.Boot.{Choice};
ghost use Rattle.start_model.specs.Run.{run_of};
ghost use Rattle.start_model.specs.Summary.{Summary, no_summary};
ghost use Rattle.report_text.specs.declared.line_text.form.ReportForm.{ReportForm};
ghost use Rattle.run_parts.specs.printed_parts.Reports.{Reports, ReportsFront};
ghost use Rattle.hive_laws.specs.saved_laws.Saved.{HasUntornBlock};
ghost use Rattle.command_parts.specs.declared.command_parts.inputs.HiveFiles.{HiveFiles};
ghost use Rattle.ntboot_cli.specs.declared.inputs.Inputs.{Inputs};
ghost use Rattle.ntboot_cli.specs.declared.making.Usual.{Usual};
ghost use Rattle.command_parts.specs.declared.command_parts.status.Status.{Status};
ghost use Rattle.ntboot_cli.specs.Answer.{RunsPart, RunsWhole, EndsInputs, quiet_in};
ghost use Rattle.command_parts.specs.command_parts.Leaves.{more, named, stop_in};
ghost use Rattle.ntboot_cli.specs.Made.{told, usual_in, made_run, IsMade};
ghost use Rattle.command_parts.specs.command_parts.Placed.{image_in, placed_disk};
ghost use Rattle.command_parts.specs.command_parts.Saves.{Saves, StopsSaving, KeepsAll};

/// Over every script and whatever came of its disk operations, LastKnownGood names a good set in each tree that was loaded or
/// committed, and in each that the disk may load as afterwards: where the report was printed whole, and where the run was given up.
pub fn a_run_keeps_last_known_good()
    ensures whole { (form : ReportForm) (choice : Option ℕ → Choice) (script : List BookEvent) (placed : Woken) (summary : Summary)
        (old new : List ℕ) (before after : DiskState)
        (r : Reports (run_of choice script placed) (told form old no_summary) (told form new summary) before after)
        → let run = run_of choice script placed r.report.woken (outcomes_of r.text) in KeepsGood run.notes run.disk }
    ensures front { (form : ReportForm) (choice : Option ℕ → Choice) (script : List BookEvent) (placed : Woken) (old new : List ℕ)
        (before after : DiskState) (r : ReportsFront form (run_of choice script placed) old new before after)
        → let run = run_of choice script placed r.report.woken (outcomes_of r.text) in KeepsGood run.notes run.disk }
{}

/// Each file of the hive that the command line names was placed for a run, and each that they want saved was taken: where all was done. Where
/// the run was given up, no file was taken.
pub fn a_run_places_and_takes_the_named_files()
    ensures placed { (form : ReportForm) (inputs : Inputs) (woken : Woken) (taken : ℕ) (after : DiskState) (old new : List ℕ)
        → RunsWhole form inputs woken taken (placed_disk inputs.hive) after old new → after.history.placings ≡ 1 + named inputs.hive.log }
    ensures taken { (form : ReportForm) (inputs : Inputs) (woken : Woken) (taken : ℕ) (after : DiskState) (old new : List ℕ)
        → RunsWhole form inputs woken taken (placed_disk inputs.hive) after old new → after.history.takings ≡ more taken 0 }
    ensures placed_front { (form : ReportForm) (run : Going) (files : HiveFiles) (after : DiskState) (old new : List ℕ)
        → ReportsFront form run old new (placed_disk files) after → after.history.placings ≡ 1 + named files.log }
    ensures untaken_front { (form : ReportForm) (run : Going) (files : HiveFiles) (after : DiskState) (old new : List ℕ)
        → ReportsFront form run old new (placed_disk files) after → after.history.takings ≡ 0 }
{}

/// Where a run ends early, the files to be saved are as they were; or its whole report was printed, and then saving them was stopped.
pub fn no_file_changes_before_a_report_is_whole()
    ensures { (form : ReportForm) (inputs : Inputs) (placed : Woken) (saves : Saves) (disk : DiskState) (old new : List ℕ) (before after : Files)
        → RunsPart form inputs placed saves (placed_disk inputs.hive) disk old new → StopsSaving saves disk before after
        → KeepsAll before after ⊎ ((taken : ℕ) × RunsWhole form inputs placed taken (placed_disk inputs.hive) disk old new) }
{}

/// Where options and files have no obstacle and the hive is well-formed, a run ends as done, unless the environment stopped it or there
/// was no memory.
pub fn a_well_formed_hive_is_run()
    ensures { (form : ReportForm) (inputs : Inputs) (saves : Saves) (placed : Woken) (disk : DiskState) (status : Status) (old new : List ℕ)
        → Loads (image_in inputs.hive) placed.state placed.dirty → EndsInputs form (Ok inputs) saves disk status old new
        → (status ≡ Status.Done) ⊎ IsSome (stop_in status) }
{}

/// The two files of the disk after a run, or after the run of a generated hive, load as its last state says: as the settled state,
/// or as the other one of an open change. The hive's first sector has to be one that can be read.
pub fn what_was_saved_loads_as_the_run_says()
    ensures run { (form : ReportForm) (inputs : Inputs) (placed : Woken) (count : ℕ) (before : DiskState) (after : DiskState) (old new hive log : List ℕ)
        (r : RunsWhole form inputs placed count before after old new)
        → IsFileOf after.held Primary hive → IsFileOf after.held Log log → HasUntornBlock after.held
        → MayLoad r.reports.report.last.disk (image_of hive log) }
    ensures made { (usual : Usual) (count saved : ℕ) (disk : DiskState) (hive log : List ℕ)
        → IsMade usual count saved disk → IsFileOf disk.held Primary hive → IsFileOf disk.held Log log → HasUntornBlock disk.held
        → MayLoad (made_run usual count).state.disk (image_of hive log) }
{}

/// After a run whose disk counts no cut and no fault the hive's file alone, with its log's or any other, loads as the last state
/// that was settled, without the log; unless no start woke the disk, which is as it was placed then.
pub fn what_a_quiet_run_saved_loads_as_its_last_tree()
    ensures { (form : ReportForm) (inputs : Inputs) (placed : Woken) (count : ℕ) (before : DiskState) (after : DiskState) (old new hive log : List ℕ)
        → RunsWhole form inputs placed count before after old new → after.cuts ≡ 0 → after.faults ≡ 0 → IsFileOf after.held Primary hive
        → Loads (image_of hive log) (quiet_in inputs placed).state.disk.settled false
        ⊎ ((quiet_in inputs placed).state.disk ≡ loads_as placed) }
{}

/// The usual system and an empty boot.ini are read, so that `make` has no obstacle.
pub fn make_has_no_obstacle()
    ensures { (usual : Usual) × (usual_in ≡ Ok usual) }
{}
