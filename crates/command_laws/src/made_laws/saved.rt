//! The hive that `make` saves.

ghost use Rattle.std.specs.Prelude.{◌≡◌, Bool, true, false, ℕ, List, Option, Some, Ok};
ghost use Rattle.hive_model.specs.Image.{Primary, IsFileOf, image_of};
ghost use Rattle.hive_model.specs.Load.{Loads};
ghost use Rattle.nt_edge.specs.Disk.{DiskState};
ghost use Rattle.nt_edge.specs.Host.{HostState};
ghost use Rattle.start_model.specs.Events.{Event};
ghost use Rattle.start_model.specs.Possible.{Woken};
ghost use Rattle.start_model.specs.Boot.{Choice};
ghost use Rattle.start_model.specs.Quiet.{quiet_run_of};
ghost use Rattle.run_laws.specs.rest_laws.Rest.{IsAtRest};
ghost use Rattle.command_words.specs.Words.{asks, make, MakeAsked};
ghost use Rattle.command_parts.specs.declared.command_parts.status.Status.{Status};
ghost use Rattle.ntboot_cli.specs.declared.making.Usual.{Usual};
ghost use Rattle.ntboot_cli.specs.Answer.{TopDecides};
ghost use Rattle.ntboot_cli.specs.Made.{usual_in, made_run, IsMade};

/// A quiet run leaves nothing open: the disk is settled at its end, or it is as it was placed and no start woke it.
pub fn a_quiet_run_leaves_nothing_open()
    ensures { (choice : Option ℕ → Choice) (script : List Event) (placed : Woken) → IsAtRest placed (quiet_run_of choice script placed).state.disk }
{}

/// The hive's file after `make`, alone or with any log, loads as the state that the run of the made hive ends with, without a log
/// (`held`). So does the file that `make --save-hive` saved, where `ntboot` answers that all is done and the host reports its files (`file`).
pub fn a_made_hive_is_saved_as_its_run_leaves_it()
    ensures held { (usual : Usual) (count saved : ℕ) (disk : DiskState) (hive log : List ℕ)
        → IsMade usual count saved disk → IsFileOf disk.held Primary hive
        → Loads (image_of hive log) (made_run usual count).state.disk.settled false }
    ensures file { (words : MakeAsked) (json : Bool) (old : HostState) (new : HostState) (disk : DiskState) (name hive log : List ℕ)
        → TopDecides (asks (make words) json) Status.Done old new disk → old.tells ≡ true
        → words.save_hive ≡ Some name → new.files name ≡ Some hive
        → (usual : Usual) × ((usual_in ≡ Ok usual) × Loads (image_of hive log) (made_run usual words.count).state.disk.settled false) }
{}
