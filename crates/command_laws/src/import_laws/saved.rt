//! A hive that a text was imported into, saved and read again.

ghost use Rattle.std.specs.Prelude.{◌≡◌, ℕ, true, List, Some};
ghost use Rattle.hive_model.specs.Image.{Primary, Log, IsFileOf, image_of};
ghost use Rattle.nt_edge.specs.Disk.{DiskState};
ghost use Rattle.nt_edge.specs.Host.{HostState};
ghost use Rattle.hive_laws.specs.saved_laws.Saved.{HasUntornBlock};
ghost use Rattle.report_text.specs.declared.line_text.form.ReportForm.{ReportForm};
ghost use Rattle.command_words.specs.Words.{ImportAsked};
ghost use Rattle.command_parts.specs.declared.command_parts.status.Status.{Status};
ghost use Rattle.text_commands.specs.Imported.{DecidesImport};
ghost use Rattle.command_laws.specs.import_laws.AsTold.{LoadsAsTold};

/// After an `import` that is done, the two files of what the disk holds load as the lines report (`held`): as the hive with the
/// text's edits made and the next number where one was committed, else as the hive was. So do the files that were saved under two
/// names (`saved`). The primary's sector 0 has to be one that can be read.
pub fn what_was_saved_loads_as_told()
    ensures held { (form : ReportForm) (words : ImportAsked) (old new : HostState) (disk : DiskState) (hive log : List ℕ)
        → DecidesImport form words Status.Done old new disk → old.tells ≡ true
        → IsFileOf disk.held Primary hive → IsFileOf disk.held Log log → HasUntornBlock disk.held
        → LoadsAsTold form words old new (image_of hive log) }
    ensures saved { (form : ReportForm) (words : ImportAsked) (old new : HostState) (disk : DiskState) (name other hive log : List ℕ)
        → DecidesImport form words Status.Done old new disk → old.tells ≡ true
        → words.save_hive ≡ Some name → words.save_log ≡ Some other → (name ≡ other → ⊥)
        → new.files name ≡ Some hive → new.files other ≡ Some log → HasUntornBlock disk.held
        → LoadsAsTold form words old new (image_of hive log) }
{}
