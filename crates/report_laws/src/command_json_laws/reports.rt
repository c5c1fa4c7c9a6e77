//! A law for each command: the object of each line of its report determines the line's text (`read`), which is one line (`lines`).

ghost use Rattle.std.specs.Prelude.{◌≡◌, ℕ, Bool, List, Option, map};
ghost use Rattle.hive_model.specs.Tree.{Tree};
ghost use Rattle.report_text.specs.declared.line_text.form.ReportForm.{ReportForm};
ghost use Rattle.json_laws.specs.Reports.{HaveValues, IsReport};
ghost use Rattle.report_words.specs.declared.line.Line.{Line};
ghost use Rattle.report_laws.specs.report_json_laws.Starts.{said_of, start_reader};
ghost use Rattle.report_laws.specs.command_json_laws.Texts.{AreLines};
ghost use Rattle.control_command.specs.declared.command.ControlCommand.{ControlCommand};
ghost use Rattle.control_command.specs.Report.{report_in};
ghost use Rattle.report_laws.specs.command_json_laws.Control as control;
ghost use Rattle.hive_model.specs.Recovery.{Recovered};
ghost use Rattle.twin_command.specs.Told.{told_in, told_of};
ghost use Rattle.report_laws.specs.command_json_laws.Twin as twin;
ghost use Rattle.text_commands.specs.declared.said.Said.{Said as ImportSaid};
ghost use Rattle.text_commands.specs.ImportLines.{said_text};
ghost use Rattle.report_laws.specs.command_json_laws.Import as import;
ghost use Rattle.command_parts.specs.declared.command_parts.status.Status.TheVariants as statuses;
ghost use Rattle.text_commands.specs.Exported.{export_of};
ghost use Rattle.report_laws.specs.command_json_laws.Export as export;
ghost use Rattle.boot_ini.specs.declared.arc_path.arc.Arc.{Arc};
ghost use Rattle.boot_ini.specs.declared.boot_ini.ini.BootIni.{BootIni};
ghost use Rattle.safe_boot.specs.declared.mode.SafeMode.{SafeMode};
ghost use Rattle.safe_command.specs.Report.{report_of};
ghost use Rattle.report_laws.specs.command_json_laws.Safe as safe;
ghost use Rattle.ntboot_cli.specs.declared.making.Usual.{Usual};
ghost use Rattle.ntboot_cli.specs.Made.{made_text};
ghost use Rattle.report_laws.specs.command_json_laws.Make as make;

/// The lines of `control`, of any hive's tree and any commands.
pub fn a_report_of_control_is_read()
    ensures read { (tree : Tree) (commands : List ControlCommand)
        → IsReport control.control_reader (λ (form : ReportForm). report_in form tree commands) (control.control_said tree commands) }
    ensures lines { (tree : Tree) (commands : List ControlCommand) → AreLines (control.control_said tree commands) }
{}

/// The lines of `twin`, of any number that is asked for, of anything that two files stand for, and of any tree in it.
pub fn a_report_of_twin_is_read()
    ensures read { (number : Option ℕ) (found : Recovered) (tree : Tree)
        → IsReport twin.twin_reader (λ (form : ReportForm). told_in form (told_of number found tree)) (twin.twin_said number found tree) }
    ensures lines { (number : Option ℕ) (found : Recovered) (tree : Tree) → AreLines (twin.twin_said number found tree) }
{}

/// The lines of `import`, regardless of what became of the edits.
pub fn a_report_of_import_is_read()
    ensures read { (said : ImportSaid) → IsReport import.import_reader (λ (form : ReportForm). said_text form said) (import.import_said said) }
    ensures lines { (said : ImportSaid) → AreLines (import.import_said said) }
{}

/// The line of `export`, of any path and tree, where the command is done; its numbers are of 64 bits.
pub fn a_report_of_export_is_read()
    ensures read { (path : List (List ℕ)) (root : Tree) (any : ReportForm) → (export_of any path root).answer.status ≡ statuses.Done
        → IsReport export.export_reader (λ (form : ReportForm). (export_of form path root).answer.text) (export.export_said path root) }
    ensures lines { (path : List (List ℕ)) (root : Tree) → AreLines (export.export_said path root) }
    ensures values { (path : List (List ℕ)) (root : Tree) → HaveValues (export.export_said path root) }
{}

/// The lines of `safe`, of any boot.ini, system and hive's tree: the line of the mode among lines of a start.
pub fn a_report_of_safe_is_read()
    ensures read { (named : Option SafeMode) (images : Bool) (ini : BootIni) (system : Arc) (tree : Tree)
        → IsReport start_reader (λ (form : ReportForm). report_of form named images ini system tree) (safe.safe_said named images ini system tree) }
    ensures lines { (named : Option SafeMode) (images : Bool) (ini : BootIni) (system : Arc) (tree : Tree)
        → AreLines (safe.safe_said named images ini system tree) }
{}

/// The line of `make`, of any number of services.
pub fn a_report_of_make_is_read()
    ensures read { (usual : Usual) (count : ℕ)
        → IsReport make.make_reader (λ (form : ReportForm). made_text form usual count) (make.made_said usual count) }
    ensures lines { (usual : Usual) (count : ℕ) → AreLines (make.made_said usual count) }
{}

/// The text of each line of `run` is one line.
pub fn each_line_of_run_is_one_line()
    ensures { (lines : List Line) → AreLines (map said_of lines) }
{}
