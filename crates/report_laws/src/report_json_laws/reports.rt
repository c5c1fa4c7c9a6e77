//! A law for each command: the object of each line of its report determines the line's text.

ghost use Rattle.std.specs.Prelude.{◌≡◌, ℕ, ◌≤◌, List, map};
ghost use Rattle.std.specs.List.{AllByRecursion};
ghost use Rattle.hive_model.specs.Tree.{Tree};
ghost use Rattle.report_text.specs.declared.line_text.form.ReportForm.{ReportForm};
ghost use Rattle.json_laws.specs.Reports.{IsReport};
ghost use Rattle.tree_text.specs.TreeObjects.{shown_lines, shown_in};
ghost use Rattle.sweep_text.specs.declared.sweep_text.logged.Logged.{Logged};
ghost use Rattle.sweep_text.specs.sweep_text.Report.{sweep_report};
ghost use Rattle.answer_lines.specs.declared.why_lines.lines.WhyLine.{WhyLine};
ghost use Rattle.answer_lines.specs.declared.graph_lines.graph.Graph.{Graph as GraphModel};
ghost use Rattle.why_text.specs.graph_text.Objects.{json_text};
ghost use Rattle.json_laws.specs.Reports.{HasValues};
ghost use Rattle.report_laws.specs.report_json_laws.Graph.{graph_objects, AreOneGraph};
ghost use Rattle.report_laws.specs.report_json_laws.Show as show;
ghost use Rattle.report_laws.specs.report_json_laws.Sweep as sweep;
ghost use Rattle.answer_lines.specs.declared.check_lines.lines.CheckLine.{CheckLine};
ghost use Rattle.check_text.specs.check_text.Lines as check_text;
ghost use Rattle.report_laws.specs.report_json_laws.Check as check;
ghost use Rattle.answer_lines.specs.declared.diff_lines.lines.DiffLine.{DiffLine};
ghost use Rattle.diff_text.specs.Objects as diff_text;
ghost use Rattle.report_laws.specs.report_json_laws.Diff as diff;
ghost use Rattle.key_text.specs.Lines.{KeyLine};
ghost use Rattle.key_text.specs.Lines as key_text;
ghost use Rattle.report_laws.specs.report_json_laws.Key as key;
ghost use Rattle.failure_effects.specs.declared.lines.EffectLine.{EffectLine};
ghost use Rattle.check_text.specs.whatif_text.Lines as whatif_text;
ghost use Rattle.report_laws.specs.report_json_laws.Whatif as whatif;
ghost use Rattle.why_text.specs.why_text.Lines as why_text;
ghost use Rattle.report_laws.specs.report_json_laws.Why as why;
ghost use Rattle.salvage_text.specs.Lines.{SalvageLine};
ghost use Rattle.salvage_text.specs.Lines as salvage_text;
ghost use Rattle.report_laws.specs.report_json_laws.Salvage as salvage;
ghost use Rattle.log_replay.specs.declared.line.ReplayLine.{ReplayLine};
ghost use Rattle.repair_commands.specs.replay_text.Lines as replay_text;
ghost use Rattle.report_laws.specs.report_json_laws.Replay as replay;
ghost use Rattle.report_words.specs.declared.line.Line.{Line};
ghost use Rattle.report_text.specs.line_objects.Objects as run_text;
ghost use Rattle.report_laws.specs.report_json_laws.Starts as run;

/// The lines of `check`.
pub fn a_report_of_check_is_read()
    ensures { (lines : List CheckLine)
        → IsReport check.check_reader (λ (form : ReportForm). check_text.printed_lines form lines) (map check.said_of lines) }
{}

/// The lines of `diff`.
pub fn a_report_of_diff_is_read()
    ensures { (lines : List DiffLine)
        → IsReport diff.diff_reader (λ (form : ReportForm). diff_text.printed_lines form lines) (map diff.said_of lines) }
{}

/// The lines of `key`.
pub fn a_report_of_key_is_read()
    ensures { (lines : List KeyLine)
        → IsReport key.key_reader (λ (form : ReportForm). key_text.printed_lines form lines) (map key.said_of lines) }
{}

/// The lines of `whatif`.
pub fn a_report_of_whatif_is_read()
    ensures { (lines : List EffectLine)
        → IsReport whatif.whatif_reader (λ (form : ReportForm). whatif_text.printed_lines form lines) (map whatif.said_of lines) }
{}

/// The lines of `why`.
pub fn a_report_of_why_is_read()
    ensures { (lines : List WhyLine)
        → IsReport why.why_reader (λ (form : ReportForm). why_text.printed_lines form lines) (map why.said_of lines) }
{}

/// The lines of `salvage`.
pub fn a_report_of_salvage_is_read()
    ensures { (lines : List SalvageLine)
        → IsReport salvage.salvage_reader (λ (form : ReportForm). salvage_text.printed_lines form lines) (map salvage.said_of lines) }
{}

/// The lines of `replay`.
pub fn a_report_of_replay_is_read()
    ensures { (lines : List ReplayLine)
        → IsReport replay.replay_reader (λ (form : ReportForm). replay_text.printed_lines form lines) (map replay.said_of lines) }
{}

/// The lines of `run`, and of `safe` without its mode.
pub fn a_report_of_run_is_read()
    ensures { (lines : List Line)
        → IsReport run.start_reader (λ (form : ReportForm). run_text.printed_lines form lines) (map run.said_of lines) }
{}

/// The lines of `show`, of a tree that has fewer levels than 64 bits count.
pub fn a_report_of_show_is_read()
    ensures { (sequence bulk : ℕ) (root : Tree) → show.levels root ≤ 18446744073709551615
        → IsReport show.show_reader (λ (form : ReportForm). shown_in form sequence bulk root) (map show.said_of (shown_lines sequence bulk root)) }
{}

/// The lines of `sweep`, of any event, lines and logs.
pub fn a_report_of_sweep_is_read()
    ensures { (event : List ℕ) (lines : List Line) (recovery commit : Logged)
        → IsReport sweep.sweep_reader (λ (form : ReportForm). sweep_report form event lines recovery commit)
        (sweep.sweep_said event lines recovery commit) }
{}

/// The objects of `graph`, which says another text without `--json`: the first lines have their text back, and the nodes are the same, and what the
/// edges join.
pub fn the_objects_of_a_graph_tell_it()
    ensures { (head top : List WhyLine) (graph other : GraphModel) → AllByRecursion HasValues (graph_objects head graph)
        → AllByRecursion HasValues (graph_objects top other) → json_text head graph ≡ json_text top other
        → AreOneGraph head top graph other }
{}
