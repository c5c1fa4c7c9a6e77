//! The command: files in, the graph of a start or the first obstacle out.

ghost use Rattle.std.specs.Prelude.{◌≡◌, Err, IfOk};
ghost use Rattle.std.specs.Option.{option_copied};
ghost use Rattle.hive_model.specs.Valid.{IsValid, HoldsKeys};
ghost use Rattle.command_parts.specs.command_parts.Inputs.{AsksSoMany};
ghost use Rattle.command_parts.specs.command_parts.Leaves.{IsBadUsage};
ghost use Rattle.command_parts.specs.command_parts.OnHive.{AnswersOnHive, SeeksAnswer, DecidesOnHive};
ghost use Rattle.command_parts.specs.command_parts.Refusals.{IsToldAs};
ghost use Rattle.command_words.specs.Views.{graph_seen};
ghost use Rattle.why_needs.specs.why_state.Views.{viewed_of};
ghost use Rattle.start_commands.specs.start_inputs.Inputs.{arguments_in, files_seen, AsksStart};
ghost use Rattle.start_commands.specs.graph_command.Answer.{start_asked, run_on, text_by, text_on, question_at, question_on, question_in};
ghost use Rattle.start_commands.specs.graph_command.Inputs.{arguments_in as graph_arguments_in, asks_graph};

use crate::start_inputs::{StartFiles, StartInputs, start_inputs};
use answer_lines::why_lines::WhyLines;
use command_parts::command_parts::{Obstacle, Refusal, Status, Told, answer, no_memory, read};
use command_words::GraphWords;
use graph_rule::graph_in;
use nt_bytes::{Bytes, HiveVersion, ReadStop, Units};
use nt_edge::Host;
use nt_names::written_name::written_name_if;
use quiet_run::quiet_run;
use reg_tree::Key;
use report_text::line_text::ReportForm;
use std::alloc::{AllocError, Global};
use why_needs::why_state::{ViewedRun, push_head, viewed};
use why_text::graph_text::print_graph;

/// The files that the command line names.
fn files_of<'a>(words: &GraphWords<'a>) -> StartFiles<'a>
    ensures { files_seen result ≡ start_asked (graph_seen words.now) }
{
    StartFiles {
        hive: words.hive,
        log: words.log,
        boot_ini: words.boot_ini,
        system: words.system,
        script: words.script,
    }
}

/// What the script leaves of its last start on the tree of a hive.
#[tactic(auto, unfolding(why_needs::specs::why_state::Views::viewed_of))]
fn run_on(
    alloc: Global,
    inputs: &StartInputs,
    root: Key,
    version: HiveVersion,
) -> Result<ViewedRun, AllocError>
    requires { IsValid root }
    ensures exact { IfOk result (λ run. run ≡ viewed_of (run_on inputs.now version root)) }
    ensures held { IfOk result (λ run. HoldsKeys run.run.set) }
{
    let run = quiet_run(
        alloc,
        &inputs.ini,
        &inputs.system,
        inputs.script.as_slice(),
        root,
        version,
    )?;
    viewed(alloc, run)
}

/// The graph of a start in a form.
fn text_by(
    alloc: Global,
    form: ReportForm,
    run: &ViewedRun,
    of: Option<&Units>,
) -> Result<Bytes, AllocError>
    requires { HoldsKeys run.now.run.set }
    ensures { IfOk result (λ text. text ≡ text_by form (option_copied of.entry) run.now) }
{
    let mut head = WhyLines::new(alloc);
    push_head(alloc, &run.run.start, &mut head)?;
    let graph = graph_in(alloc, run, of)?;
    print_graph(alloc, form, head.as_slice(), &graph)
}

/// The graph on the tree of a hive, in a form.
fn text_on(
    alloc: Global,
    inputs: &StartInputs,
    form: ReportForm,
    of: Option<&Units>,
    root: Key,
    version: HiveVersion,
) -> Result<Bytes, AllocError>
    requires { IsValid root }
    ensures { IfOk result (λ text. text ≡ text_on form (option_copied of.entry) inputs.now version root) }
{
    let run = run_on(alloc, inputs, root, version)?;
    text_by(alloc, form, &run, of)
}

/// The graph on the hive, or its first fault.
fn report_at(
    alloc: Global,
    inputs: &StartInputs,
    form: ReportForm,
    of: Option<&Units>,
) -> Result<Told, Obstacle>
    ensures { AnswersOnHive (question_at form (option_copied of.entry) inputs.now) result }
{
    match read(alloc, &inputs.hive) {
        Ok((root, _, version)) => match text_on(alloc, inputs, form, of, root, version) {
            Ok(text) => Ok(Told::done(text)),
            Err(_) => Err(no_memory()),
        },
        Err(ReadStop::Fault(fault)) => Err(Obstacle::Refused(Refusal::HiveFault(fault))),
        Err(ReadStop::Memory) => Err(no_memory()),
    }
}

/// The graph that the command line asks for, or the hive's first fault.
fn report_on(
    alloc: Global,
    inputs: &StartInputs,
    words: GraphWords<'_>,
    form: ReportForm,
) -> Result<Told, Obstacle>
    ensures { AnswersOnHive (question_on form (graph_seen words.entry) inputs.now) result }
{
    match written_name_if(alloc, words.of) {
        Ok(name) => report_at(alloc, inputs, form, name.as_ref()),
        Err(_) => Err(no_memory()),
    }
}

/// Gets what the command line names, and makes the graph. Nothing is printed.
fn seek<H: Host>(
    alloc: Global,
    words: GraphWords<'_>,
    form: ReportForm,
    host: &mut H,
) -> Result<Told, Obstacle>
    ensures seeks { SeeksAnswer (question_in form (graph_seen words.entry) (H.state host.old).files) result (H.state host.old) (H.state host.new) }
    ensures asks { AsksStart (start_asked (graph_seen words.entry)) result (H.state host.old) (H.state host.new) }
    ensures usage { result ≡ Err (Obstacle.Refused Refusal.Usage) → arguments_in (start_asked (graph_seen words.entry)) ≡ Err Refusal.Usage }
    ensures refused { arguments_in (start_asked (graph_seen words.entry)) ≡ Err Refusal.Usage → IsBadUsage result }
{
    match start_inputs(alloc, files_of(&words), host) {
        Ok(inputs) => report_on(alloc, &inputs, words, form),
        Err(obstacle) => Err(obstacle),
    }
}

/// Gets what the command line names, and prints in one of the two forms the graph of the script's last start, or of `boot` and `go` without
/// a script; or prints the first obstacle. Nothing is written.
pub fn graph<H: Host>(
    alloc: Global,
    words: GraphWords<'_>,
    form: ReportForm,
    host: &mut H,
) -> Status
    ensures decides { DecidesOnHive (question_in form (graph_seen words.entry) (H.state host.old).files) result (H.state host.old) (H.state host.new) }
    ensures asked { AsksSoMany (asks_graph (graph_seen words.entry)) result (H.state host.old) (H.state host.new) }
    ensures usage { result ≡ Status.Usage → graph_arguments_in (graph_seen words.entry) ≡ Err Refusal.Usage }
    ensures refused { graph_arguments_in (graph_seen words.entry) ≡ Err Refusal.Usage → IsToldAs Status.Usage result }
{
    let told = seek(alloc, words, form, host);
    answer(alloc, host, told)
}
