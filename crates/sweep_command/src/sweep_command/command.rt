//! The command: files in, the report of a sweep or the first obstacle out.

ghost use Rattle.std.specs.Prelude.{◌≡◌, Err};
ghost use Rattle.std.specs.List.{All};
ghost use Rattle.boot_script.specs.boot_script.Script.{HasCounts};
ghost use Rattle.command_parts.specs.command_parts.Inputs.{AsksSoMany};
ghost use Rattle.command_parts.specs.command_parts.Placed.{image_in};
ghost use Rattle.command_parts.specs.command_parts.Refusals.{IsToldAs};
ghost use Rattle.command_words.specs.Views.{sweep_seen};
ghost use Rattle.sweep_command.specs.sweep_inputs.Inputs.{files_seen};
ghost use Rattle.boot_script.specs.sweep_script.Sweep.{events_of, IsUnordered};
ghost use Rattle.sweep_command.specs.sweep_command.Answer.{files_asked, DecidesInputs, DecidesSweep, IsChecked, SweepsAs};
ghost use Rattle.sweep_command.specs.sweep_command.Inputs.{arguments_in, asks_sweep};

use crate::sweep_command::text::swept_text;
use crate::sweep_inputs::{SweepFiles, SweepInputs, sweep_inputs};
use command_parts::command_parts::{
    HiveFiles, Obstacle, Refusal, Status, judge, no_memory, refuse, stopped, tell,
};
use command_words::SweepWords;
use nt_bytes::{Bytes, ReadStop};
use nt_edge::Host;
use report_text::line_text::ReportForm;
use std::alloc::Global;

/// The files that the command line names.
fn files_of<'a>(words: &SweepWords<'a>) -> SweepFiles<'a>
    ensures { files_seen result ≡ files_asked (sweep_seen words.now) }
{
    SweepFiles {
        hive: words.hive,
        log: words.log,
        boot_ini: words.boot_ini,
        system: words.system,
        script: words.script,
    }
}

/// Checks a whole hive with its log, and keeps no memory.
fn check(alloc: Global, files: &HiveFiles) -> Result<(), ReadStop>
    ensures { IsChecked (image_in files.now) result }
{
    let _judged = judge(alloc, files)?;
    Ok(())
}

/// The report, or the hive's first fault.
fn report(alloc: Global, inputs: SweepInputs, form: ReportForm) -> Result<Bytes, Obstacle>
    requires counts { All HasCounts (events_of inputs.script) }
    requires unordered { All IsUnordered (events_of inputs.script) }
    ensures { SweepsAs form inputs result }
{
    match check(alloc, &inputs.hive) {
        Ok(_) => match swept_text(alloc, form, inputs) {
            Ok(text) => Ok(text),
            Err(_) => Err(no_memory()),
        },
        Err(ReadStop::Fault(fault)) => Err(Obstacle::Refused(Refusal::HiveFault(fault))),
        Err(ReadStop::Memory) => Err(no_memory()),
    }
}

/// Prints the report, or the hive's first fault.
fn say_report<H: Host>(alloc: Global, inputs: SweepInputs, form: ReportForm, host: &mut H) -> Status
    requires counts { All HasCounts (events_of inputs.script) }
    requires unordered { All IsUnordered (events_of inputs.script) }
    ensures { DecidesInputs form inputs result (H.state host.old) (H.state host.new) }
{
    match report(alloc, inputs, form) {
        Ok(text) => tell(host, text.as_slice(), Status::Done),
        Err(Obstacle::Refused(why)) => refuse(alloc, host, &why),
        Err(Obstacle::Stopped(stop)) => stopped(stop),
    }
}

/// Gets what the command line names, and prints in one of the two forms which writes and syncs the event after the line `sweep` makes, and what
/// a power cut at each of them leaves; or prints the first obstacle. Nothing is written.
pub fn sweep<H: Host>(
    alloc: Global,
    words: SweepWords<'_>,
    form: ReportForm,
    host: &mut H,
) -> Status
    ensures decides { DecidesSweep form (sweep_seen words.entry) result (H.state host.old) (H.state host.new) }
    ensures asked { AsksSoMany (asks_sweep (sweep_seen words.entry)) result (H.state host.old) (H.state host.new) }
    ensures usage { result ≡ Status.Usage → arguments_in (sweep_seen words.entry) ≡ Err Refusal.Usage }
    ensures refused { arguments_in (sweep_seen words.entry) ≡ Err Refusal.Usage → IsToldAs Status.Usage result }
{
    match sweep_inputs(alloc, files_of(&words), host) {
        Ok(inputs) => say_report(alloc, inputs, form, host),
        Err(Obstacle::Refused(why)) => refuse(alloc, host, &why),
        Err(Obstacle::Stopped(stop)) => stopped(stop),
    }
}
