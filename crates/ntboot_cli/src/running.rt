//! `run`: the script played on the disk, and what the disk then holds saved.

ghost use Rattle.std.specs.Prelude.{◌≡◌, false, Err};
ghost use Rattle.std.specs.List.{All};
ghost use Rattle.boot_script.specs.boot_script.Script.{HasCounts};
ghost use Rattle.nt_edge.specs.Disk.{new_state};
ghost use Rattle.boot_run.specs.Agrees.{LoadsAny};
ghost use Rattle.command_words.specs.Words as book;
ghost use Rattle.command_words.specs.Views.{run_seen};
ghost use Rattle.ntboot_cli.specs.Answer.{DecidesHive, DecidesRun, IsChecked};
ghost use Rattle.command_parts.specs.command_parts.Inputs.{AsksSoMany};
ghost use Rattle.ntboot_cli.specs.Inputs.{arguments_in, asks_run};
ghost use Rattle.command_parts.specs.command_parts.Placed.{image_in, placed_disk};
ghost use Rattle.command_parts.specs.command_parts.Refusals.{IsToldAs};
ghost use Rattle.command_parts.specs.command_parts.Views.{saves_seen};

use crate::inputs::{Inputs, inputs_in};
use boot_run::RunStop;
use command_parts::command_parts::{
    HiveFiles, Obstacle, Refusal, Saves, Status, judge_cells, place, refuse, save, saved, stopped,
};
use command_words::RunWords;
use hive_edit::HiveBytes;
use nt_bytes::ReadStop;
use nt_edge::{Bench, Host};
use report_text::line_text::ReportForm;
use std::alloc::Global;

/// Checks a whole hive with its log, and keeps its cells.
fn check(alloc: Global, files: &HiveFiles) -> Result<HiveBytes, ReadStop>
    ensures { IsChecked (image_in files.now) result }
{
    let (cells, _number, _version) = judge_cells(alloc, files)?;
    Ok(cells)
}

/// Runs the script on the disk, which holds the hive of these cells, and saves what it holds then.
fn play<H: Host, B: Bench>(
    alloc: Global,
    inputs: &Inputs,
    judged: &mut Option<HiveBytes>,
    saves: Saves<'_>,
    form: ReportForm,
    host: &mut H,
    bench: &mut B,
) -> Status
    requires counts { All HasCounts inputs.now.script }
    requires placed { B.state bench.old ≡ placed_disk inputs.now.hive }
    requires loads { LoadsAny (image_in inputs.now.hive) }
    ensures { DecidesHive form inputs.now (saves_seen saves.entry) result (H.state host.old) (H.state host.new) (B.state bench.new) }
{
    let script = inputs.script.as_slice();
    match boot_run::run(
        alloc,
        script,
        &inputs.ini,
        &inputs.system,
        form,
        host,
        bench,
        judged.take(),
    ) {
        Ok(_) => saved(save(saves, host, bench)),
        Err(RunStop::Write) => Status::WriteFault,
        Err(RunStop::Memory) => Status::Memory,
    }
}

/// Places the hive on the disk, and runs the script.
fn start<H: Host, B: Bench>(
    alloc: Global,
    inputs: &Inputs,
    judged: &mut Option<HiveBytes>,
    saves: Saves<'_>,
    form: ReportForm,
    host: &mut H,
    bench: &mut B,
) -> Status
    requires counts { All HasCounts inputs.now.script }
    requires fresh { B.state bench.old ≡ new_state }
    requires loads { LoadsAny (image_in inputs.now.hive) }
    ensures { DecidesHive form inputs.now (saves_seen saves.entry) result (H.state host.old) (H.state host.new) (B.state bench.new) }
{
    match place(&inputs.hive, bench) {
        Ok(()) => play(alloc, inputs, judged, saves, form, host, bench),
        Err(_) => Status::Memory,
    }
}

/// Checks the hive, and starts with it or says its first fault.
fn begin<H: Host, B: Bench>(
    alloc: Global,
    inputs: &Inputs,
    saves: Saves<'_>,
    form: ReportForm,
    host: &mut H,
    bench: &mut B,
) -> Status
    requires counts { All HasCounts inputs.now.script }
    requires fresh { B.state bench.old ≡ new_state }
    ensures { DecidesHive form inputs.now (saves_seen saves.entry) result (H.state host.old) (H.state host.new) (B.state bench.new) }
{
    match check(alloc, &inputs.hive) {
        Ok(cells) => {
            let mut judged = Some(cells);
            start(alloc, inputs, &mut judged, saves, form, host, bench)
        }
        Err(ReadStop::Fault(fault)) => refuse(alloc, host, &Refusal::HiveFault(fault)),
        Err(ReadStop::Memory) => Status::Memory,
    }
}

/// Gets what the command line names, runs, with the report in one of the two forms, and saves; or says the first obstacle.
pub(crate) fn run<H: Host, B: Bench>(
    alloc: Global,
    words: RunWords<'_>,
    form: ReportForm,
    host: &mut H,
    bench: &mut B,
) -> Status
    requires fresh { B.state bench.old ≡ new_state }
    ensures decides { DecidesRun form (run_seen words.entry) result (H.state host.old) (H.state host.new) (B.state bench.new) }
    ensures asked { AsksSoMany (asks_run (run_seen words.entry)) result (H.state host.old) (H.state host.new) }
    ensures usage { result ≡ Status.Usage → arguments_in (book.asks (book.run (run_seen words.entry)) false) ≡ Err Refusal.Usage }
    ensures refused { arguments_in (book.asks (book.run (run_seen words.entry)) false) ≡ Err Refusal.Usage → IsToldAs Status.Usage result }
{
    let saves = Saves {
        hive: words.save_hive,
        log: words.save_log,
    };
    match inputs_in(alloc, words, host) {
        Ok(inputs) => begin(alloc, &inputs, saves, form, host, bench),
        Err(Obstacle::Refused(why)) => refuse(alloc, host, &why),
        Err(Obstacle::Stopped(stop)) => stopped(stop),
    }
}
