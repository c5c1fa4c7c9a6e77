//! The events of a script in order, and its end.

ghost use Rattle.std.specs.Prelude.{◌≡◌, true, false, None, [], map};
ghost use Rattle.std.specs.List.{All};
ghost use Rattle.nt_edge.specs.Disk.{DiskState};
ghost use Rattle.nt_edge.specs.Crash.{EachCrash};
ghost use Rattle.hive_model.specs.Image.{Image};
ghost use Rattle.hive_model.specs.Load.{Loads};
ghost use Rattle.boot_machine.specs.boot_machine.Views.{event_in};
ghost use Rattle.boot_script.specs.boot_script.Script.{HasCounts};
ghost use Rattle.start_model.specs.Fits.{MayLoad};
ghost use Rattle.start_model.specs.Possible.{Woken};
ghost use Rattle.start_model.specs.Act.{RunState, Act, done};
ghost use Rattle.start_model.specs.Run.{play, verdict_first, closing_act, run_from, run_of};
ghost use Rattle.run_parts.specs.printed_parts.Reports.{ReportsOr};
ghost use Rattle.boot_run.specs.Agrees.{IsDown, Counts};
ghost use Rattle.boot_run.specs.Begins.{RunsOr, untold, answered};
ghost use Rattle.boot_run.specs.Choices.{choices};
ghost use Rattle.boot_run.specs.Hosts.{LeavesHost};
ghost use Rattle.boot_run.specs.Views.{told_in, moment, RunsTo};

use crate::runner::Runner;
use crate::saying::say;
use crate::stop::RunStop;
use crate::summary::Summary;
use crate::turning::turn;
use boot_ini::arc_path::Arc;
use boot_ini::boot_ini::BootIni;
use boot_machine::boot_machine::Machine;
use boot_script::boot_script::Event;
use hive_edit::HiveBytes;
use nt_edge::{Bench, Host};
use report_text::boot_report::Line;
use report_text::line_text::ReportForm;
use std::alloc::Global;

/// A start that still runs gets its verdict.
fn say_last<H: Host>(alloc: Global, runner: &mut Runner, host: &mut H) -> Result<(), RunStop>
    ensures plays { (m : RunState) (d : DiskState) (rest : Act) → (H.state host.old).tells ≡ true → Counts m runner.old
        → EachCrash d (MayLoad (play rest [] []).disk)
        → RunsTo (verdict_first m.machine.start rest) (moment (H.state host.old) runner.old d) (moment (H.state host.new) runner.new d)
        result (λ u a. a ≡ rest) }
    ensures host { LeavesHost result (H.state host.old) (H.state host.new) }
{
    if runner.machine.is_on() {
        let word = runner.machine.ending();
        return say(alloc, host, &mut runner.summary, Line::Verdict { word });
    }
    Ok(())
}

/// The end of the script.
fn close<H: Host>(alloc: Global, runner: &mut Runner, host: &mut H) -> Result<(), RunStop>
    ensures plays { (m : RunState) (d : DiskState) → (H.state host.old).tells ≡ true → Counts m runner.old → EachCrash d (MayLoad m.disk)
        → RunsTo (closing_act m) (moment (H.state host.old) runner.old d) (moment (H.state host.new) runner.new d)
        result (λ u a. a ≡ done m) }
    ensures host { LeavesHost result (H.state host.old) (H.state host.new) }
{
    say_last(alloc, runner, host)?;
    say(alloc, host, &mut runner.summary, Line::End)
}

/// Plays events in order, and says the end.
fn events<H: Host, B: Bench>(
    alloc: Global,
    script: &[Event],
    ini: &BootIni,
    system: &Arc,
    runner: &mut Runner,
    host: &mut H,
    bench: &mut B,
) -> Result<(), RunStop>
    requires down { IsDown (B.state bench.old) }
    requires off { runner.old.machine.start ≡ None }
    requires counts { All HasCounts script.now }
    ensures runs { (m : RunState) → (H.state host.old).tells ≡ true → Counts m runner.old → EachCrash (B.state bench.old) (MayLoad m.disk)
        → RunsOr (run_from (choices ini.now system.now) (map event_in script.now) m) (told_in (H.state host.old) runner.old)
        (told_in (H.state host.new) runner.new) (B.state bench.old) (B.state bench.new) result }
    ensures host { LeavesHost result (H.state host.old) (H.state host.new) }
{
    let mut hive = None;
    let mut waiting = script;
    'events: loop {
        let [event, more @ ..] = waiting else {
            return close(alloc, runner, host);
        };
        match turn(alloc, ini, system, event, hive, runner, host, bench) {
            Ok(after) => hive = after,
            Err(stop) => return Err(stop),
        }
        waiting = more;
    }
}

/// Plays a script on a disk that is off, whatever it wakes up with. Each line is printed at once in this form, after the step that it reports.
/// The disk is off afterwards, whatever the answer. Cells that were judged before may come along: the first load takes them where they are
/// those of the disk.
///
/// # Errors
///
/// `Write` if a line can't be said, and `Memory` if there is no memory: what was printed is a prefix of the report then.
pub fn run<H: Host, B: Bench>(
    alloc: Global,
    script: &[Event],
    ini: &BootIni,
    system: &Arc,
    form: ReportForm,
    host: &mut H,
    bench: &mut B,
    judged: Option<HiveBytes>,
) -> Result<Summary, RunStop>
    requires down { IsDown (B.state bench.old) }
    requires counts { All HasCounts script.now }
    ensures off { (B.state bench.new).on ≡ false }
    // What was printed is the report of the book's run on what the disk woke up with, or at a refusal a prefix of it; and what was
    // done to the disk are the run's notes, or a prefix of them.
    ensures report { (placed : Woken) → (H.state host.old).tells ≡ true
        → EachCrash (B.state bench.old) (λ (c : Image). Loads c placed.state placed.dirty)
        → ReportsOr (run_of (choices ini.now system.now) (map event_in script.now) placed) (untold form (H.state host.old))
        (answered form (H.state host.new) result) (B.state bench.old) (B.state bench.new) result }
    ensures host { LeavesHost result (H.state host.old) (H.state host.new) }
{
    let mut runner = Runner {
        machine: Machine::new(alloc),
        starts: 0,
        summary: Summary::new(form),
        judged,
    };
    let played = events(alloc, script, ini, system, &mut runner, host, bench);
    bench.power_off();
    match played {
        Ok(()) => Ok(runner.summary),
        Err(stop) => Err(stop),
    }
}
