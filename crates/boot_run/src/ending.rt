//! A start ends.

ghost use Rattle.std.specs.Prelude.{◌≡◌, true, false, IfOk};
ghost use Rattle.nt_edge.specs.Crash.{EachCrash};
ghost use Rattle.start_model.specs.Fits.{MayLoad};
ghost use Rattle.start_model.specs.Act.{RunState};
ghost use Rattle.start_model.specs.Act as book;
ghost use Rattle.report_words.specs.declared.line.Line.TheVariants.{Verdict as VerdictLine};
ghost use Rattle.start_model.specs.Machine.{ended};
ghost use Rattle.boot_machine.specs.boot_machine.Steps.{falls_back};
ghost use Rattle.nt_edge.specs.Bench.{turned_off};
ghost use Rattle.run_parts.specs.printed_parts.Parts.{TellsOr};
ghost use Rattle.boot_run.specs.Hosts.{LeavesHost};
ghost use Rattle.boot_run.specs.Agrees.{LoadsAny, IsSound, Counts, IsEnding, TurnLeft};
ghost use Rattle.boot_run.specs.Views.{told_in, moment, RunsTo};

use crate::live::Live;
use crate::runner::Runner;
use crate::saying::say;
use crate::stop::RunStop;
use nt_edge::{Bench, Host};
use report_text::boot_report::{Line, Verdict};
use std::alloc::Global;

/// The disk is turned off, the start is over, and its verdict is printed.
pub(crate) fn end_with<H: Host, B: Bench>(
    alloc: Global,
    word: Verdict,
    runner: &mut Runner,
    host: &mut H,
    bench: &mut B,
) -> Result<(), RunStop>
    ensures tells { (H.state host.old).tells ≡ true
        → TellsOr (VerdictLine word) (told_in (H.state host.old) runner.old) (told_in (H.state host.new) runner.new) result }
    ensures machine { runner.new.machine ≡ ended (falls_back word) runner.old.machine }
    ensures starts { runner.new.starts ≡ runner.old.starts }
    ensures off { B.state bench.new ≡ turned_off (B.state bench.old) }
    ensures host { LeavesHost result (H.state host.old) (H.state host.new) }
{
    bench.power_off();
    runner.machine.end(word);
    say(alloc, host, &mut runner.summary, Line::Verdict { word })
}

/// The start ends with this verdict, and no session is left.
pub(crate) fn end_start<H: Host, B: Bench>(
    alloc: Global,
    word: Verdict,
    runner: &mut Runner,
    host: &mut H,
    bench: &mut B,
) -> Result<Option<Live>, RunStop>
    requires left { EachCrash (B.state bench.old) LoadsAny }
    ensures sound { IfOk result (IsSound runner.new (B.state bench.new)) }
    ensures plays { (m : RunState) → (H.state host.old).tells ≡ true → Counts m runner.old → EachCrash (B.state bench.old) (MayLoad m.disk)
        → IsEnding word
        → RunsTo (book.end_with word false m) (moment (H.state host.old) runner.old (B.state bench.old))
        (moment (H.state host.new) runner.new (B.state bench.new)) result (TurnLeft runner.new (B.state bench.new)) }
    ensures host { LeavesHost result (H.state host.old) (H.state host.new) }
{
    match end_with(alloc, word, runner, host, bench) {
        Ok(()) => Ok(None),
        Err(stop) => Err(stop),
    }
}
