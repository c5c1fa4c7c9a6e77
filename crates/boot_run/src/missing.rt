//! A boot phase that ends without vital names.

ghost use Rattle.std.specs.Prelude.{◌≡◌, true, false, None, map};
ghost use Rattle.nt_edge.specs.Crash.{EachCrash};
ghost use Rattle.start_model.specs.Act.{say_all};
ghost use Rattle.start_model.specs.Act as book;
ghost use Rattle.report_words.specs.declared.words.Verdict.TheVariants as verdicts;
ghost use Rattle.report_words.specs.declared.line.Line.TheVariants.{Vital as VitalLine};
ghost use Rattle.boot_run.specs.Agrees.{LoadsAny};
ghost use Rattle.boot_run.specs.Hosts.{LeavesHost};
ghost use Rattle.boot_run.specs.Turns.{Ends, stage};
ghost use Rattle.boot_run.specs.Starts.{stop_lines};
ghost use Rattle.boot_run.specs.Views.{told_by, SaysAll};

use crate::ending::end_with;
use crate::runner::Runner;
use crate::saying::say;
use crate::stop::RunStop;
use crate::summary::Summary;
use crate::unmet::say_unmet;
use nt_bytes::Units;
use nt_edge::{Bench, Host};
use report_text::boot_report::{Line, Verdict};
use std::alloc::Global;

/// Says which vital names are missing, in their order.
fn say_missing<H: Host>(
    alloc: Global,
    names: &[Units],
    summary: &mut Summary,
    host: &mut H,
) -> Result<(), RunStop>
    ensures tells { (H.state host.old).tells ≡ true
        → SaysAll (map VitalLine names.now) (told_by (H.state host.old) summary.old) (told_by (H.state host.new) summary.new) result }
    ensures host { LeavesHost result (H.state host.old) (H.state host.new) }
{
    let mut waiting = names;
    'names: loop {
        let [name, more @ ..] = waiting else {
            return Ok(());
        };
        let Ok(name) = name.copy(alloc) else {
            return Err(RunStop::Memory);
        };
        say(alloc, host, summary, Line::Vital { name })?;
        waiting = more;
    }
}

/// Says which entries are unmet, and then which vital names are missing.
fn say_both<H: Host>(
    alloc: Global,
    unmet: &[Units],
    missing: &[Units],
    summary: &mut Summary,
    host: &mut H,
) -> Result<(), RunStop>
    ensures tells { (H.state host.old).tells ≡ true → SaysAll (stop_lines unmet.now missing.now)
        (told_by (H.state host.old) summary.old) (told_by (H.state host.new) summary.new) result }
    ensures host { LeavesHost result (H.state host.old) (H.state host.new) }
{
    say_unmet(alloc, unmet, summary, host)?;
    say_missing(alloc, missing, summary, host)
}

/// The start stops: what waits is unmet, and the vital names that are missing are printed.
pub(crate) fn stop_without<H: Host, B: Bench>(
    alloc: Global,
    unmet: &[Units],
    missing: &[Units],
    runner: &mut Runner,
    host: &mut H,
    bench: &mut B,
) -> Result<(), RunStop>
    requires left { EachCrash (B.state bench.old) LoadsAny }
    ensures { Ends (λ m. say_all (stop_lines unmet.now missing.now) (book.end_with verdicts.Stopped false m)) None
        (stage (H.state host.old) runner.old (B.state bench.old)) (stage (H.state host.new) runner.new (B.state bench.new)) result }
{
    say_both(alloc, unmet, missing, &mut runner.summary, host)?;
    end_with(alloc, Verdict::Stopped, runner, host, bench)
}
