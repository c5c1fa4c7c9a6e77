//! A load of a session, and the line that reports it.

ghost use Rattle.std.specs.Prelude.{◌≡◌, true, IfOk};
ghost use Rattle.nt_edge.specs.Crash.{EachCrash};
ghost use Rattle.start_model.specs.Fits.{MayLoad};
ghost use Rattle.start_model.specs.Act.{RunState, Act};
ghost use Rattle.run_parts.specs.run_parts.Parts.{Stays};
ghost use Rattle.boot_run.specs.Agrees.{Counts, IsDown, LoadsUp, LoadLeft};
ghost use Rattle.boot_run.specs.Acts.{load};
ghost use Rattle.boot_run.specs.Hosts.{LeavesHost};
ghost use Rattle.boot_run.specs.Views.{moment, RunsTo};

use crate::ending::end_with;
use crate::runner::Runner;
use crate::saying::say;
use crate::stop::RunStop;
use hive_store::{Hive, LoadStop};
use nt_edge::{Bench, Host};
use report_text::boot_report::{Line, Verdict};
use std::alloc::Global;

/// Turns the disk on, loads the session, and says so. A stop ends the start, and no session is left.
pub(crate) fn load<H: Host, B: Bench>(
    alloc: Global,
    runner: &mut Runner,
    host: &mut H,
    bench: &mut B,
) -> Result<Option<Hive>, RunStop>
    requires down { IsDown (B.state bench.old) }
    ensures sound { IfOk result (LoadsUp runner.old runner.new (B.state bench.new)) }
    ensures plays { (m : RunState) (next : RunState → Act) → (H.state host.old).tells ≡ true → Counts m runner.old
        → EachCrash (B.state bench.old) (MayLoad m.disk) → Stays next
        → RunsTo (load m next) (moment (H.state host.old) runner.old (B.state bench.old))
        (moment (H.state host.new) runner.new (B.state bench.new)) result (LoadLeft m next runner.new (B.state bench.new)) }
    ensures host { LeavesHost result (H.state host.old) (H.state host.new) }
{
    let Ok(()) = bench.power_on() else {
        return Err(RunStop::Memory);
    };
    let judged = runner.judged.take();
    match Hive::load_judged(alloc, bench, judged) {
        Ok((hive, recovered)) => {
            let sequence = hive.sequence();
            let line = Line::Load {
                sequence,
                recovered,
            };
            say(alloc, host, &mut runner.summary, line)?;
            Ok(Some(hive))
        }
        Err(LoadStop::Fault(_)) => unreachable!(),
        Err(LoadStop::PowerLost) => {
            end_with(alloc, Verdict::Cut, runner, host, bench)?;
            Ok(None)
        }
        Err(LoadStop::Device) => {
            end_with(alloc, Verdict::Device, runner, host, bench)?;
            Ok(None)
        }
        Err(LoadStop::Memory) => Err(RunStop::Memory),
    }
}
