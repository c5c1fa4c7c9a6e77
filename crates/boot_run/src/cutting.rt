//! Cuts of the power, and orders for stops.

ghost use Rattle.std.specs.Prelude.{◌≡◌, ◌≤◌, OnOk};
ghost use Rattle.hive_model.specs.Image.{ArmedCut, ArmedFault};
ghost use Rattle.nt_edge.specs.Bench.{armed};
ghost use Rattle.nt_edge.specs.Book.{call_of, keep_of};
ghost use Rattle.nt_edge.specs.Crash.{EachCrash};
ghost use Rattle.start_model.specs.Fits.{MayLoad};
ghost use Rattle.start_model.specs.Act.{RunState, done};
ghost use Rattle.start_model.specs.EventActs.{cut_act, arm_act};
ghost use Rattle.run_parts.specs.printed_parts.Parts.{Told, PlaysOr};
ghost use Rattle.boot_run.specs.Agrees.{IsUp};
ghost use Rattle.boot_run.specs.Turns.{Ends, stage};

use crate::ending::end_with;
use crate::live::Live;
use crate::runner::Runner;
use crate::stop::RunStop;
use nt_edge::{Bench, DiskCall, Host, Keep};
use report_text::boot_report::Verdict;
use std::alloc::Global;

/// Cuts the power, which ends the start.
pub(crate) fn cut<H: Host, B: Bench>(
    alloc: Global,
    keep: Keep,
    hive: Live,
    runner: &mut Runner,
    host: &mut H,
    bench: &mut B,
) -> Result<(), RunStop>
    requires up { IsUp hive (B.state bench.old) }
    ensures { Ends cut_act (Some hive) (stage (H.state host.old) runner.old (B.state bench.old))
        (stage (H.state host.new) runner.new (B.state bench.new)) result }
{
    bench.cut(keep);
    runner.judged = Some(hive.into_cells());
    end_with(alloc, Verdict::Cut, runner, host, bench)
}

/// Orders a cut in the n-th call from now on.
pub(crate) fn arm_cut<B: Bench>(
    call: DiskCall,
    n: u32,
    keep: Keep,
    bench: &mut B,
) -> Result<(), RunStop>
    requires { 1 ≤ n }
    ensures plays { (m : RunState) (told : Told) → EachCrash (B.state bench.old) (MayLoad m.disk)
        → PlaysOr (arm_act (ArmedCut (call_of call) n (keep_of keep)) m) told told (B.state bench.old) (B.state bench.new) result (λ u a. a ≡ done m) }
    ensures armed { OnOk result (B.state bench.new ≡ armed (ArmedCut (call_of call) n (keep_of keep)) (B.state bench.old)) }
{
    match bench.arm_cut(call, n, keep) {
        Ok(()) => Ok(()),
        Err(_) => Err(RunStop::Memory),
    }
}

/// Orders a fault in the n-th call from now on.
pub(crate) fn arm_fault<B: Bench>(call: DiskCall, n: u32, bench: &mut B) -> Result<(), RunStop>
    requires { 1 ≤ n }
    ensures plays { (m : RunState) (told : Told) → EachCrash (B.state bench.old) (MayLoad m.disk)
        → PlaysOr (arm_act (ArmedFault (call_of call) n) m) told told (B.state bench.old) (B.state bench.new) result (λ u a. a ≡ done m) }
    ensures armed { OnOk result (B.state bench.new ≡ armed (ArmedFault (call_of call) n) (B.state bench.old)) }
{
    match bench.arm_fault(call, n) {
        Ok(()) => Ok(()),
        Err(_) => Err(RunStop::Memory),
    }
}
