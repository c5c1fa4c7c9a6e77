//! A commit of the session, and the line that reports it.

ghost use Rattle.std.specs.Prelude.{◌≡◌, true, IfOk};
ghost use Rattle.start_model.specs.Act.{RunState, Act};
ghost use Rattle.start_model.specs.Commit as book;
ghost use Rattle.run_parts.specs.run_parts.Parts.{Stays};
ghost use Rattle.boot_run.specs.Agrees.{IsUp, IsStored, Counts, LeavesUp, CommitLeft};
ghost use Rattle.boot_run.specs.Hosts.{LeavesHost};
ghost use Rattle.boot_run.specs.Views.{moment, RunsTo};

use crate::ending::end_with;
use crate::live::Live;
use crate::runner::Runner;
use crate::saying::say;
use crate::stop::RunStop;
use hive_store::{CommitStop, Hive};
use nt_edge::{Bench, Host};
use report_text::boot_report::{CommitWord, Line, Verdict};
use std::alloc::Global;

/// Commits the session's tree, and says so. A stop ends the start, and nothing is left of the session.
pub(crate) fn commit<H: Host, B: Bench>(
    alloc: Global,
    what: CommitWord,
    hive: Hive,
    runner: &mut Runner,
    host: &mut H,
    bench: &mut B,
) -> Result<Option<Hive>, RunStop>
    requires up { IsUp hive (B.state bench.old) }
    ensures sound { IfOk result (LeavesUp hive runner.old runner.new (B.state bench.new)) }
    ensures plays { (m : RunState) (next : RunState → Act) → (H.state host.old).tells ≡ true → Counts m runner.old → IsStored m hive (B.state bench.old)
        → Stays next
        → RunsTo (book.commit what hive.tree m next) (moment (H.state host.old) runner.old (B.state bench.old))
        (moment (H.state host.new) runner.new (B.state bench.new)) result (CommitLeft m hive.tree next runner.new (B.state bench.new)) }
    ensures host { LeavesHost result (H.state host.old) (H.state host.new) }
{
    match hive.commit(bench) {
        Ok((hive, sequence)) => {
            say(
                alloc,
                host,
                &mut runner.summary,
                Line::Commit { what, sequence },
            )?;
            Ok(Some(hive))
        }
        Err(CommitStop::PowerLost) => {
            end_with(alloc, Verdict::Cut, runner, host, bench)?;
            Ok(None)
        }
        Err(CommitStop::Device) => {
            end_with(alloc, Verdict::Device, runner, host, bench)?;
            Ok(None)
        }
        Err(CommitStop::Memory) => Err(RunStop::Memory),
    }
}

/// Commits the tree of a start that runs, as `commit` does. What is kept of it stays.
pub(crate) fn commit_live<H: Host, B: Bench>(
    alloc: Global,
    what: CommitWord,
    live: Live,
    runner: &mut Runner,
    host: &mut H,
    bench: &mut B,
) -> Result<Option<Live>, RunStop>
    requires up { IsUp live (B.state bench.old) }
    ensures sound { IfOk result (LeavesUp live runner.old runner.new (B.state bench.new)) }
    ensures plays { (m : RunState) (next : RunState → Act) → (H.state host.old).tells ≡ true → Counts m runner.old → IsStored m live (B.state bench.old)
        → Stays next
        → RunsTo (book.commit what live.tree m next) (moment (H.state host.old) runner.old (B.state bench.old))
        (moment (H.state host.new) runner.new (B.state bench.new)) result (CommitLeft m live.tree next runner.new (B.state bench.new)) }
    ensures host { LeavesHost result (H.state host.old) (H.state host.new) }
{
    let Live {
        hive,
        lists,
        usable,
    } = live;
    let left = commit(alloc, what, hive, runner, host, bench)?;
    match left {
        Some(hive) => Ok(Some(Live {
            hive,
            lists,
            usable,
        })),
        None => Ok(None),
    }
}
