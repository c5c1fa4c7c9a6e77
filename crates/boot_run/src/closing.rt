//! What leaves the live tree on the disk: a flush, and a switch off.

ghost use Rattle.std.specs.Prelude.{◌≡◌, true, false, None, Some, OnOk};
ghost use Rattle.std.specs.Option.{option_map_or};
ghost use Rattle.hive_model.specs.Tree.{Tree};
ghost use Rattle.start_model.specs.Act.{RunState, Act, done};
ghost use Rattle.start_model.specs.EventActs.{flush_act, off_act};
ghost use Rattle.start_model.specs.Act as book;
ghost use Rattle.boot_run.specs.Agrees.{IsSound, CommitLeft, IsEnding, OffLeft};
ghost use Rattle.boot_run.specs.Hosts.{LeavesHost};
ghost use Rattle.boot_run.specs.Turns.{Turns, Ends, stage};
ghost use Rattle.boot_run.specs.Views.{moment, RunsTo};

use crate::committing::commit_live;
use crate::ending::end_with;
use crate::live::Live;
use crate::runner::Runner;
use crate::saying::say;
use crate::stop::RunStop;
use nt_edge::{Bench, Host};
use report_text::boot_report::{CommitWord, Line, Verdict};
use std::alloc::Global;

/// Commits the session's tree, where it was changed.
pub(crate) fn flush<H: Host, B: Bench>(
    alloc: Global,
    hive: Live,
    runner: &mut Runner,
    host: &mut H,
    bench: &mut B,
) -> Result<Option<Live>, RunStop>
    requires sound { IsSound runner.old (B.state bench.old) (Some hive) }
    ensures { Turns flush_act (Some hive) (stage (H.state host.old) runner.old (B.state bench.old))
        (stage (H.state host.new) runner.new (B.state bench.new)) result }
{
    if hive.changed() {
        return commit_live(alloc, CommitWord::Flush, hive, runner, host, bench);
    }
    say(alloc, host, &mut runner.summary, Line::FlushNothing)?;
    Ok(Some(hive))
}

/// After a commit that was done the start ends; after one that was stopped it is over.
fn end_behind<H: Host, B: Bench>(
    alloc: Global,
    word: Verdict,
    left: Option<Live>,
    runner: &mut Runner,
    host: &mut H,
    bench: &mut B,
) -> Result<(), RunStop>
    requires sound { IsSound runner.old (B.state bench.old) left }
    ensures sound { OnOk result (IsSound runner.new (B.state bench.new) None) }
    ensures plays { (m : RunState) (tree : Tree) (rest : Act) → (H.state host.old).tells ≡ true → IsEnding word
        → CommitLeft m tree (book.end_with word false) runner.old (B.state bench.old) left rest
        → RunsTo rest (moment (H.state host.old) runner.old (B.state bench.old)) (moment (H.state host.new) runner.new (B.state bench.new))
        result (OffLeft runner.new (B.state bench.new)) }
    ensures host { LeavesHost result (H.state host.old) (H.state host.new) }
{
    match left {
        Some(hive) => {
            runner.judged = Some(hive.into_cells());
            end_with(alloc, word, runner, host, bench)
        }
        None => Ok(()),
    }
}

/// Commits the session's tree where it was changed, and ends the start.
pub(crate) fn off<H: Host, B: Bench>(
    alloc: Global,
    hive: Live,
    runner: &mut Runner,
    host: &mut H,
    bench: &mut B,
) -> Result<(), RunStop>
    requires sound { IsSound runner.old (B.state bench.old) (Some hive) }
    ensures { Ends (λ m. option_map_or (λ s. off_act s m) m.machine.start (done m)) (Some hive) (stage (H.state host.old) runner.old (B.state bench.old))
        (stage (H.state host.new) runner.new (B.state bench.new)) result }
{
    let word = runner.machine.ending();
    if !hive.changed() {
        runner.judged = Some(hive.into_cells());
        return end_with(alloc, word, runner, host, bench);
    }
    let left = commit_live(alloc, CommitWord::Off, hive, runner, host, bench)?;
    end_behind(alloc, word, left, runner, host, bench)
}
