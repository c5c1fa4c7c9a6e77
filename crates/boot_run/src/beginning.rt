//! The beginning of a start: which set is taken, and what its beginning changes.

ghost use Rattle.std.specs.Prelude.{◌≡◌, [], true, Option, None, Some, Ok, IfOk, IfSome, OnOk};
ghost use Rattle.std.specs.Option.{unwrap_or};
ghost use Rattle.std.specs.List.{All};
ghost use Rattle.hive_model.specs.Tree.{Tree};
ghost use Rattle.hive_model.specs.Valid.{HoldsKeys};
ghost use Rattle.hive_store.specs.Session.{Session};
ghost use Rattle.nt_edge.specs.Disk.{DiskState};
ghost use Rattle.reg_tree.specs.Fitting.{Fits};
ghost use Rattle.start_model.specs.Sets.{SetPlan as Plan, select_numbers_of, usable_numbers_of, set_of, begin_plan_of, stepped};
ghost use Rattle.report_words.specs.declared.words.CommitWord.TheVariants as commits;
ghost use Rattle.start_model.specs.Machine.{with_start, begun_with};
ghost use Rattle.start_model.specs.Act.{RunState, Act};
ghost use Rattle.start_model.specs.Starter.{no_set};
ghost use Rattle.start_model.specs.Commit as commit_book;
ghost use Rattle.start_model.specs.Boot as boot_book;
ghost use Rattle.boot_run.specs.Agrees.{IsUp, IsLive, IsStored, IsSound, Counts, CommitLeft, TurnLeft};
ghost use Rattle.boot_run.specs.Hosts.{LeavesHost};
ghost use Rattle.boot_run.specs.Turns.{Turns, stage};
ghost use Rattle.boot_run.specs.Begins.{Planned, begin_planned, SetLeft, IsTaken, IsUpOrDown};
ghost use Rattle.boot_run.specs.Kept.{current_set, AreRead};
ghost use Rattle.boot_run.specs.Views.{moment, moment_by, RunsTo};

use crate::committing::commit;
use crate::ending::end_start;
use crate::live::Live;
use crate::runner::Runner;
use crate::saying::say;
use crate::sets::{live_numbers, live_set, live_sets};
use crate::stop::RunStop;
use crate::summary::Summary;
use crate::words::{edit_word, select_line};
use boot_machine::boot_machine::{Machine, SetLists};
use hive_store::Hive;
use nt_edge::{Bench, Host};
use report_text::boot_report::{CommitWord, Line, PhaseWord, Verdict};
use select_keys::{SelectNumbers, SelectStop, SetPlan, plan_begin};
use std::alloc::{AllocError, Global};

// ---- a set that stays as it is

/// Begins a start on the set of this number, in its boot phase. Answers the lists of the set.
fn begin_on(
    alloc: Global,
    number: u32,
    on_good: bool,
    hive: &Hive,
    machine: &mut Machine,
) -> Result<SetLists, AllocError>
    requires off { machine.old.start ≡ None }
    requires taken { IsTaken hive.now.tree number }
    ensures begun { OnOk result (machine.new ≡ with_start (begun_with (unwrap_or (set_of hive.now.tree number) no_set) number on_good) machine.old) }
    ensures held { OnOk result (HoldsKeys (unwrap_or (set_of hive.now.tree number) no_set)) }
    ensures lists { IfOk result (AreRead (current_set hive.now.tree)) }
{
    let set = live_set(alloc, hive, number)?;
    let lists = SetLists::read(alloc, &set)?;
    machine.begin_with(alloc, set, number, on_good)?;
    Ok(lists)
}

/// Begins the boot phase on the set of this number.
fn begin_start<H: Host>(
    alloc: Global,
    number: u32,
    on_good: bool,
    numbers: SelectNumbers,
    hive: Hive,
    runner: &mut Runner,
    host: &mut H,
) -> Result<Option<Live>, RunStop>
    requires off { runner.old.machine.start ≡ None }
    requires taken { IsTaken hive.tree number }
    ensures sound { (d : DiskState) → IsUp hive d → IfOk result (IsSound runner.new d) }
    ensures plays { (m : RunState) (d : DiskState) → (H.state host.old).tells ≡ true → IsUp hive d → Counts m runner.old → IsLive m hive d
        → RunsTo (boot_book.begin_start number on_good numbers m) (moment (H.state host.old) runner.old d) (moment (H.state host.new) runner.new d)
        result (TurnLeft runner.new d) }
    ensures host { LeavesHost result (H.state host.old) (H.state host.new) }
{
    let Ok(lists) = begin_on(alloc, number, on_good, &hive, &mut runner.machine) else {
        return Err(RunStop::Memory);
    };
    say(alloc, host, &mut runner.summary, select_line(numbers))?;
    let word = PhaseWord::Boot;
    say(alloc, host, &mut runner.summary, Line::Phase { word })?;
    Ok(Some(Live {
        hive,
        lists: Some(lists),
        usable: None,
    }))
}

/// After the commit of a beginning the start begins; after one that was stopped it is over.
fn begin_behind<H: Host>(
    alloc: Global,
    number: u32,
    on_good: bool,
    numbers: SelectNumbers,
    left: Option<Hive>,
    runner: &mut Runner,
    host: &mut H,
) -> Result<Option<Live>, RunStop>
    requires off { runner.old.machine.start ≡ None }
    requires taken { IfSome left (λ (hive : Session). IsTaken hive.tree number) }
    ensures sound { (d : DiskState) → IsUpOrDown d left → IfOk result (IsSound runner.new d) }
    ensures plays { (m : RunState) (tree : Tree) (d : DiskState) (rest : Act) → (H.state host.old).tells ≡ true → IsUpOrDown d left
        → CommitLeft m tree (boot_book.begin_start number on_good numbers) runner.old d left rest
        → RunsTo rest (moment (H.state host.old) runner.old d) (moment (H.state host.new) runner.new d)
        result (TurnLeft runner.new d) }
    ensures host { LeavesHost result (H.state host.old) (H.state host.new) }
{
    match left {
        Some(hive) => begin_start(alloc, number, on_good, numbers, hive, runner, host),
        None => Ok(None),
    }
}

// ---- a set with a plan

/// The planned tree is committed, and the start begins.
fn begin_committed<H: Host, B: Bench>(
    alloc: Global,
    number: u32,
    on_good: bool,
    numbers: SelectNumbers,
    hive: Hive,
    runner: &mut Runner,
    host: &mut H,
    bench: &mut B,
) -> Result<Option<Live>, RunStop>
    requires up { IsUp hive (B.state bench.old) }
    requires off { runner.old.machine.start ≡ None }
    requires taken { IsTaken hive.tree number }
    ensures sound { IfOk result (IsSound runner.new (B.state bench.new)) }
    ensures plays { (m : RunState) → (H.state host.old).tells ≡ true → Counts m runner.old → IsStored m hive (B.state bench.old)
        → RunsTo (commit_book.commit commits.Begin hive.tree m (boot_book.begin_start number on_good numbers))
        (moment (H.state host.old) runner.old (B.state bench.old))
        (moment (H.state host.new) runner.new (B.state bench.new)) result (TurnLeft runner.new (B.state bench.new)) }
    ensures host { LeavesHost result (H.state host.old) (H.state host.new) }
{
    let left = commit(alloc, CommitWord::Begin, hive, runner, host, bench)?;
    begin_behind(alloc, number, on_good, numbers, left, runner, host)
}

/// Makes the steps, commits the tree, and begins the start; or the start ends as full.
fn begin_stepped<H: Host, B: Bench>(
    alloc: Global,
    plan: SetPlan,
    on_good: bool,
    hive: Hive,
    runner: &mut Runner,
    host: &mut H,
    bench: &mut B,
) -> Result<Option<Live>, RunStop>
    requires up { IsUp hive (B.state bench.old) }
    requires off { runner.old.machine.start ≡ None }
    requires fits { All Fits plan.steps }
    requires some { (plan.steps ≡ []) → ⊥ }
    requires plan { begin_plan_of (select_numbers_of hive.tree) (usable_numbers_of hive.tree) on_good ≡ Ok plan }
    ensures { Turns (λ m. begin_planned on_good m plan (stepped m.version m.live plan.steps)) (Some hive)
        (stage (H.state host.old) runner.old (B.state bench.old)) (stage (H.state host.new) runner.new (B.state bench.new)) result }
{
    let (number, numbers) = (plan.chosen, plan.numbers);
    let mut hive = hive;
    match hive.apply(alloc, plan.steps) {
        Ok(()) => begin_committed(alloc, number, on_good, numbers, hive, runner, host, bench),
        Err(stop) => match edit_word(stop) {
            None => Err(RunStop::Memory),
            Some(_) => {
                runner.judged = Some(hive.into_cells());
                end_start(alloc, Verdict::Full, runner, host, bench)
            }
        },
    }
}

/// The start begins on the set of the plan: where that has steps, they are made and committed first.
fn begin_by<H: Host, B: Bench>(
    alloc: Global,
    plan: SetPlan,
    on_good: bool,
    hive: Hive,
    runner: &mut Runner,
    host: &mut H,
    bench: &mut B,
) -> Result<Option<Live>, RunStop>
    requires up { IsUp hive (B.state bench.old) }
    requires off { runner.old.machine.start ≡ None }
    requires fits { All Fits plan.steps }
    requires plan { begin_plan_of (select_numbers_of hive.tree) (usable_numbers_of hive.tree) on_good ≡ Ok plan }
    ensures { Turns (λ m. begin_planned on_good m plan (stepped m.version m.live plan.steps)) (Some hive)
        (stage (H.state host.old) runner.old (B.state bench.old)) (stage (H.state host.new) runner.new (B.state bench.new)) result }
{
    if !plan.steps.is_empty() {
        return begin_stepped(alloc, plan, on_good, hive, runner, host, bench);
    }
    begin_start(
        alloc,
        plan.chosen,
        on_good,
        plan.numbers,
        hive,
        runner,
        host,
    )
}

// ---- which set is taken

/// The plan of a beginning on LastKnownGood or on Default, by the live tree.
fn planned(
    alloc: Global,
    numbers: SelectNumbers,
    on_good: bool,
    hive: &Hive,
) -> Result<SetPlan, SelectStop>
    requires numbers { numbers ≡ select_numbers_of hive.now.tree }
    ensures plans { Planned result (begin_plan_of (select_numbers_of hive.now.tree) (usable_numbers_of hive.now.tree) on_good) }
    ensures fits { IfOk result (λ (plan : Plan). All Fits plan.steps) }
{
    let Ok(taken) = live_sets(alloc, hive) else {
        return Err(SelectStop::Memory);
    };
    plan_begin(alloc, numbers, &taken, on_good)
}

/// Says which set the start takes, where the number names one, and answers the plan of its beginning, or the verdict with which
/// the start ends.
fn say_set<H: Host>(
    alloc: Global,
    on_good: bool,
    hive: &Hive,
    summary: &mut Summary,
    host: &mut H,
) -> Result<Result<SetPlan, Verdict>, RunStop>
    ensures plays { (m : RunState) (d : DiskState) → (H.state host.old).tells ≡ true → IsUp hive.now d → IsLive m hive.now d
        → RunsTo (boot_book.take_set on_good m) (moment_by (H.state host.old) summary.old d) (moment_by (H.state host.new) summary.new d)
        result (SetLeft (λ n plan. begin_planned on_good n plan (stepped n.version n.live plan.steps)) m) }
    ensures plan { IfOk result (λ found. IfOk found (λ plan.
        begin_plan_of (select_numbers_of hive.now.tree) (usable_numbers_of hive.now.tree) on_good ≡ Ok plan)) }
    ensures fits { IfOk result (λ found. IfOk found (λ (plan : Plan). All Fits plan.steps)) }
    ensures host { LeavesHost result (H.state host.old) (H.state host.new) }
{
    let Ok(numbers) = live_numbers(alloc, hive) else {
        return Err(RunStop::Memory);
    };
    let line = Line::Set {
        number: numbers.taken(on_good),
        last_known_good: on_good,
    };
    match planned(alloc, numbers, on_good, hive) {
        Ok(plan) => match say(alloc, host, summary, line) {
            Ok(()) => Ok(Ok(plan)),
            Err(stop) => Err(stop),
        },
        Err(SelectStop::NoFreeNumber) => match say(alloc, host, summary, line) {
            Ok(()) => Ok(Err(Verdict::NoNumber)),
            Err(stop) => Err(stop),
        },
        Err(SelectStop::NoControlSet) => Ok(Err(Verdict::NoControlSet)),
        Err(SelectStop::NoLastKnownGood) => Ok(Err(Verdict::NoLastKnownGood)),
        Err(SelectStop::Memory) => Err(RunStop::Memory),
    }
}

/// LastKnownGood or Default is taken, guard and retirement are done, and the start begins; or it ends.
pub(crate) fn take_set<H: Host, B: Bench>(
    alloc: Global,
    on_good: bool,
    hive: Hive,
    runner: &mut Runner,
    host: &mut H,
    bench: &mut B,
) -> Result<Option<Live>, RunStop>
    requires up { IsUp hive (B.state bench.old) }
    requires off { runner.old.machine.start ≡ None }
    ensures { Turns (boot_book.take_set on_good) (Some hive) (stage (H.state host.old) runner.old (B.state bench.old))
        (stage (H.state host.new) runner.new (B.state bench.new)) result }
{
    let found = say_set(alloc, on_good, &hive, &mut runner.summary, host)?;
    match found {
        Ok(plan) => begin_by(alloc, plan, on_good, hive, runner, host, bench),
        Err(word) => {
            runner.judged = Some(hive.into_cells());
            end_start(alloc, word, runner, host, bench)
        }
    }
}
