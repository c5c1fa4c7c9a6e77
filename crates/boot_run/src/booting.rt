//! The boot event, up to the first phase of the start.

ghost use Rattle.std.specs.Prelude.{◌≡◌, ◌||◌, true, None, IsSome};
ghost use Rattle.boot_ini.specs.boot_ini.Choice.{entry_at, path_at, IsThere};
ghost use Rattle.report_words.specs.declared.line.Line.TheVariants.{Entry as EntryLine};
ghost use Rattle.start_model.specs.Boot.{boot_act};
ghost use Rattle.start_model.specs.Act as acts;
ghost use Rattle.start_model.specs.Boot as boot_book;
ghost use Rattle.run_parts.specs.printed_parts.Parts.{TellsOr};
ghost use Rattle.boot_run.specs.Agrees.{IsDown};
ghost use Rattle.boot_run.specs.Choices.{is_on_good, choice_in, choices};
ghost use Rattle.boot_run.specs.Hosts.{LeavesHost};
ghost use Rattle.boot_run.specs.Turns.{Turns, stage};
ghost use Rattle.boot_run.specs.Views.{told_by};

use crate::beginning::take_set;
use crate::ending::end_start;
use crate::live::Live;
use crate::loading::load;
use crate::runner::Runner;
use crate::saying::say;
use crate::stop::RunStop;
use crate::summary::Summary;
use boot_ini::arc_path::Arc;
use boot_ini::boot_ini::{BootIni, Chosen, choose, wants_last_known_good};
use nt_bytes::Bytes;
use nt_edge::{Bench, Host};
use report_text::boot_report::{Line, Verdict};
use std::alloc::Global;

/// Says the entry of a number, which must be there, with its path.
fn say_entry<H: Host>(
    alloc: Global,
    ini: &BootIni,
    number: u32,
    summary: &mut Summary,
    host: &mut H,
) -> Result<(), RunStop>
    requires there { IsSome (entry_at ini.now.entries number) }
    ensures tells { (H.state host.old).tells ≡ true
        → TellsOr (EntryLine number (path_at ini.now number)) (told_by (H.state host.old) summary.old) (told_by (H.state host.new) summary.new) result }
    ensures host { LeavesHost result (H.state host.old) (H.state host.new) }
{
    let Some(entry) = ini.entry(number) else {
        unreachable!()
    };
    let Ok(path) = Bytes::from_slice(alloc, entry.path.as_slice()) else {
        return Err(RunStop::Memory);
    };
    say(alloc, host, summary, Line::Entry { number, path })
}

/// Whether the entry of a number is on LastKnownGood.
fn is_on_good(ini: &BootIni, number: u32) -> bool
    ensures { result ≡ is_on_good ini.now number }
{
    match ini.entry(number) {
        Some(entry) => wants_last_known_good(entry),
        None => false,
    }
}

/// Whether a start is on LastKnownGood, for either reason.
fn either(one: bool, other: bool) -> bool
    ensures { result ≡ (one || other) }
{
    one || other
}

/// Loads the session, and takes a set.
fn load_and_take<H: Host, B: Bench>(
    alloc: Global,
    on_good: bool,
    runner: &mut Runner,
    host: &mut H,
    bench: &mut B,
) -> Result<Option<Live>, RunStop>
    requires down { IsDown (B.state bench.old) }
    requires off { runner.old.machine.start ≡ None }
    ensures { Turns (λ m. acts.wake m.disk (boot_book.woken on_good m)) None (stage (H.state host.old) runner.old (B.state bench.old))
        (stage (H.state host.new) runner.new (B.state bench.new)) result }
{
    let left = load(alloc, runner, host, bench)?;
    match left {
        Some(hive) => take_set(alloc, on_good, hive, runner, host, bench),
        None => Ok(None),
    }
}

/// Says the entry, and loads and takes a set; or the start ends before that.
fn boot_by<H: Host, B: Bench>(
    alloc: Global,
    ini: &BootIni,
    chosen: Chosen,
    on_good: bool,
    runner: &mut Runner,
    host: &mut H,
    bench: &mut B,
) -> Result<Option<Live>, RunStop>
    requires down { IsDown (B.state bench.old) }
    requires off { runner.old.machine.start ≡ None }
    requires there { IsThere ini.now.entries chosen }
    ensures { Turns (λ m. boot_book.chosen on_good m (choice_in ini.now chosen)) None (stage (H.state host.old) runner.old (B.state bench.old))
        (stage (H.state host.new) runner.new (B.state bench.new)) result }
{
    match chosen {
        Chosen::Entry(number) => {
            say_entry(alloc, ini, number, &mut runner.summary, host)?;
            let on_good = either(on_good, is_on_good(ini, number));
            load_and_take(alloc, on_good, runner, host, bench)
        }
        Chosen::NoEntry => end_start(alloc, Verdict::NoEntry, runner, host, bench),
        Chosen::OtherLoader(number) => {
            say_entry(alloc, ini, number, &mut runner.summary, host)?;
            end_start(alloc, Verdict::OtherLoader, runner, host, bench)
        }
        Chosen::NoSystem(number) => {
            say_entry(alloc, ini, number, &mut runner.summary, host)?;
            end_start(alloc, Verdict::NoSystem, runner, host, bench)
        }
    }
}

/// One more start: a fallback that is due is taken, and boot.ini says how it goes on. After 4,294,967,295 starts the run is
/// given up as for lack of memory.
pub(crate) fn boot<H: Host, B: Bench>(
    alloc: Global,
    ini: &BootIni,
    system: &Arc,
    entry: Option<u32>,
    last_known_good: bool,
    runner: &mut Runner,
    host: &mut H,
    bench: &mut B,
) -> Result<Option<Live>, RunStop>
    requires down { IsDown (B.state bench.old) }
    requires off { runner.old.machine.start ≡ None }
    ensures { Turns (boot_act (choices ini.now system.now) entry last_known_good) None (stage (H.state host.old) runner.old (B.state bench.old))
        (stage (H.state host.new) runner.new (B.state bench.new)) result }
{
    let Some(number) = runner.starts.checked_add(1) else {
        return Err(RunStop::Memory);
    };
    say(alloc, host, &mut runner.summary, Line::Start { number })?;
    let due = runner.machine.take_fallback();
    runner.starts = number;
    let Ok(chosen) = choose(alloc, ini, entry, system) else {
        return Err(RunStop::Memory);
    };
    let on_good = either(due, last_known_good);
    boot_by(alloc, ini, chosen, on_good, runner, host, bench)
}
