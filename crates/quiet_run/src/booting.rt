//! The boot event, up to the first phase of the start.

ghost use Rattle.std.specs.Prelude.{◌≡◌, ◌||◌, None, OnOk};
ghost use Rattle.start_model.specs.Act.{wake};
ghost use Rattle.start_model.specs.Boot.{chosen, woken, boot_act};
ghost use Rattle.quiet_run.specs.Choices.{is_on_good, choice_in, choices};
ghost use Rattle.quiet_run.specs.Play.{state_in, watched_in, IsSound};
ghost use Rattle.quiet_run.specs.Watch.{watch};

use crate::beginning::take_set;
use crate::ending::end;
use crate::last::fresh_start;
use crate::play::Play;
use boot_ini::arc_path::Arc;
use boot_ini::boot_ini::{BootIni, Chosen, choose, wants_last_known_good};
use boot_machine::boot_machine::Verdict;
use std::alloc::{AllocError, Global};

/// Whether the entry of a number is on LastKnownGood.
fn is_on_good(ini: &BootIni, number: u32) -> bool
    ensures { result ≡ is_on_good ini.now number }
{
    match ini.entry(number) {
        Some(entry) => wants_last_known_good(entry),
        None => false,
    }
}

/// Loads the settled state, and takes a set.
fn load_and_take(alloc: Global, on_good: bool, play: &mut Play) -> Result<(), AllocError>
    requires off { play.old.machine.start ≡ None }
    requires sound { IsSound play.old }
    ensures watched { OnOk result (watched_in play.new
        ≡ watch (wake (state_in play.old).disk (woken on_good (state_in play.old))) play.old.last) }
    ensures sound { OnOk result (IsSound play.new) }
{
    play.live = play.settled.copy(alloc)?;
    play.changed = false;
    play.dirty = false;
    take_set(alloc, on_good, play)
}

/// Loads and takes a set; or the start ends before that.
fn boot_by(
    alloc: Global,
    ini: &BootIni,
    found: Chosen,
    on_good: bool,
    play: &mut Play,
) -> Result<(), AllocError>
    requires off { play.old.machine.start ≡ None }
    requires sound { IsSound play.old }
    ensures watched { OnOk result (watched_in play.new ≡ watch (chosen on_good (state_in play.old) (choice_in ini.now found)) play.old.last) }
    ensures sound { OnOk result (IsSound play.new) }
{
    match found {
        Chosen::Entry(number) => load_and_take(alloc, on_good || is_on_good(ini, number), play),
        Chosen::NoEntry => {
            end(Verdict::NoEntry, play);
            Ok(())
        }
        Chosen::OtherLoader(_) => {
            end(Verdict::OtherLoader, play);
            Ok(())
        }
        Chosen::NoSystem(_) => {
            end(Verdict::NoSystem, play);
            Ok(())
        }
    }
}

/// One more start: a fallback that is due is taken, and boot.ini says how it goes on. After 4,294,967,295 starts the run is
/// given up as for lack of memory.
pub(crate) fn boot(
    alloc: Global,
    ini: &BootIni,
    system: &Arc,
    entry: Option<u32>,
    last_known_good: bool,
    play: &mut Play,
) -> Result<(), AllocError>
    requires off { play.old.machine.start ≡ None }
    requires sound { IsSound play.old }
    ensures watched { OnOk result (watched_in play.new
        ≡ watch (boot_act (choices ini.now system.now) entry last_known_good (state_in play.old)) play.old.last) }
    ensures sound { OnOk result (IsSound play.new) }
{
    let Some(number) = play.starts.checked_add(1) else {
        return Err(AllocError);
    };
    let found = choose(alloc, ini, entry, system)?;
    let due = play.machine.take_fallback();
    play.starts = number;
    play.last = fresh_start(alloc, number);
    boot_by(alloc, ini, found, due || last_known_good, play)
}
