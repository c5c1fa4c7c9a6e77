//! A start in which each attempt goes well.

ghost use Rattle.std.specs.Prelude.{◌≡◌, ◌<◌, ◌++◌, [], false, length, map, Some, IfOk, OnOk};
ghost use Rattle.hive_model.specs.Tree.{Tree};
ghost use Rattle.hive_model.specs.Valid.{HoldsKeys};
ghost use Rattle.boot_phases.specs.boot_phases.Lists.{lists_of};
ghost use Rattle.boot_machine.specs.boot_machine.Steps.{is_at_end};
ghost use Rattle.report_words.specs.declared.line.Line.TheVariants.{Unmet as UnmetLine};
ghost use Rattle.start_model.specs.Machine.{off_machine};
ghost use Rattle.safe_boot.specs.Lines.{line_of};
ghost use Rattle.safe_boot.specs.Played.{Course, attempts_of, phase_ended, phase_played, start_lines_of, safe_lines_by, safe_lines_of, IsAt, AttemptsNext, waiting_count};

use crate::lines::{SafeLine, SafeLines};
use crate::mode::SafeMode;
use crate::reducing::reduce;
use boot_machine::boot_machine::{Machine, SetLists};
use boot_phases::boot_phases::Phase;
use nt_bytes::Units;
use reg_tree::Key;
use std::alloc::{AllocError, Global};

/// The lines of the three phases of a start on this set, where each attempt goes well; in a safe mode, on what that leaves of the
/// set, where drivers may be listed by their images too. The keys of the set must be those that a hive can hold. Takes n log n time in
/// the services and the names of the list.
pub fn safe_start_by(
    alloc: Global,
    set: &Key,
    mode: Option<SafeMode>,
    images: bool,
) -> Result<SafeLines, AllocError>
    requires { HoldsKeys set.now }
    ensures { IfOk result (λ lines. map line_of lines ≡ safe_lines_by set.now mode images) }
{
    match mode {
        Some(mode) => reduced_lines(alloc, set, mode, images),
        None => start_lines(alloc, set),
    }
}

/// The same where images don't count.
pub fn safe_start(alloc: Global, set: &Key, mode: Option<SafeMode>) -> Result<SafeLines, AllocError>
    requires { HoldsKeys set.now }
    ensures { IfOk result (λ lines. map line_of lines ≡ safe_lines_of set.now mode) }
{
    safe_start_by(alloc, set, mode, false)
}

/// The lines on what a safe mode leaves of the set.
fn reduced_lines(
    alloc: Global,
    set: &Key,
    mode: SafeMode,
    images: bool,
) -> Result<SafeLines, AllocError>
    requires { HoldsKeys set.now }
    ensures { IfOk result (λ lines. map line_of lines ≡ safe_lines_by set.now (Some mode) images) }
{
    let reduced = reduce(alloc, set, mode, images)?;
    start_lines(alloc, &reduced)
}

/// The lines of the three phases of a start on this set, of which services and orders are read once.
fn start_lines(alloc: Global, set: &Key) -> Result<SafeLines, AllocError>
    requires { HoldsKeys set.now }
    ensures { IfOk result (λ lines. map line_of lines ≡ start_lines_of set.now) }
{
    let lists = SetLists::read(alloc, set)?;
    let mut machine = Machine::new(alloc);
    lines_on(alloc, &lists, &mut machine)
}

/// The same of these lists, on a machine that is off and has nothing noted.
fn lines_on(alloc: Global, lists: &SetLists, machine: &mut Machine) -> Result<SafeLines, AllocError>
    requires { machine.old ≡ off_machine }
    ensures { (set : Tree) → lists.now ≡ lists_of set → IfOk result (λ lines. map line_of lines ≡ start_lines_of set) }
{
    let mut lines = SafeLines::new(alloc);
    play_start(alloc, lists, machine, &mut lines)?;
    Ok(lines)
}

/// The three phases of a start on a set of which these are the lists, on a machine that is off and has nothing noted.
fn play_start(
    alloc: Global,
    lists: &SetLists,
    machine: &mut Machine,
    lines: &mut SafeLines,
) -> Result<(), AllocError>
    requires off { machine.old ≡ off_machine }
    requires unsaid { lines.old ≡ [] }
    ensures { OnOk result ((set : Tree) → lists.now ≡ lists_of set → map line_of lines.new ≡ start_lines_of set) }
{
    machine.begin_listed(alloc, lists, 0, false)?;
    lines.push(SafeLine::Phase(Phase::Boot))?;
    play_phase(alloc, lists, machine, lines)?;
    play_phase(alloc, lists, machine, lines)?;
    play_phase(alloc, lists, machine, lines)
}

/// A phase to its end.
fn play_phase(
    alloc: Global,
    lists: &SetLists,
    machine: &mut Machine,
    lines: &mut SafeLines,
) -> Result<(), AllocError>
    ensures { OnOk result ((set : Tree) → lists.now ≡ lists_of set
        → (c : Course) → IsAt machine.old lines.old c → IsAt machine.new lines.new (phase_played set c)) }
{
    attempt_all(alloc, machine, lines)?;
    end_phase(alloc, lists, machine, lines)
}

/// Attempts the entries of a phase, until none that waits is ready.
fn attempt_all(
    alloc: Global,
    machine: &mut Machine,
    lines: &mut SafeLines,
) -> Result<(), AllocError>
    ensures { OnOk result ((c : Course) → IsAt machine.old lines.old c → IsAt machine.new lines.new (attempts_of (length c.start.waiting) c)) }
{
    'attempt: while !machine.at_phase_end() {
        attempt_next(alloc, machine, lines)?;
    }
    Ok(())
}

/// Attempts the next entry.
fn attempt_next(
    alloc: Global,
    machine: &mut Machine,
    lines: &mut SafeLines,
) -> Result<(), AllocError>
    requires { is_at_end machine.old.start ≡ false }
    ensures next { OnOk result ((c : Course) → IsAt machine.old lines.old c → AttemptsNext c machine.new lines.new) }
    ensures fewer { OnOk result (waiting_count machine.new < waiting_count machine.old) }
{
    let tried = machine.attempt(alloc, false)?;
    lines.push(SafeLine::Started(tried.name))
}

/// Says what is unmet, and goes on to the next phase.
fn end_phase(
    alloc: Global,
    lists: &SetLists,
    machine: &mut Machine,
    lines: &mut SafeLines,
) -> Result<(), AllocError>
    ensures { OnOk result ((set : Tree) → lists.now ≡ lists_of set
        → (c : Course) → IsAt machine.old lines.old c → IsAt machine.new lines.new (phase_ended set c)) }
{
    let unmet = machine.next_phase_listed(alloc, lists)?;
    push_unmet(alloc, lines, unmet.as_slice())?;
    lines.push(SafeLine::Phase(machine.phase()))
}

fn push_unmet(alloc: Global, lines: &mut SafeLines, names: &[Units]) -> Result<(), AllocError>
    ensures { OnOk result (map line_of lines.new ≡ map line_of lines.old ++ map UnmetLine names.now) }
{
    for name in names {
        lines.push(SafeLine::Unmet(name.copy(alloc)?))?;
    }
    Ok(())
}
