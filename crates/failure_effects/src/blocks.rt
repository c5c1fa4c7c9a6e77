//! The blocks of an entry: it fails, and then it is off.

ghost use Rattle.std.specs.Prelude.{◌≡◌, ◌++◌, [], Some, None, OnOk, if◌then◌else◌};
ghost use Rattle.std.specs.Option.{option_copied};
ghost use Rattle.failure_effects.specs.Lost.{other_of, lost_lines, goes_on, failed_lines, fail_block, off_block, blocks_of, blocks_where};
ghost use Rattle.failure_effects.specs.Played.{is_started, played};
ghost use Rattle.failure_effects.specs.Effects.{is_asked};
ghost use Rattle.failure_effects.specs.Switching.{off_set};

use crate::lines::{EffectLine, EffectLines};
use crate::lost::{Other, goes_on, lost_in, other_of, push_lost};
use crate::reading::ReadTaken;
use crate::told::{Told, is_started};
use boot_phases::error_control::Judgement;
use nt_bytes::{Units, same_folded};
use std::alloc::{AllocError, Global};

/// The blocks of each entry that is asked for, in the order of the plain start.
pub(crate) fn push_blocks(
    alloc: Global,
    read: &mut ReadTaken<'_>,
    plain: &[Told],
    of: Option<&Units>,
    lines: &mut EffectLines,
) -> Result<(), AllocError>
    ensures lines { OnOk result (lines.new ≡ lines.old ++ blocks_where (is_asked (option_copied of.entry)) read.old plain.now) }
    ensures same { read.new ≡ read.old }
{
    for told in plain {
        push_where_asked(alloc, read, plain, told, of, lines)?;
    }
    Ok(())
}

/// Whether the entry of this name is asked for: each is, where no name is.
fn is_asked(of: Option<&Units>, name: &[u16]) -> bool
    ensures { result ≡ is_asked (option_copied of.entry) name.now }
{
    match of {
        Some(asked) => same_folded(asked.as_slice(), name),
        None => true,
    }
}

/// The blocks of the entry, where it is asked for.
fn push_where_asked(
    alloc: Global,
    read: &mut ReadTaken<'_>,
    plain: &[Told],
    told: &Told,
    of: Option<&Units>,
    lines: &mut EffectLines,
) -> Result<(), AllocError>
    ensures lines { OnOk result (lines.new ≡ lines.old ++ (if is_asked (option_copied of.entry) told.now.name then blocks_of read.old plain.now told.now else [])) }
    ensures same { read.new ≡ read.old }
{
    if is_asked(of, told.name.as_slice()) {
        push_blocks_of(alloc, read, plain, told, lines)
    } else {
        Ok(())
    }
}

/// The blocks of the entry.
fn push_blocks_of(
    alloc: Global,
    read: &mut ReadTaken<'_>,
    plain: &[Told],
    told: &Told,
    lines: &mut EffectLines,
) -> Result<(), AllocError>
    ensures lines { OnOk result (lines.new ≡ lines.old ++ blocks_of read.old plain.now told.now) }
    ensures same { read.new ≡ read.old }
{
    push_failed_where(alloc, read, plain, told, lines)?;
    push_off(alloc, read, plain, &told.name, lines)
}

/// The block in which it fails, where the plain start started it.
fn push_failed_where(
    alloc: Global,
    read: &mut ReadTaken<'_>,
    plain: &[Told],
    told: &Told,
    lines: &mut EffectLines,
) -> Result<(), AllocError>
    ensures lines { OnOk result (lines.new ≡ lines.old
        ++ (if is_started told.now.fate then fail_block plain.now (other_of (played read.old read.old.set (Some told.now.name))) told.now.name else [])) }
    ensures same { read.new ≡ read.old }
{
    if is_started(told.fate) {
        push_failed(alloc, read, plain, &told.name, lines)
    } else {
        Ok(())
    }
}

/// The block of an entry that fails.
fn push_failed(
    alloc: Global,
    read: &mut ReadTaken<'_>,
    plain: &[Told],
    name: &Units,
    lines: &mut EffectLines,
) -> Result<(), AllocError>
    ensures lines { OnOk result (lines.new ≡ lines.old ++ fail_block plain.now (other_of (played read.old read.old.set (Some name.now))) name.now) }
    ensures same { read.new ≡ read.old }
{
    let told = read.play(alloc, Some(name))?;
    let other = other_of(alloc, told.as_slice())?;
    push_fail_block(alloc, plain, &other, name, lines)
}

/// The same by the start in which it fails.
fn push_fail_block(
    alloc: Global,
    plain: &[Told],
    other: &Other,
    name: &Units,
    lines: &mut EffectLines,
) -> Result<(), AllocError>
    ensures { OnOk result (lines.new ≡ lines.old ++ fail_block plain.now other.now name.now) }
{
    let lost = lost_in(alloc, plain, other, name.as_slice())?;
    match other.failure {
        Some(judgement) => push_failure(alloc, other, name, lost.as_slice(), judgement, lines),
        None => Ok(()),
    }
}

/// What follows from the failure, how many are lost, and the lost where the start goes on.
fn push_failure(
    alloc: Global,
    other: &Other,
    name: &Units,
    lost: &[Units],
    judgement: Judgement,
    lines: &mut EffectLines,
) -> Result<(), AllocError>
    ensures { OnOk result (lines.new ≡ lines.old ++ failed_lines other.now name.now lost.now (Some judgement)) }
{
    lines.push(EffectLine::Fail {
        judgement,
        lost: lost.len(),
        name: name.copy(alloc)?,
    })?;
    push_lost_where(alloc, other, lost, goes_on(judgement), lines)
}

/// The lost, where they are to be said.
fn push_lost_where(
    alloc: Global,
    other: &Other,
    lost: &[Units],
    listed: bool,
    lines: &mut EffectLines,
) -> Result<(), AllocError>
    ensures { OnOk result (lines.new ≡ lines.old ++ (if listed then lost_lines other.now lost.now else [])) }
{
    if listed {
        push_lost(alloc, other, lost, lines)
    } else {
        Ok(())
    }
}

/// The block of an entry that is off.
fn push_off(
    alloc: Global,
    read: &mut ReadTaken<'_>,
    plain: &[Told],
    name: &Units,
    lines: &mut EffectLines,
) -> Result<(), AllocError>
    ensures lines { OnOk result (lines.new ≡ lines.old ++ off_block plain.now (other_of (played read.old (off_set name.now read.old.set) None)) name.now) }
    ensures same { read.new ≡ read.old }
{
    let told = read.play_off(alloc, name.as_slice())?;
    let other = other_of(alloc, told.as_slice())?;
    push_off_block(alloc, plain, &other, name, lines)
}

/// The same by the start in which it is off.
fn push_off_block(
    alloc: Global,
    plain: &[Told],
    other: &Other,
    name: &Units,
    lines: &mut EffectLines,
) -> Result<(), AllocError>
    ensures { OnOk result (lines.new ≡ lines.old ++ off_block plain.now other.now name.now) }
{
    let lost = lost_in(alloc, plain, other, name.as_slice())?;
    lines.push(EffectLine::Off {
        lost: lost.len(),
        name: name.copy(alloc)?,
    })?;
    push_lost(alloc, other, lost.as_slice(), lines)
}
