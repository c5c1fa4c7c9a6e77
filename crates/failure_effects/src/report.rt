//! All lines.

ghost use Rattle.std.specs.Prelude.{◌≡◌, ◌++◌, ◌∷◌, [], IfOk, OnOk};
ghost use Rattle.std.specs.Option.{option_copied};
ghost use Rattle.hive_model.specs.Valid.{HoldsKeys, IsValid};
ghost use Rattle.failure_effects.specs.Opening.{HoldsTaken};
ghost use Rattle.failure_effects.specs.Effects.{of_lines, leaning_lines, told_lines, plain_told, opened_lines, effects_of};

use crate::blocks::push_blocks;
use crate::leaning::push_leaning;
use crate::lines::{EffectLine, EffectLines};
use crate::opening::{Opening, StartChoice, Taken, open};
use crate::reading::ReadTaken;
use crate::states::{States, spelled, state_of};
use crate::told::Told;
use nt_bytes::{HiveVersion, Units};
use reg_tree::Key;
use report_text::boot_report::Verdict;
use std::alloc::{AllocError, Global};

/// What single failures do to the plain start of a tree that a hive of this version loads as: of each entry that it takes, or of
/// the name that is asked for, and who leans on that. The tree must be one that a hive can hold.
#[tactic(auto, unfolding(crate::specs::Effects::effects_of))]
pub fn effects(
    alloc: Global,
    root: Key,
    version: HiveVersion,
    choice: StartChoice,
    of: Option<&Units>,
) -> Result<EffectLines, AllocError>
    requires { IsValid root }
    ensures { IfOk result (λ lines. lines ≡ effects_of version root choice (option_copied of.entry)) }
{
    let opening = open(alloc, root, version, choice)?;
    lines_of(alloc, &opening, of)
}

/// All lines, by what becomes of the plain start.
fn lines_of(alloc: Global, opening: &Opening, of: Option<&Units>) -> Result<EffectLines, AllocError>
    requires { HoldsTaken opening.now }
    ensures { IfOk result (λ lines. lines ≡ EffectLine.Start ∷ opened_lines opening.now (option_copied of.entry) ++ EffectLine.End ∷ []) }
{
    let mut lines = EffectLines::new(alloc);
    lines.push(EffectLine::Start)?;
    push_opened(alloc, opening, of, &mut lines)?;
    lines.push(EffectLine::End)?;
    Ok(lines)
}

/// By what becomes of the plain start.
fn push_opened(
    alloc: Global,
    opening: &Opening,
    of: Option<&Units>,
    lines: &mut EffectLines,
) -> Result<(), AllocError>
    requires { HoldsTaken opening.now }
    ensures { OnOk result (lines.new ≡ lines.old ++ opened_lines opening.now (option_copied of.entry)) }
{
    match opening {
        Opening::NoSet(verdict) => lines.push(EffectLine::Verdict(*verdict)),
        Opening::NoPhase {
            number,
            on_good,
            verdict,
        } => push_set(*number, *on_good, *verdict, lines),
        Opening::Begun(taken) => push_taken(alloc, taken, of, lines),
    }
}

/// The set and the verdict.
fn push_set(
    number: u32,
    on_good: bool,
    verdict: Verdict,
    lines: &mut EffectLines,
) -> Result<(), AllocError>
    ensures { OnOk result (lines.new ≡ lines.old ++ EffectLine.Set number on_good ∷ EffectLine.Verdict verdict ∷ []) }
{
    lines.push(EffectLine::Set { number, on_good })?;
    lines.push(EffectLine::Verdict(verdict))
}

/// The set, the verdict, and what follows it.
fn push_taken(
    alloc: Global,
    taken: &Taken,
    of: Option<&Units>,
    lines: &mut EffectLines,
) -> Result<(), AllocError>
    requires { HoldsKeys taken.now.set }
    ensures { OnOk result (lines.new ≡ lines.old ++ EffectLine.Set taken.now.number taken.now.on_good ∷ EffectLine.Verdict Verdict.Running
        ∷ told_lines taken.now (option_copied of.entry) (plain_told taken.now)) }
{
    push_set(taken.number, taken.on_good, Verdict::Running, lines)?;
    let mut read = ReadTaken::new(alloc, taken)?;
    push_read(alloc, taken, &mut read, of, lines)
}

/// What follows the verdict.
fn push_read(
    alloc: Global,
    taken: &Taken,
    read: &mut ReadTaken<'_>,
    of: Option<&Units>,
    lines: &mut EffectLines,
) -> Result<(), AllocError>
    requires held { HoldsKeys taken.now.set }
    requires same { read.old ≡ taken.now }
    ensures { OnOk result (lines.new ≡ lines.old ++ told_lines taken.now (option_copied of.entry) (plain_told taken.now)) }
{
    let plain = read.play(alloc, None)?;
    push_told(alloc, taken, read, plain.as_slice(), of, lines)
}

/// What follows the verdict, by what the plain start says.
fn push_told(
    alloc: Global,
    taken: &Taken,
    read: &mut ReadTaken<'_>,
    plain: &[Told],
    of: Option<&Units>,
    lines: &mut EffectLines,
) -> Result<(), AllocError>
    requires held { HoldsKeys taken.now.set }
    requires same { read.old ≡ taken.now }
    ensures { OnOk result (lines.new ≡ lines.old ++ told_lines taken.now (option_copied of.entry) plain.now) }
{
    let states = States::new(alloc, plain)?;
    push_of(alloc, taken, &states, of, lines)?;
    push_blocks(alloc, read, plain, of, lines)?;
    push_leaning_on(alloc, taken, &states, of, lines)
}

/// What the plain start made of the name that is asked for.
fn push_of(
    alloc: Global,
    taken: &Taken,
    states: &States<'_>,
    of: Option<&Units>,
    lines: &mut EffectLines,
) -> Result<(), AllocError>
    ensures { OnOk result (lines.new ≡ lines.old ++ of_lines taken.now states.now (option_copied of.entry)) }
{
    match of {
        Some(name) => lines.push(EffectLine::Of {
            state: state_of(&taken.set, states, name.as_slice()),
            name: spelled(alloc, &taken.set, name)?,
        }),
        None => Ok(()),
    }
}

/// Who leans on the name that is asked for.
fn push_leaning_on(
    alloc: Global,
    taken: &Taken,
    states: &States<'_>,
    of: Option<&Units>,
    lines: &mut EffectLines,
) -> Result<(), AllocError>
    requires { HoldsKeys taken.now.set }
    ensures { OnOk result (lines.new ≡ lines.old ++ leaning_lines taken.now states.now (option_copied of.entry)) }
{
    match of {
        Some(name) => push_leaning(alloc, &taken.set, states, name, lines),
        None => Ok(()),
    }
}
