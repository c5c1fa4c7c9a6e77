//! The edits that a line stands for.

ghost use Rattle.std.specs.Prelude.{◌≡◌, ◌++◌, [], ◌∷◌, map, IsSome, OnOk, IfOk, IfErr};
ghost use Rattle.reg_tree.specs.Makes.{step_of};
ghost use Rattle.reg_text.specs.declared.item.LineItem.TheVariants as items;
ghost use Rattle.reg_text.specs.declared.stop.RegFaultKind.TheVariants as kinds;
ghost use Rattle.reg_text.specs.Gives.{Fails, Gives};
ghost use Rattle.reg_text.specs.Reading.{making, edits_of, line_said};
ghost use Rattle.reg_text.specs.Takes.{path_of, AddsEdits, TakesItem, TakesLine};

use crate::item::{Begun, LineItem};
use crate::line::item;
use crate::state::{State, number_of};
use crate::stop::{RegFaultKind, RegLineStop};
use crate::units::trim;
use nt_bytes::{Bytes, Names, Units};
use reg_tree::{Steps, TreeStep};
use std::alloc::{AllocError, Global};

fn push_step(steps: &mut Steps, step: TreeStep) -> Result<(), AllocError>
    ensures { OnOk result (map step_of steps.new ≡ map step_of steps.old ++ step_of step ∷ []) }
{
    steps.push(step)?;
    Ok(())
}

/// Each key of the path is made, from the top, below these keys.
fn push_making(
    alloc: Global,
    steps: &mut Steps,
    mut above: Names,
    path: &[Units],
) -> Result<(), AllocError>
    ensures { OnOk result (map step_of steps.new ≡ map step_of steps.old ++ making above path.now) }
{
    let mut rest = path;
    'names: loop {
        let [name, more @ ..] = rest else {
            return Ok(());
        };
        push_step(
            steps,
            TreeStep::MakeKey {
                parent: above.copy(alloc)?,
                name: name.copy(alloc)?,
            },
        )?;
        above.push(name.copy(alloc)?)?;
        rest = more;
    }
}

/// A copy of the key's path, if there is one.
fn path_of(alloc: Global, key: &Option<Names>) -> Result<Names, RegLineStop>
    ensures { Gives (λ p. p) result (path_of key.now) }
{
    match key {
        Some(path) => Ok(path.copy(alloc)?),
        None => Err(RegLineStop::Kind(RegFaultKind::Line)),
    }
}

/// The edit of a value.
fn push_value(
    alloc: Global,
    steps: &mut Steps,
    key: &Option<Names>,
    name: Units,
    kind: u32,
    bytes: Bytes,
) -> Result<(), RegLineStop>
    ensures taken { IfOk result (λ _. AddsEdits steps.old steps.new (edits_of key.now (items.Named name kind bytes))) }
    ensures refused { IfErr result (λ e. Fails e (edits_of key.now (items.Named name kind bytes))) }
{
    let path = path_of(alloc, key)?;
    push_step(
        steps,
        TreeStep::SetValue {
            path,
            name,
            kind,
            bytes,
        },
    )?;
    Ok(())
}

/// The edit that takes a value away.
fn push_no_value(
    alloc: Global,
    steps: &mut Steps,
    key: &Option<Names>,
    name: Units,
) -> Result<(), RegLineStop>
    ensures taken { IfOk result (λ _. AddsEdits steps.old steps.new (edits_of key.now (items.NoValue name))) }
    ensures refused { IfErr result (λ e. Fails e (edits_of key.now (items.NoValue name))) }
{
    let path = path_of(alloc, key)?;
    push_step(steps, TreeStep::DeleteValue { path, name })?;
    Ok(())
}

fn push_in_key(alloc: Global, steps: &mut Steps, path: &Names) -> Result<(), AllocError>
    ensures { OnOk result (map step_of steps.new ≡ map step_of steps.old ++ making [] path.now) }
{
    push_making(alloc, steps, Names::new(alloc), path.as_slice())
}

/// The key, where there is one.
fn in_key(key: Option<Names>) -> Result<Option<Names>, RegFaultKind>
    ensures taken { IfOk result (λ k. (k ≡ key) × IsSome key) }
    ensures refused { IfErr result (λ e. (e ≡ kinds.Line) × (key ≡ None)) }
{
    if key.is_none() {
        return Err(RegFaultKind::Line);
    }
    Ok(key)
}

/// Adds the edits of what a line says, and answers the key in which values stand after it and the value
/// that goes on in the next line.
fn take_item(
    alloc: Global,
    steps: &mut Steps,
    key: Option<Names>,
    item: LineItem,
) -> Result<(Option<Names>, Option<Begun>), RegLineStop>
    ensures taken { IfOk result (TakesItem steps.old steps.new key item) }
    ensures refused { IfErr result (λ e. Fails e (edits_of key item)) }
{
    match item {
        LineItem::Nothing => Ok((key, None)),
        LineItem::InKey { path } => {
            push_in_key(alloc, steps, &path)?;
            Ok((Some(path), None))
        }
        LineItem::NoKey { path } => {
            push_step(steps, TreeStep::DeleteKey { path })?;
            Ok((None, None))
        }
        LineItem::Named { name, kind, bytes } => {
            push_value(alloc, steps, &key, name, kind, bytes)?;
            Ok((key, None))
        }
        LineItem::NoValue { name } => {
            push_no_value(alloc, steps, &key, name)?;
            Ok((key, None))
        }
        LineItem::GoesOn { begun } => Ok((in_key(key)?, Some(begun))),
    }
}

/// Adds the edits of a line, and answers what is kept after it.
#[tactic(auto, unfolding(crate::specs::Reading::line_said))]
pub fn say_line(
    alloc: Global,
    steps: &mut Steps,
    state: State,
    line: &[u16],
) -> Result<State, RegLineStop>
    ensures taken { IfOk result (λ s. TakesLine steps.old steps.new (line_said state line.now) s) }
    ensures refused { IfErr result (λ e. Fails e (line_said state line.now)) }
{
    let number = number_of(&state);
    let State {
        line: next,
        last: _,
        key,
        begun,
    } = state;
    let item = item(alloc, begun, trim(line))?;
    let (key, begun) = take_item(alloc, steps, key, item)?;
    Ok(State {
        line: next.saturating_add(1),
        last: number,
        key,
        begun,
    })
}
