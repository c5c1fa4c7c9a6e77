//! Whether edits leave a hive's tree as it is.

ghost use Rattle.std.specs.Prelude.{◌≡◌, ◌↔◌, ◌∷◌, [], true, map, IfOk, IfErr};
ghost use Rattle.hive_model.specs.Edit.{edited, make_key, set_value};
ghost use Rattle.reg_tree.specs.Makes.{IsRefused, step_of};
ghost use Rattle.reg_tree.specs.declared.steps.TreeStep.{TreeStep};
ghost use Rattle.hive_store.specs.Same.{Keep};

use hive_edit::HiveBytes;
use nt_bytes::{Names, Row, Units};
use reg_tree::{
    EditStop, Key, LONGEST_DATA, LONGEST_KEY_NAME, LONGEST_VALUE_NAME, MOST_BULK, MOST_PARENTS,
    Steps, TreeStep, is_bad_name,
};
use std::alloc::{AllocError, Global};
use tree_draft::apply;

/// A step of its own.
fn step_copied(alloc: Global, step: &TreeStep) -> Result<TreeStep, AllocError>
    ensures { IfOk result (λ s. step_of s ≡ step_of step.now) }
{
    match step {
        TreeStep::SetValue {
            path,
            name,
            kind,
            bytes,
        } => Ok(TreeStep::SetValue {
            path: path.copy(alloc)?,
            name: name.copy(alloc)?,
            kind: *kind,
            bytes: bytes.copy(alloc)?,
        }),
        TreeStep::DeleteValue { path, name } => Ok(TreeStep::DeleteValue {
            path: path.copy(alloc)?,
            name: name.copy(alloc)?,
        }),
        TreeStep::MakeKey { parent, name } => Ok(TreeStep::MakeKey {
            parent: parent.copy(alloc)?,
            name: name.copy(alloc)?,
        }),
        TreeStep::DeleteKey { path } => Ok(TreeStep::DeleteKey {
            path: path.copy(alloc)?,
        }),
        TreeStep::CopyChild { from, to } => Ok(TreeStep::CopyChild {
            from: from.copy(alloc)?,
            to: to.copy(alloc)?,
        }),
        TreeStep::AddChild { name, key } => Ok(TreeStep::AddChild {
            name: name.copy(alloc)?,
            key: key.copy(alloc)?,
        }),
    }
}

/// Steps of their own.
fn steps_copied(alloc: Global, steps: &[TreeStep]) -> Result<Steps, AllocError>
    ensures { IfOk result (λ s. map step_of s ≡ map step_of steps.now) }
{
    let mut copied = Row::new(alloc);
    for step in steps {
        let one = step_copied(alloc, step)?;
        copied.push(one)?;
    }
    Ok(copied)
}

/// The whole tree, in memory of its own.
fn whole(alloc: Global, cells: &HiveBytes) -> Result<Key, AllocError>
    ensures { IfOk result (λ t. t ≡ cells.now.tree) }
{
    let top = Names::new(alloc);
    match cells.subtree(alloc, &top)? {
        Some(key) => Ok(key),
        None => unreachable!(),
    }
}

/// Whether the steps leave the tree as it is, by the tree before and after them in memory.
fn keeps_whole(alloc: Global, cells: &HiveBytes, steps: &Steps) -> Result<bool, EditStop>
    ensures same { IfOk result (λ b. (b ≡ true) ↔ Keep cells.now.version cells.now.tree (map step_of steps.now)) }
    ensures refused { IfErr result (IsRefused (edited cells.now.version cells.now.tree (map step_of steps.now))) }
{
    let tree = whole(alloc, cells)?;
    let mut work = tree.copy(alloc)?;
    let again = steps_copied(alloc, steps.as_slice())?;
    apply(&mut work, alloc, again, cells.version())?;
    Ok(work.same(&tree))
}

/// Whether setting a value leaves the tree as it is, by the value that is there.
fn set_keeps(
    alloc: Global,
    cells: &HiveBytes,
    path: &Names,
    name: &[u16],
    kind: u32,
    bytes: &[u8],
) -> Result<bool, AllocError>
    ensures { IfOk result (λ b. (b ≡ true) ↔ Keep cells.now.version cells.now.tree (set_value path.now name.now kind bytes.now ∷ [])) }
{
    if cells.bulk() > MOST_BULK {
        return Ok(false);
    }
    if name.len() > LONGEST_VALUE_NAME {
        return Ok(false);
    }
    if bytes.len() > LONGEST_DATA {
        return Ok(false);
    }
    cells.has_value(alloc, path, name, kind, bytes)
}

/// Whether making a key leaves the tree as it is: where it is there, and may be made.
fn make_keeps(
    alloc: Global,
    cells: &HiveBytes,
    parent: &Names,
    name: &Units,
) -> Result<bool, AllocError>
    ensures { IfOk result (λ b. (b ≡ true) ↔ Keep cells.now.version cells.now.tree (make_key parent.now name.now ∷ [])) }
{
    if cells.bulk() > MOST_BULK {
        return Ok(false);
    }
    if is_bad_name(name.as_slice()) {
        return Ok(false);
    }
    if name.as_slice().len() > LONGEST_KEY_NAME {
        return Ok(false);
    }
    if parent.as_slice().len() > MOST_PARENTS {
        return Ok(false);
    }
    let mut path = parent.copy(alloc)?;
    path.push(name.copy(alloc)?)?;
    Ok(cells.has(&path))
}

/// Whether one step leaves the tree as it is: setting a value may, and making a key; another step never.
fn step_keeps(alloc: Global, cells: &HiveBytes, step: &TreeStep) -> Result<bool, AllocError>
    ensures { IfOk result (λ b. (b ≡ true) ↔ Keep cells.now.version cells.now.tree (step_of step.now ∷ [])) }
{
    match step {
        TreeStep::SetValue {
            path,
            name,
            kind,
            bytes,
        } => set_keeps(alloc, cells, path, name.as_slice(), *kind, bytes.as_slice()),
        TreeStep::MakeKey { parent, name } => make_keeps(alloc, cells, parent, name),
        TreeStep::DeleteValue { .. } => Ok(false),
        TreeStep::DeleteKey { .. } => Ok(false),
        TreeStep::CopyChild { .. } => Ok(false),
        TreeStep::AddChild { .. } => Ok(false),
    }
}

/// The steps after the first ones that each leave the tree as it is.
fn after_kept<'s>(
    alloc: Global,
    cells: &HiveBytes,
    steps: &'s [TreeStep],
) -> Result<&'s [TreeStep], AllocError>
    ensures same { IfOk result (λ rest. edited cells.now.version cells.now.tree (map step_of steps.now)
        ≡ edited cells.now.version cells.now.tree (map step_of rest.now)) }
    ensures changed { IfOk result (λ rest. (step : TreeStep) → rest.now ≡ step ∷ []
        → Keep cells.now.version cells.now.tree (step_of step ∷ []) → ⊥) }
{
    let mut rest = steps;
    'steps: loop {
        let [step, more @ ..] = rest else {
            return Ok(rest);
        };
        if !step_keeps(alloc, cells, step)? {
            return Ok(rest);
        }
        rest = more;
    }
}

/// Whether the last step sets a value that the tree doesn't hold. Then the tree after the steps is another one, whatever the others do.
fn ends_in_change(alloc: Global, cells: &HiveBytes, steps: &[TreeStep]) -> Result<bool, AllocError>
    ensures { IfOk result (λ b. b ≡ true → Keep cells.now.version cells.now.tree (map step_of steps.now) → ⊥) }
{
    let [.., last] = steps else {
        return Ok(false);
    };
    match last {
        TreeStep::SetValue {
            path,
            name,
            kind,
            bytes,
        } => {
            let held = cells.has_value(alloc, path, name.as_slice(), *kind, bytes.as_slice())?;
            Ok(!held)
        }
        _ => Ok(false),
    }
}

/// Whether several steps leave the tree as it is. Where the last one shows it, no tree is read.
fn many_keep(alloc: Global, cells: &HiveBytes, steps: &Steps) -> Result<bool, EditStop>
    ensures same { IfOk result (λ b. (b ≡ true) ↔ Keep cells.now.version cells.now.tree (map step_of steps.now)) }
    ensures refused { IfErr result (IsRefused (edited cells.now.version cells.now.tree (map step_of steps.now))) }
{
    if ends_in_change(alloc, cells, steps.as_slice())? {
        return Ok(false);
    }
    keeps_whole(alloc, cells, steps)
}

/// Whether the steps leave the tree as it is.
pub(crate) fn keeps(alloc: Global, cells: &HiveBytes, steps: &Steps) -> Result<bool, EditStop>
    ensures same { IfOk result (λ b. (b ≡ true) ↔ Keep cells.now.version cells.now.tree (map step_of steps.now)) }
    ensures refused { IfErr result (IsRefused (edited cells.now.version cells.now.tree (map step_of steps.now))) }
{
    let rest = after_kept(alloc, cells, steps.as_slice())?;
    match rest {
        [] => Ok(cells.bulk() <= MOST_BULK),
        [_] => Ok(false),
        _ => many_keep(alloc, cells, steps),
    }
}
