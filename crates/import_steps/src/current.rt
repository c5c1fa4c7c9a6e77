//! Steps with the name of a set in place of `CurrentControlSet`.

ghost use Rattle.std.specs.Prelude.{◌≡◌, ◌++◌, ◌≤◌, map, IfOk, OnOk};
ghost use Rattle.std.specs.List.{All};
ghost use Rattle.nt_bytes.specs.Folding.{folds_same};
ghost use Rattle.reg_tree.specs.Fitting.{Fits};
ghost use Rattle.reg_tree.specs.Makes.{step_of};
ghost use Rattle.start_model.specs.Sets.{set_name};
ghost use Rattle.import_steps.specs.Current.{current_name, named_in, path_in, child_in, step_in, is_current, deletes_current, steps_in, set_steps};
ghost use Rattle.import_steps.specs.Made.{made_steps};

use nt_bytes::{Names, Row, Units, same_folded};
use nt_names::startup_names::CURRENT_CONTROL_SET;
use reg_tree::{Steps, TreeStep};
use select_keys::set_name;
use std::alloc::{AllocError, Global};

/// The steps to be made, and whether there is one after them that is refused since it deletes the set as a whole.
#[derive(Drop)]
pub struct SetSteps {
    pub steps: Steps,
    pub protected: bool,
}

fn is_named_current(name: &[u16]) -> bool
    ensures { result ≡ folds_same current_name name.now }
{
    same_folded(&CURRENT_CONTROL_SET, name)
}

/// The set's name in place of `CurrentControlSet`.
fn named_in(alloc: Global, set: &[u16], name: Units) -> Result<Units, AllocError>
    ensures { IfOk result (λ n. n ≡ named_in set.now name) }
{
    if is_named_current(name.as_slice()) {
        Units::from_slice(alloc, set)
    } else {
        Ok(name)
    }
}

fn push_names(alloc: Global, path: &mut Names, names: &[Units]) -> Result<(), AllocError>
    ensures { OnOk result (path.new ≡ path.old ++ names.now) }
{
    for name in names {
        path.push(name.copy(alloc)?)?;
    }
    Ok(())
}

/// The path with the set's name in its first place.
fn path_in(alloc: Global, set: &[u16], path: &Names) -> Result<Names, AllocError>
    ensures { IfOk result (λ p. p ≡ path_in set.now path.now) }
{
    let mut made = Names::new(alloc);
    let [first, more @ ..] = path.as_slice() else {
        return Ok(made);
    };
    made.push(named_in(alloc, set, first.copy(alloc)?)?)?;
    push_names(alloc, &mut made, more)?;
    Ok(made)
}

/// The name of a key to be made below this parent.
fn child_in(alloc: Global, set: &[u16], parent: &Names, name: Units) -> Result<Units, AllocError>
    ensures { IfOk result (λ n. n ≡ child_in set.now parent.now name) }
{
    match parent.as_slice() {
        [] => named_in(alloc, set, name),
        [_, ..] => Ok(name),
    }
}

/// The step with the set's name in its path.
fn step_in(alloc: Global, set: &[u16], step: TreeStep) -> Result<TreeStep, AllocError>
    ensures { IfOk result (λ s. step_of s ≡ step_in set.now (step_of step)) }
{
    match step {
        TreeStep::SetValue {
            path,
            name,
            kind,
            bytes,
        } => Ok(TreeStep::SetValue {
            path: path_in(alloc, set, &path)?,
            name,
            kind,
            bytes,
        }),
        TreeStep::DeleteValue { path, name } => Ok(TreeStep::DeleteValue {
            path: path_in(alloc, set, &path)?,
            name,
        }),
        TreeStep::MakeKey { parent, name } => Ok(TreeStep::MakeKey {
            name: child_in(alloc, set, &parent, name)?,
            parent: path_in(alloc, set, &parent)?,
        }),
        TreeStep::DeleteKey { path } => Ok(TreeStep::DeleteKey {
            path: path_in(alloc, set, &path)?,
        }),
        TreeStep::CopyChild { from, to } => Ok(TreeStep::CopyChild { from, to }),
        TreeStep::AddChild { name, key } => Ok(TreeStep::AddChild { name, key }),
    }
}

/// Whether the path is `CurrentControlSet` alone.
fn is_current(path: &[Units]) -> bool
    ensures { result ≡ is_current path.now }
{
    match path {
        [name] => is_named_current(name.as_slice()),
        _ => false,
    }
}

/// Whether the step deletes the set as a whole by that name.
fn deletes_current(step: &TreeStep) -> bool
    ensures { result ≡ deletes_current (step_of step.now) }
{
    match step {
        TreeStep::DeleteKey { path } => is_current(path.as_slice()),
        TreeStep::SetValue { .. } => false,
        TreeStep::DeleteValue { .. } => false,
        TreeStep::MakeKey { .. } => false,
        TreeStep::CopyChild { .. } => false,
        TreeStep::AddChild { .. } => false,
    }
}

fn steps_in(alloc: Global, set: &[u16], steps: Steps) -> Result<SetSteps, AllocError>
    ensures { IfOk result (λ made. made_steps made ≡ steps_in set.now (map step_of steps)) }
{
    let mut made = Row::new(alloc);
    let mut rest = steps.into_vec().into_iter();
    'steps: while let Some(step) = rest.next() {
        if deletes_current(&step) {
            return Ok(SetSteps {
                steps: made,
                protected: true,
            });
        }
        made.push(step_in(alloc, set, step)?)?;
    }
    Ok(SetSteps {
        steps: made,
        protected: false,
    })
}

/// The steps with the name of the set of this number in place of `CurrentControlSet`, up to the first one that deletes the set as
/// a whole by that name.
pub fn set_steps(alloc: Global, number: u32, steps: Steps) -> Result<SetSteps, AllocError>
    requires { number ≤ 999 }
    ensures made { IfOk result (λ made. made_steps made ≡ set_steps number (map step_of steps)) }
    ensures fits { All Fits (map step_of steps) → IfOk result (λ made. All Fits (map step_of made.steps)) }
{
    let set = set_name(alloc, number)?;
    steps_in(alloc, set.as_slice(), steps)
}
