//! The steps on the tree that the edits of a script are.

ghost use Rattle.std.specs.Prelude.{◌≡◌, ◌≤◌, IfOk};
ghost use Rattle.reg_tree.specs.Fitting.{Fits};
ghost use Rattle.reg_tree.specs.Makes.{step_of};
ghost use Rattle.start_model.specs.Events as book;

use crate::edit_steps::paths::{parted, resolved};
use nt_bytes::{Bytes, Names, Units};
use reg_tree::TreeStep;
use std::alloc::{AllocError, Global};

/// The step that writes a value. A set's number is at most 999.
pub fn set_step(
    alloc: Global,
    path: &Names,
    name: &Units,
    kind: u32,
    bytes: &Bytes,
    number: u32,
) -> Result<TreeStep, AllocError>
    requires { number ≤ 999 }
    ensures step { IfOk result (λ s. step_of s ≡ book.step_of number (book.Set path.now name.now kind bytes.now)) }
    ensures fits { IfOk result (λ s. Fits (step_of s)) }
{
    Ok(TreeStep::SetValue {
        path: resolved(alloc, path.as_slice(), number)?,
        name: name.copy(alloc)?,
        kind,
        bytes: bytes.copy(alloc)?,
    })
}

/// The step that deletes a value.
pub fn delete_step(
    alloc: Global,
    path: &Names,
    name: &Units,
    number: u32,
) -> Result<TreeStep, AllocError>
    requires { number ≤ 999 }
    ensures step { IfOk result (λ s. step_of s ≡ book.step_of number (book.Delete path.now name.now)) }
    ensures fits { IfOk result (λ s. Fits (step_of s)) }
{
    Ok(TreeStep::DeleteValue {
        path: resolved(alloc, path.as_slice(), number)?,
        name: name.copy(alloc)?,
    })
}

/// The step that makes the last key of a path.
pub fn make_step(alloc: Global, path: &Names, number: u32) -> Result<TreeStep, AllocError>
    requires { number ≤ 999 }
    ensures step { IfOk result (λ s. step_of s ≡ book.step_of number (book.Make path.now)) }
    ensures fits { IfOk result (λ s. Fits (step_of s)) }
{
    let path = resolved(alloc, path.as_slice(), number)?;
    let (parent, name) = parted(alloc, path.as_slice())?;
    Ok(TreeStep::MakeKey { parent, name })
}

/// The step that deletes a key and all below it.
pub fn remove_step(alloc: Global, path: &Names, number: u32) -> Result<TreeStep, AllocError>
    requires { number ≤ 999 }
    ensures step { IfOk result (λ s. step_of s ≡ book.step_of number (book.Remove path.now)) }
    ensures fits { IfOk result (λ s. Fits (step_of s)) }
{
    Ok(TreeStep::DeleteKey {
        path: resolved(alloc, path.as_slice(), number)?,
    })
}
