//! What is to be done with a step, and what is marked of it.

ghost use Rattle.std.specs.Prelude.{◌≡◌, IfOk};
ghost use Rattle.std.specs.Option.{is_some};
ghost use Rattle.hive_model.specs.Edit.{set_value, delete_value, make_key, delete_key};
ghost use Rattle.reg_tree.specs.Makes.{step_of};
ghost use Rattle.import_steps.specs.Marks.{look, IsMarked};
ghost use Rattle.import_steps.specs.Verdict.{holds_at, has_below, verdict_of, IsGoneAt, IsMadeBelow, IsMarkedBy};
ghost use Rattle.import_steps.specs.Views.{seen_of, seen_in};

use crate::marks::{Life, Mark, Marks, marked};
use crate::seen::{Seen, child, holds, look};
use nt_bytes::{Names, Units};
use reg_tree::{
    Key, LONGEST_DATA, LONGEST_KEY_NAME, LONGEST_VALUE_NAME, MOST_PARENTS, TreeStep, is_bad_name,
};
use std::alloc::{AllocError, Global};

/// What is to be done with a step.
#[derive(Clone, Copy, Debug, PartialEq, Eq)]
pub(crate) enum Verdict {
    /// It deletes what isn't there, and is passed over.
    Void,
    /// It is refused, or copies or adds a whole child: nothing after it is judged.
    Ends,
    /// It is made.
    Made,
}

// ---- verdicts

fn has_key(alloc: Global, seen: Seen<'_>, path: &[Units]) -> Result<bool, AllocError>
    ensures { IfOk result (λ b. b ≡ is_some (look path.now (seen_of seen.entry))) }
{
    Ok(look(alloc, seen, path)?.is_some())
}

fn holds_at(alloc: Global, seen: Seen<'_>, path: &[Units], name: &[u16]) -> Result<bool, AllocError>
    ensures { IfOk result (λ b. b ≡ holds_at path.now name.now (seen_of seen.entry)) }
{
    match look(alloc, seen, path)? {
        Some(key) => holds(alloc, key, name),
        None => Ok(false),
    }
}

fn has_below(
    alloc: Global,
    seen: Seen<'_>,
    parent: &[Units],
    name: &[u16],
) -> Result<bool, AllocError>
    ensures { IfOk result (λ b. b ≡ has_below parent.now name.now (seen_of seen.entry)) }
{
    match look(alloc, seen, parent)? {
        Some(key) => Ok(child(alloc, key, name)?.is_some()),
        None => Ok(false),
    }
}

fn set_verdict(
    alloc: Global,
    seen: Seen<'_>,
    path: &[Units],
    name: &[u16],
    bytes: &[u8],
) -> Result<Verdict, AllocError>
    ensures { IfOk result (λ v. v ≡ verdict_of (set_value path.now name.now 0 bytes.now) (seen_of seen.entry)) }
{
    if !has_key(alloc, seen, path)? {
        return Ok(Verdict::Ends);
    }
    if name.len() > LONGEST_VALUE_NAME {
        return Ok(Verdict::Ends);
    }
    if bytes.len() > LONGEST_DATA {
        return Ok(Verdict::Ends);
    }
    Ok(Verdict::Made)
}

fn unset_verdict(
    alloc: Global,
    seen: Seen<'_>,
    path: &[Units],
    name: &[u16],
) -> Result<Verdict, AllocError>
    ensures { IfOk result (λ v. v ≡ verdict_of (delete_value path.now name.now) (seen_of seen.entry)) }
{
    if holds_at(alloc, seen, path, name)? {
        Ok(Verdict::Made)
    } else {
        Ok(Verdict::Void)
    }
}

fn make_verdict(
    alloc: Global,
    seen: Seen<'_>,
    parent: &[Units],
    name: &[u16],
) -> Result<Verdict, AllocError>
    ensures { IfOk result (λ v. v ≡ verdict_of (make_key parent.now name.now) (seen_of seen.entry)) }
{
    if !has_key(alloc, seen, parent)? {
        return Ok(Verdict::Ends);
    }
    if is_bad_name(name) {
        return Ok(Verdict::Ends);
    }
    if name.len() > LONGEST_KEY_NAME {
        return Ok(Verdict::Ends);
    }
    if parent.len() > MOST_PARENTS {
        return Ok(Verdict::Ends);
    }
    Ok(Verdict::Made)
}

fn delete_verdict(alloc: Global, seen: Seen<'_>, path: &[Units]) -> Result<Verdict, AllocError>
    ensures { IfOk result (λ v. v ≡ verdict_of (delete_key path.now) (seen_of seen.entry)) }
{
    if path.is_empty() {
        return Ok(Verdict::Ends);
    }
    if has_key(alloc, seen, path)? {
        Ok(Verdict::Made)
    } else {
        Ok(Verdict::Void)
    }
}

pub(crate) fn judged(alloc: Global, seen: Seen<'_>, step: &TreeStep) -> Result<Verdict, AllocError>
    ensures { IfOk result (λ v. v ≡ verdict_of (step_of step.now) (seen_of seen.entry)) }
{
    match step {
        TreeStep::SetValue {
            path,
            name,
            bytes,
            ..
        } => set_verdict(
            alloc,
            seen,
            path.as_slice(),
            name.as_slice(),
            bytes.as_slice(),
        ),
        TreeStep::DeleteValue { path, name } => {
            unset_verdict(alloc, seen, path.as_slice(), name.as_slice())
        }
        TreeStep::MakeKey { parent, name } => {
            make_verdict(alloc, seen, parent.as_slice(), name.as_slice())
        }
        TreeStep::DeleteKey { path } => delete_verdict(alloc, seen, path.as_slice()),
        TreeStep::CopyChild { .. } => Ok(Verdict::Ends),
        TreeStep::AddChild { .. } => Ok(Verdict::Ends),
    }
}

// ---- marks

/// What is seen with these marks of a tree.
pub(crate) fn seen_with<'a>(marks: &'a Marks, tree: &'a Key) -> Seen<'a>
    ensures { seen_of result ≡ seen_in marks.now tree.now }
{
    Seen {
        marks: Some(marks),
        base: Some(tree),
    }
}

fn mark_value(
    alloc: Global,
    marks: Marks,
    path: &Names,
    name: &Units,
    there: bool,
) -> Result<Marks, AllocError>
    ensures { IfOk result (IsMarked path.now (Mark.Value name.now there) marks) }
{
    let name = name.copy(alloc)?;
    marked(alloc, marks, path.as_slice(), Mark::Value { name, there })
}

fn mark_key(
    alloc: Global,
    marks: Marks,
    parent: &[Units],
    name: &[u16],
    life: Life,
) -> Result<Marks, AllocError>
    ensures { IfOk result (IsMarked parent.now (Mark.Key name.now life) marks) }
{
    let name = Units::from_slice(alloc, name)?;
    marked(alloc, marks, parent, Mark::Key { name, life })
}

fn mark_made(
    alloc: Global,
    marks: Marks,
    tree: &Key,
    parent: &[Units],
    name: &[u16],
) -> Result<Marks, AllocError>
    ensures { IfOk result (IsMadeBelow (has_below parent.now name.now (seen_in marks tree.now)) parent.now name.now marks) }
{
    if has_below(alloc, seen_with(&marks, tree), parent, name)? {
        return Ok(marks);
    }
    mark_key(alloc, marks, parent, name, Life::Made)
}

fn mark_gone(alloc: Global, marks: Marks, path: &[Units]) -> Result<Marks, AllocError>
    ensures { IfOk result (IsGoneAt path.now marks) }
{
    let [parent @ .., name] = path else {
        return Ok(marks);
    };
    mark_key(alloc, marks, parent, name.as_slice(), Life::Gone)
}

/// The marks after a step of a text.
pub(crate) fn marked_by(
    alloc: Global,
    marks: Marks,
    tree: &Key,
    step: &TreeStep,
) -> Result<Marks, AllocError>
    ensures { IfOk result (IsMarkedBy (step_of step.now) tree.now marks) }
{
    match step {
        TreeStep::SetValue { path, name, .. } => mark_value(alloc, marks, path, name, true),
        TreeStep::DeleteValue { path, name } => mark_value(alloc, marks, path, name, false),
        TreeStep::MakeKey { parent, name } => {
            mark_made(alloc, marks, tree, parent.as_slice(), name.as_slice())
        }
        TreeStep::DeleteKey { path } => mark_gone(alloc, marks, path.as_slice()),
        TreeStep::CopyChild { .. } => Ok(marks),
        TreeStep::AddChild { .. } => Ok(marks),
    }
}
