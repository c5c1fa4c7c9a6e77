//! The keys and values that are there once steps were made.

ghost use Rattle.std.specs.Prelude.{◌≡◌, option_map, IfOk};
ghost use Rattle.std.specs.Option.{option_copied};
ghost use Rattle.import_steps.specs.Marks.{marked_child, base_child, child_by, below, look, marked_value, base_value, holds};
ghost use Rattle.import_steps.specs.Views.{seen_of};

use crate::marks::{Life, Marks};
use nt_bytes::Units;
use nt_names::name_places::folded;
use reg_tree::Key;
use std::alloc::{AllocError, Global};

/// A key: what is marked of it, if anything, and the key of the tree, if it is that one.
#[derive(Clone, Copy)]
pub(crate) struct Seen<'a> {
    pub(crate) marks: Option<&'a Marks>,
    pub(crate) base: Option<&'a Key>,
}

fn marked_child<'a>(
    alloc: Global,
    marks: Option<&'a Marks>,
    name: &[u16],
) -> Result<Option<&'a Marks>, AllocError>
    ensures { IfOk result (λ o. option_copied o ≡ marked_child name.now (option_copied marks.entry)) }
{
    let Some(marks) = marks else {
        return Ok(None);
    };
    let key = folded(alloc, name)?;
    Ok(marks.keys.get(key.as_slice()))
}

fn base_child<'a>(base: Option<&'a Key>, name: &[u16]) -> Option<&'a Key>
    ensures { option_copied result ≡ base_child name.now (option_copied base.entry) }
{
    match base {
        Some(key) => key.child(name),
        None => None,
    }
}

/// A child of the tree without marks.
fn unmarked<'a>(base: Option<&'a Key>) -> Option<Seen<'a>>
    ensures { option_map seen_of result ≡ child_by None (option_copied base.entry) }
{
    match base {
        Some(_) => Some(Seen { marks: None, base }),
        None => None,
    }
}

/// A child with marks, by where it comes from.
fn living<'a>(marks: &'a Marks, base: Option<&'a Key>) -> Option<Seen<'a>>
    ensures { option_map seen_of result ≡ child_by (Some marks.now) (option_copied base.entry) }
{
    match marks.life {
        Life::Kept => match base {
            Some(_) => Some(Seen {
                marks: Some(marks),
                base,
            }),
            None => None,
        },
        Life::Made => Some(Seen {
            marks: Some(marks),
            base: None,
        }),
        Life::Gone => None,
    }
}

fn child_by<'a>(marks: Option<&'a Marks>, base: Option<&'a Key>) -> Option<Seen<'a>>
    ensures { option_map seen_of result ≡ child_by (option_copied marks.entry) (option_copied base.entry) }
{
    match marks {
        Some(marks) => living(marks, base),
        None => unmarked(base),
    }
}

/// The child of this name.
pub(crate) fn child<'a>(
    alloc: Global,
    seen: Seen<'a>,
    name: &[u16],
) -> Result<Option<Seen<'a>>, AllocError>
    ensures { IfOk result (λ o. option_map seen_of o ≡ below name.now (seen_of seen.entry)) }
{
    let marks = marked_child(alloc, seen.marks, name)?;
    Ok(child_by(marks, base_child(seen.base, name)))
}

/// The key that the path leads to.
pub(crate) fn look<'a>(
    alloc: Global,
    seen: Seen<'a>,
    path: &[Units],
) -> Result<Option<Seen<'a>>, AllocError>
    ensures { IfOk result (λ o. option_map seen_of o ≡ look path.now (seen_of seen.entry)) }
{
    let [name, more @ ..] = path else {
        return Ok(Some(seen));
    };
    match child(alloc, seen, name.as_slice())? {
        Some(next) => look(alloc, next, more),
        None => Ok(None),
    }
}

fn marked_value(
    alloc: Global,
    marks: Option<&Marks>,
    name: &[u16],
) -> Result<Option<bool>, AllocError>
    ensures { IfOk result (λ o. o ≡ marked_value name.now (option_copied marks.entry)) }
{
    let Some(marks) = marks else {
        return Ok(None);
    };
    let key = folded(alloc, name)?;
    Ok(marks.values.get(key.as_slice()).copied())
}

fn base_value(base: Option<&Key>, name: &[u16]) -> bool
    ensures { result ≡ base_value name.now (option_copied base.entry) }
{
    match base {
        Some(key) => key.value(name).is_some(),
        None => false,
    }
}

/// Whether the key has a value of this name.
pub(crate) fn holds(alloc: Global, seen: Seen<'_>, name: &[u16]) -> Result<bool, AllocError>
    ensures { IfOk result (λ b. b ≡ holds name.now (seen_of seen.entry)) }
{
    match marked_value(alloc, seen.marks, name)? {
        Some(there) => Ok(there),
        None => Ok(base_value(seen.base, name)),
    }
}
