//! What of the pairs of keys is only counted, and the whole.

ghost use Rattle.std.specs.Prelude.{◌≡◌, ◌++◌, [], count_by, OnOk};
ghost use Rattle.std.specs.Option.{option_copied, option_map_or};
ghost use Rattle.hive_model.specs.Tree.{head, trees};
ghost use Rattle.tree_diff.specs.Trees.{marks_of, key_marks, keys_marks, stamps_lines, flags_lines, marks_lines, trees_lines};

use crate::keys::tree_named;
use crate::walk::{by_key, put_key};
use answer_lines::diff_lines::{DiffLine, DiffLines};
use nt_bytes::Row;
use reg_tree::Key;
use std::alloc::{AllocError, Global};

/// What differs of two keys that is only counted.
#[derive(Drop)]
pub struct Marks {
    /// When they were written.
    pub stamp: bool,
    pub flags: bool,
}

fn marks_of(a: &Key, b: &Key) -> Marks
    ensures { result ≡ marks_of (head a.now) (head b.now) }
{
    Marks {
        stamp: a.stamp != b.stamp,
        flags: a.flags != b.flags,
    }
}

/// Appends the marks of two keys and of those below them.
#[cycle(put_marks)]
fn put_marks(alloc: Global, a: &Key, b: &Key, marks: &mut Row<Marks>) -> Result<(), AllocError>
    ensures { OnOk result (marks.new ≡ marks.old ++ key_marks a.now b.now) }
{
    marks.push(marks_of(a, b))?;
    put_all_marks(alloc, a.children.as_slice(), b.subkeys(), marks)
}

#[cycle(put_marks)]
fn put_all_marks(
    alloc: Global,
    keys: &[Key],
    others: &[Key],
    marks: &mut Row<Marks>,
) -> Result<(), AllocError>
    ensures { OnOk result (marks.new ≡ marks.old ++ keys_marks others.now (trees keys.now)) }
{
    let places = by_key(alloc, others)?;
    let mut rest = keys;
    'keys: loop {
        let [key, more @ ..] = rest else {
            return Ok(());
        };
        put_paired_marks(alloc, key, tree_named(others, &places, key), marks)?;
        rest = more;
    }
}

#[cycle(put_marks)]
fn put_paired_marks(
    alloc: Global,
    key: &Key,
    other: Option<&Key>,
    marks: &mut Row<Marks>,
) -> Result<(), AllocError>
    ensures { OnOk result (marks.new ≡ marks.old ++ option_map_or (key_marks key.now) (option_copied other.entry) []) }
{
    match other {
        Some(other) => put_marks(alloc, key, other, marks),
        None => Ok(()),
    }
}

fn stamps(marks: &[Marks]) -> u64
    ensures { result ≡ count_by (λ m. m.stamp) marks.now }
{
    let mut count: u64 = 0;
    for mark in marks {
        if mark.stamp {
            count += 1;
        }
    }
    count
}

fn flags(marks: &[Marks]) -> u64
    ensures { result ≡ count_by (λ m. m.flags) marks.now }
{
    let mut count: u64 = 0;
    for mark in marks {
        if mark.flags {
            count += 1;
        }
    }
    count
}

fn put_stamps(count: u64, lines: &mut DiffLines) -> Result<(), AllocError>
    ensures { OnOk result (lines.new ≡ lines.old ++ stamps_lines count) }
{
    if count == 0 {
        return Ok(());
    }
    lines.push(DiffLine::Stamps { count })
}

fn put_flags(count: u64, lines: &mut DiffLines) -> Result<(), AllocError>
    ensures { OnOk result (lines.new ≡ lines.old ++ flags_lines count) }
{
    if count == 0 {
        return Ok(());
    }
    lines.push(DiffLine::Flags { count })
}

fn put_counts(marks: &[Marks], lines: &mut DiffLines) -> Result<(), AllocError>
    ensures { OnOk result (lines.new ≡ lines.old ++ marks_lines marks.now) }
{
    put_stamps(stamps(marks), lines)?;
    put_flags(flags(marks), lines)
}

/// Appends what differs between the trees of two sets, key by key: exactly, but for the names of the sets' own keys. Takes n log n time.
#[tactic(auto, unfolding(crate::specs::Trees::trees_lines))]
pub fn put_trees(alloc: Global, a: &Key, b: &Key, lines: &mut DiffLines) -> Result<(), AllocError>
    ensures { OnOk result (lines.new ≡ lines.old ++ trees_lines a.now b.now) }
{
    let mut path = Vec::new(alloc);
    let mut marks = Row::new(alloc);
    put_key(alloc, true, &mut path, a, b, lines)?;
    put_marks(alloc, a, b, &mut marks)?;
    put_counts(marks.as_slice(), lines)
}
