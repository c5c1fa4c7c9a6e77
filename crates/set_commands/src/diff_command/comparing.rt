//! What is printed of two sets.

ghost use Rattle.std.specs.Prelude.{◌≡◌, ◌==◌, ◌++◌, not, None, IfOk, IfSome, OnOk, if◌then◌else◌};
ghost use Rattle.std.specs.Option.{option_copied};
ghost use Rattle.hive_model.specs.Valid.{HoldsKeys};
ghost use Rattle.start_model.specs.Sets.{select_numbers_of};
ghost use Rattle.command_parts.specs.command_parts.Leaves.{stop_in};
ghost use Rattle.command_words.specs.Views.{diff_seen};
ghost use Rattle.set_commands.specs.hive_sets.Shows.{ShowsHive};
ghost use Rattle.set_commands.specs.diff_command.Answer.{finding_answer};
ghost use Rattle.set_commands.specs.diff_command.Compared.{both_trees, both_found, found_lines, lines_answer, first_number, same_number, other_number, same_answer, other_answer};
ghost use Rattle.set_commands.specs.diff_command.Read.{StandsFor};

use crate::diff_command::command::Finding;
use crate::hive_sets::{part, select_numbers};
use answer_lines::diff_lines::DiffLines;
use command_parts::command_parts::Status;
use command_words::DiffWords;
use diff_text::lines_text;
use hive_edit::HiveBytes;
use nt_bytes::Names;
use reg_tree::Key;
use report_text::line_text::ReportForm;
use select_keys::set_of;
use set_diff::{close, put_sets};
use std::alloc::{AllocError, Global};
use tree_diff::put_trees;

/// Appends the lines of the trees of two sets, where both are there.
fn put_both_trees(
    alloc: Global,
    first: Option<&Key>,
    second: Option<&Key>,
    lines: &mut DiffLines,
) -> Result<(), AllocError>
    ensures { OnOk result (lines.new ≡ lines.old ++ both_trees (option_copied first.entry) (option_copied second.entry)) }
{
    if let Some(first) = first
        && let Some(second) = second
    {
        return put_trees(alloc, first, second, lines);
    }
    Ok(())
}

/// Appends the lines of two sets of these numbers; with all keys and values, where that is asked for.
fn put_both_found(
    alloc: Global,
    all: bool,
    n: u32,
    first: Option<&Key>,
    m: u32,
    second: Option<&Key>,
    lines: &mut DiffLines,
) -> Result<(), AllocError>
    requires first { IfSome first (λ set. HoldsKeys set.now) }
    requires second { IfSome second (λ set. HoldsKeys set.now) }
    ensures { OnOk result (lines.new ≡ lines.old ++ both_found all n (option_copied first.entry) m (option_copied second.entry)) }
{
    put_sets(alloc, n, first, m, second, lines)?;
    if all {
        return put_both_trees(alloc, first, second, lines);
    }
    Ok(())
}

/// Appends the lines of the sets of two numbers, the first of one tree and the second of the other.
fn put_found(
    alloc: Global,
    all: bool,
    a: &Key,
    n: u32,
    b: &Key,
    m: u32,
    lines: &mut DiffLines,
) -> Result<(), AllocError>
    requires first { HoldsKeys a.now }
    requires second { HoldsKeys b.now }
    ensures { OnOk result (lines.new ≡ lines.old ++ found_lines all a.now n b.now m) }
{
    put_both_found(alloc, all, n, set_of(a, n), m, set_of(b, m), lines)
}

/// The status of what was found.
fn status_of(differences: u64) -> Status
    ensures same { result ≡ (if not (differences == 0) then Status.Found else Status.Done) }
    ensures ends { stop_in result ≡ None }
    ensures kept { result ≡ Status.Usage → ⊥ }
{
    if differences != 0 {
        Status::Found
    } else {
        Status::Done
    }
}

/// The lines in a form, with a status of their own where something differs.
fn finding_of(alloc: Global, form: ReportForm, lines: DiffLines) -> Result<Finding, AllocError>
    ensures answer { IfOk result (λ f. finding_answer f ≡ lines_answer form lines) }
    ensures ends { IfOk result (λ f. stop_in f.status ≡ None) }
    ensures kept { IfOk result (λ f. f.status ≡ Status.Usage → ⊥) }
{
    let closed = close(lines)?;
    let text = lines_text(alloc, form, closed.lines.as_slice())?;
    Ok(Finding {
        text,
        status: status_of(closed.differences),
    })
}

/// What is found of the sets of two numbers.
fn found(
    alloc: Global,
    form: ReportForm,
    all: bool,
    a: &Key,
    n: u32,
    b: &Key,
    m: u32,
) -> Result<Finding, AllocError>
    requires first { HoldsKeys a.now }
    requires second { HoldsKeys b.now }
    ensures answer { IfOk result (λ f. finding_answer f ≡ lines_answer form (found_lines all a.now n b.now m)) }
    ensures ends { IfOk result (λ f. stop_in f.status ≡ None) }
    ensures kept { IfOk result (λ f. f.status ≡ Status.Usage → ⊥) }
{
    let mut lines = DiffLines::new(alloc);
    put_found(alloc, all, a, n, b, m, &mut lines)?;
    finding_of(alloc, form, lines)
}

// ---- the numbers of the sets

/// The set that the next boot takes.
fn default_number(alloc: Global, hive: &HiveBytes) -> Result<u32, AllocError>
    ensures { IfOk result (λ n. n ≡ (select_numbers_of hive.now.tree).default) }
{
    Ok(select_numbers(alloc, hive)?.default)
}

fn good_number(alloc: Global, hive: &HiveBytes) -> Result<u32, AllocError>
    ensures { IfOk result (λ n. n ≡ (select_numbers_of hive.now.tree).good) }
{
    Ok(select_numbers(alloc, hive)?.good)
}

/// The set of the first hive.
fn first_number(alloc: Global, words: DiffWords<'_>, hive: &HiveBytes) -> Result<u32, AllocError>
    ensures { IfOk result (λ n. n ≡ first_number (diff_seen words.entry) hive.now.tree) }
{
    let number = default_number(alloc, hive)?;
    Ok(words.set.unwrap_or(number))
}

/// The second set in the same hive.
fn same_number(alloc: Global, words: DiffWords<'_>, hive: &HiveBytes) -> Result<u32, AllocError>
    ensures { IfOk result (λ n. n ≡ same_number (diff_seen words.entry) hive.now.tree) }
{
    let number = good_number(alloc, hive)?;
    Ok(words.with_set.unwrap_or(number))
}

/// The second set in a hive of its own.
fn other_number(alloc: Global, words: DiffWords<'_>, hive: &HiveBytes) -> Result<u32, AllocError>
    ensures { IfOk result (λ n. n ≡ other_number (diff_seen words.entry) hive.now.tree) }
{
    let number = default_number(alloc, hive)?;
    Ok(words.with_set.unwrap_or(number))
}

// ---- what is read of a hive

/// The whole tree.
fn whole(alloc: Global, hive: &HiveBytes) -> Result<Key, AllocError>
    ensures held { IfOk result HoldsKeys }
    ensures same { IfOk result (λ t. t ≡ hive.now.tree) }
{
    let top = Names::new(alloc);
    match hive.subtree(alloc, &top)? {
        Some(key) => Ok(key),
        None => unreachable!(),
    }
}

/// The part for the sets of these numbers.
fn part_of(alloc: Global, hive: &HiveBytes, numbers: &[u32]) -> Result<Key, AllocError>
    ensures held { IfOk result HoldsKeys }
    ensures shows { IfOk result (ShowsHive numbers.now hive.now.tree) }
{
    let root = part(alloc, hive, numbers)?;
    Ok(root)
}

/// What stands for a hive's tree where the sets of these numbers are compared; with all keys and values, the tree itself.
fn tree_for(alloc: Global, all: bool, hive: &HiveBytes, numbers: &[u32]) -> Result<Key, AllocError>
    ensures held { IfOk result HoldsKeys }
    ensures stands { IfOk result (StandsFor all numbers.now hive.now.tree) }
{
    if all {
        return whole(alloc, hive);
    }
    part_of(alloc, hive, numbers)
}

/// What is found of two sets of one hive.
pub(crate) fn found_alone(
    alloc: Global,
    form: ReportForm,
    words: DiffWords<'_>,
    hive: &HiveBytes,
) -> Result<Finding, AllocError>
    ensures answer { IfOk result (λ f. finding_answer f ≡ same_answer form (diff_seen words.entry) hive.now.tree) }
    ensures ends { IfOk result (λ f. stop_in f.status ≡ None) }
    ensures kept { IfOk result (λ f. f.status ≡ Status.Usage → ⊥) }
{
    let n = first_number(alloc, words, hive)?;
    let m = same_number(alloc, words, hive)?;
    let root = tree_for(alloc, words.all, hive, &[n, m])?;
    found(alloc, form, words.all, &root, n, &root, m)
}

/// What is found of sets of two hives.
pub(crate) fn found_between(
    alloc: Global,
    form: ReportForm,
    words: DiffWords<'_>,
    first: &HiveBytes,
    second: &HiveBytes,
) -> Result<Finding, AllocError>
    ensures answer { IfOk result (λ f. finding_answer f ≡ other_answer form (diff_seen words.entry) first.now.tree second.now.tree) }
    ensures ends { IfOk result (λ f. stop_in f.status ≡ None) }
    ensures kept { IfOk result (λ f. f.status ≡ Status.Usage → ⊥) }
{
    let n = first_number(alloc, words, first)?;
    let m = other_number(alloc, words, second)?;
    let a = tree_for(alloc, words.all, first, &[n])?;
    let b = tree_for(alloc, words.all, second, &[m])?;
    found(alloc, form, words.all, &a, n, &b, m)
}
