//! How much was salvaged, and how much is lost.

ghost use Rattle.std.specs.Prelude.{◌≡◌, ◌≤◌, ◌+◌, length, if◌then◌else◌};
ghost use Rattle.std.specs.List.{list_any};
ghost use Rattle.hive_model.specs.Tree.{trees, key_count, keys_count, item_count, items_count};
ghost use Rattle.nt_bytes.specs.Counts.{capped};
ghost use Rattle.salvage_text.specs.Counts.{is_fault, is_loss, is_said_fault, is_said_loss, keys_in, losses, said_losses, values_in};

use reg_tree::Key;
use salvage_parents::ParentLine;
use salvage_walk::WalkLine;

// How many keys a tree has.
#[cycle(keys_of)]
fn keys_of(tree: &Key) -> u64
    ensures { result ≡ capped (key_count tree.now) }
{
    keys_of_all(tree.subkeys()).saturating_add(1)
}

#[cycle(keys_of)]
fn keys_of_all(keys: &[Key]) -> u64
    ensures { result ≡ capped (keys_count (trees keys.now)) }
{
    let mut found = 0_u64;
    let mut rest = keys;
    'keys: loop {
        let [key, more @ ..] = rest else {
            return found;
        };
        found = found.saturating_add(keys_of(key));
        rest = more;
    }
}

// How many values a tree has.
#[cycle(values_of)]
fn values_of(tree: &Key) -> u64
    ensures { result ≡ capped (item_count tree.now) }
{
    let own = tree.items().len() as u64;
    own.saturating_add(values_of_all(tree.subkeys()))
}

#[cycle(values_of)]
fn values_of_all(keys: &[Key]) -> u64
    ensures { result ≡ capped (items_count (trees keys.now)) }
{
    let mut found = 0_u64;
    let mut rest = keys;
    'keys: loop {
        let [key, more @ ..] = rest else {
            return found;
        };
        found = found.saturating_add(values_of(key));
        rest = more;
    }
}

pub(crate) fn keys_in(tree: &Option<Key>) -> u64
    ensures { result ≡ keys_in tree.now }
{
    match tree {
        Some(tree) => keys_of(tree),
        None => 0,
    }
}

pub(crate) fn values_in(tree: &Option<Key>) -> u64
    ensures { result ≡ values_in tree.now }
{
    match tree {
        Some(tree) => values_of(tree),
        None => 0,
    }
}

// Does the line say that a part is left out, or is a list that is too short?
fn is_loss(line: &WalkLine) -> bool
    ensures { result ≡ is_loss line.now }
{
    match line {
        WalkLine::Root(_) => true,
        WalkLine::RootAt(_) => false,
        WalkLine::NoRoot => false,
        WalkLine::Key(_, _) => true,
        WalkLine::KeyAt(_, _, _) => true,
        WalkLine::Part(_, _, _) => true,
        WalkLine::Value(_, _, _) => true,
        WalkLine::ValueAt(_, _, _) => true,
        WalkLine::Nothing(_, _) => false,
    }
}

fn is_fault(line: &WalkLine) -> bool
    ensures { result ≡ is_fault line.now }
{
    match line {
        WalkLine::Root(_) => true,
        WalkLine::RootAt(_) => false,
        WalkLine::NoRoot => false,
        WalkLine::Key(_, _) => true,
        WalkLine::KeyAt(_, _, _) => true,
        WalkLine::Part(_, _, _) => true,
        WalkLine::Value(_, _, _) => true,
        WalkLine::ValueAt(_, _, _) => true,
        WalkLine::Nothing(_, _) => true,
    }
}

fn one_if(is: bool) -> u64
    ensures exact { result ≡ (if is then 1 else 0) }
    ensures small { result ≤ 1 }
{
    if is { 1 } else { 0 }
}

fn walk_losses(lines: &[WalkLine]) -> u64
    ensures exact { result ≡ losses lines.now }
    ensures few { result ≤ length lines.now }
{
    let mut lost = 0;
    let mut rest = lines;
    'lines: loop {
        let [line, more @ ..] = rest else {
            return lost;
        };
        lost += one_if(is_loss(line));
        rest = more;
    }
}

// Does a line that is printed while keys are looked for by their parents say that a part is left out?
fn is_said_loss(line: &ParentLine) -> bool
    ensures { result ≡ is_said_loss line.now }
{
    match line {
        ParentLine::Walked(line) => is_loss(line),
        ParentLine::Found(_, _) => false,
    }
}

fn is_said_fault(line: &ParentLine) -> bool
    ensures { result ≡ is_said_fault line.now }
{
    match line {
        ParentLine::Walked(line) => is_fault(line),
        ParentLine::Found(_, _) => false,
    }
}

fn said_losses(lines: &[ParentLine]) -> u64
    ensures exact { result ≡ said_losses lines.now }
    ensures few { result ≤ length lines.now }
{
    let mut lost = 0;
    let mut rest = lines;
    'lines: loop {
        let [line, more @ ..] = rest else {
            return lost;
        };
        lost += one_if(is_said_loss(line));
        rest = more;
    }
}

/// How many parts are left out, or are lists that are too short.
pub(crate) fn losses(lines: &[WalkLine], said: &[ParentLine]) -> u64
    ensures { result ≡ losses lines.now + said_losses said.now }
{
    walk_losses(lines) + said_losses(said)
}

pub(crate) fn has_said_fault(lines: &[ParentLine]) -> bool
    ensures { result ≡ list_any is_said_fault lines.now }
{
    for line in lines {
        if is_said_fault(line) {
            return true;
        }
    }
    false
}

pub(crate) fn has_fault(lines: &[WalkLine]) -> bool
    ensures { result ≡ list_any is_fault lines.now }
{
    for line in lines {
        if is_fault(line) {
            return true;
        }
    }
    false
}
