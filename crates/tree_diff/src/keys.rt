//! The children of two keys.

ghost use Rattle.std.specs.Prelude.{◌≡◌, ◌++◌, IfOk, OnOk};
ghost use Rattle.std.specs.Option.{option_copied};
ghost use Rattle.hive_model.specs.Tree.{head};
ghost use Rattle.tree_diff.specs.Heads.{key_names, tree_named, lone_key, lone_keys, both_lone_keys};

use crate::counting::key_count;
use answer_lines::diff_lines::{DiffLine, DiffLines, Side};
use nt_bytes::{Names, Units};
use nt_names::name_places::NamePlaces;
use reg_tree::Key;
use set_diff::lacks;
use std::alloc::{AllocError, Global};

/// The names of the keys.
pub(crate) fn key_names(alloc: Global, keys: &[Key]) -> Result<Names, AllocError>
    ensures { IfOk result (λ n. n ≡ key_names keys.now) }
{
    let mut names = Names::new(alloc);
    for key in keys {
        names.push(key.name.copy(alloc)?)?;
    }
    Ok(names)
}

/// The other key of this one's name.
pub(crate) fn tree_named<'a>(others: &'a [Key], places: &NamePlaces, key: &Key) -> Option<&'a Key>
    requires { places.now ≡ key_names others.now }
    ensures { option_copied result ≡ tree_named others.now (head key.now).name }
{
    let place = places.place_of(key.name())?;
    others.get(place)
}

fn put_lone(
    alloc: Global,
    side: Side,
    path: &[Units],
    keys: &[Key],
    others: &NamePlaces,
    lines: &mut DiffLines,
) -> Result<(), AllocError>
    ensures { OnOk result (lines.new ≡ lines.old ++ lone_keys side path.now keys.now others.now) }
{
    for key in keys {
        put_lone_key(alloc, side, path, key, others, lines)?;
    }
    Ok(())
}

fn put_lone_key(
    alloc: Global,
    side: Side,
    path: &[Units],
    key: &Key,
    others: &NamePlaces,
    lines: &mut DiffLines,
) -> Result<(), AllocError>
    ensures { OnOk result (lines.new ≡ lines.old ++ lone_key side path.now others.now key.now) }
{
    if !lacks(others, &key.name) {
        return Ok(());
    }
    let mut path = Names::from_slice(alloc, path)?;
    path.push(key.name.copy(alloc)?)?;
    let keys = key_count(key);
    lines.push(DiffLine::KeyOnly { side, keys, path })
}

/// Appends the children that one of two keys alone has. `by_a` and `by_b` are the places of the children's names.
pub(crate) fn put_both_lone(
    alloc: Global,
    path: &[Units],
    a: &[Key],
    by_a: &NamePlaces,
    b: &[Key],
    by_b: &NamePlaces,
    lines: &mut DiffLines,
) -> Result<(), AllocError>
    requires first { by_a.now ≡ key_names a.now }
    requires second { by_b.now ≡ key_names b.now }
    ensures { OnOk result (lines.new ≡ lines.old ++ both_lone_keys path.now a.now b.now) }
{
    put_lone(alloc, Side::First, path, a, by_b, lines)?;
    put_lone(alloc, Side::Second, path, b, by_a, lines)
}
