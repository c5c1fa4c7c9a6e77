//! Keys with nothing but a name and children.

ghost use Rattle.std.specs.Prelude.{◌≡◌, [], ◌++◌, IfOk, OnOk};
ghost use Rattle.std.specs.Option.{option_to_list};
ghost use Rattle.set_commands.specs.hive_sets.Parts.{bare, of_two};

use nt_bytes::{Bytes, Units};
use reg_tree::{Key, Keys, Values};
use std::alloc::{AllocError, Global};

/// A key of this name with these children, and nothing else.
pub(crate) fn bare(alloc: Global, name: Units, children: Keys) -> Key
    ensures { result ≡ bare name children }
{
    Key {
        name,
        flags: 0,
        stamp: 0,
        class: Bytes::new(alloc),
        security: Bytes::new(alloc),
        values: Values::new(alloc),
        children,
    }
}

/// A key of this name alone.
pub(crate) fn named(alloc: Global, name: &[u16]) -> Result<Key, AllocError>
    ensures { IfOk result (λ k. k ≡ bare name.now []) }
{
    let name = Units::from_slice(alloc, name)?;
    Ok(bare(alloc, name, Keys::new(alloc)))
}

/// Appends a key, where it is there.
fn put(keys: &mut Keys, key: Option<Key>) -> Result<(), AllocError>
    ensures { OnOk result (keys.new ≡ keys.old ++ option_to_list key) }
{
    match key {
        Some(key) => keys.push(key),
        None => Ok(()),
    }
}

/// A key of this name with the one or two children that are there, and nothing else.
pub(crate) fn of_two(
    alloc: Global,
    name: &[u16],
    first: Option<Key>,
    second: Option<Key>,
) -> Result<Key, AllocError>
    ensures { IfOk result (λ k. k ≡ of_two name.now first second) }
{
    let name = Units::from_slice(alloc, name)?;
    let mut keys = Keys::new(alloc);
    put(&mut keys, first)?;
    put(&mut keys, second)?;
    Ok(bare(alloc, name, keys))
}
