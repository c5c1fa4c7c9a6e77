//! The lines of a key with all below it. All go into one buffer, in their order.

ghost use Rattle.std.specs.Prelude.{◌≡◌, ◌++◌, codes, OnOk};
ghost use Rattle.std.specs.List.{flat_map};
ghost use Rattle.hive_model.specs.Tree.{trees, head};
ghost use Rattle.reg_text.specs.Writing.{value_text, key_text, keys_text, place_below};

use crate::values::{push_ascii, push_value};
use reg_tree::{Key, Value};
use std::alloc::{AllocError, Global};

fn push_values(alloc: Global, out: &mut Vec<u16>, values: &[Value]) -> Result<(), AllocError>
    ensures { OnOk result (out.new.items ≡ out.old.items ++ flat_map value_text values.now) }
{
    for value in values {
        push_value(alloc, out, value)?;
    }
    Ok(())
}

/// Puts a backslash and the name at the end.
pub fn push_part(place: &mut Vec<u16>, name: &[u16]) -> Result<(), AllocError>
    ensures { OnOk result (place.new.items ≡ place_below place.old.items name.now) }
{
    push_ascii(place, b"\\")?;
    place.extend_from_slice(name)
}

fn push_place(out: &mut Vec<u16>, place: &[u16]) -> Result<(), AllocError>
    ensures { OnOk result (out.new.items ≡ out.old.items ++ codes "[" ++ place.now ++ codes "]\r\n") }
{
    push_ascii(out, b"[")?;
    out.extend_from_slice(place)?;
    push_ascii(out, b"]\r\n")
}

/// Puts the key that is at this place and all below it at the end. The place grows on the way down, so
/// that it is made once.
#[cycle(push_key)]
pub fn push_key(
    alloc: Global,
    out: &mut Vec<u16>,
    place: &mut Vec<u16>,
    key: &Key,
) -> Result<(), AllocError>
    ensures text { OnOk result (out.new.items ≡ out.old.items ++ key_text place.old.items key.now) }
    ensures place { OnOk result (place.new.items ≡ place.old.items) }
{
    push_place(out, place.as_slice())?;
    push_values(alloc, out, key.values.as_slice())?;
    push_ascii(out, b"\r\n")?;
    push_keys(alloc, out, place, key.children.as_slice())
}

/// Puts a child of the key at this place at the end.
#[cycle(push_key)]
fn push_child(
    alloc: Global,
    out: &mut Vec<u16>,
    place: &mut Vec<u16>,
    key: &Key,
) -> Result<(), AllocError>
    ensures text { OnOk result (out.new.items ≡ out.old.items ++ key_text (place_below place.old.items (head key.now).name) key.now) }
    ensures place { OnOk result (place.new.items ≡ place.old.items) }
{
    let before = place.len();
    push_part(place, key.name())?;
    push_key(alloc, out, place, key)?;
    place.truncate(before);
    Ok(())
}

#[cycle(push_key)]
fn push_keys(
    alloc: Global,
    out: &mut Vec<u16>,
    place: &mut Vec<u16>,
    keys: &[Key],
) -> Result<(), AllocError>
    ensures text { OnOk result (out.new.items ≡ out.old.items ++ keys_text place.old.items (trees keys.now)) }
    ensures place { OnOk result (place.new.items ≡ place.old.items) }
{
    let mut rest = keys;
    'keys: loop {
        let [key, more @ ..] = rest else {
            return Ok(());
        };
        push_child(alloc, out, place, key)?;
        rest = more;
    }
}
