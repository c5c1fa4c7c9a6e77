//! The objects of a key with all below it. All go into one buffer, in their order.

ghost use Rattle.std.specs.Prelude.{◌≡◌, ◌++◌, OnOk};
ghost use Rattle.hive_model.specs.Tree.{trees};
ghost use Rattle.tree_text.specs.TreeObjects.{lines_json, value_lines, key_lines, keys_lines};

use crate::object::{push_head, push_value};
use reg_tree::{Key, Value};
use std::alloc::{AllocError, Global};

fn push_values(
    alloc: Global,
    out: &mut Vec<u8>,
    level: u64,
    values: &[Value],
) -> Result<(), AllocError>
    ensures { OnOk result (out.new.items ≡ out.old.items ++ lines_json (value_lines level values.now)) }
{
    for value in values {
        push_value(alloc, out, level, value)?;
    }
    Ok(())
}

/// Puts the key of this level and all below it at the end.
#[cycle(push_key)]
pub fn push_key(alloc: Global, out: &mut Vec<u8>, level: u64, key: &Key) -> Result<(), AllocError>
    ensures { OnOk result (out.new.items ≡ out.old.items ++ lines_json (key_lines level key.now)) }
{
    push_head(out, level, key.name.as_slice())?;
    push_values(alloc, out, level, key.values.as_slice())?;
    push_keys(alloc, out, level.saturating_add(1), key.children.as_slice())
}

#[cycle(push_key)]
fn push_keys(alloc: Global, out: &mut Vec<u8>, level: u64, keys: &[Key]) -> Result<(), AllocError>
    ensures { OnOk result (out.new.items ≡ out.old.items ++ lines_json (keys_lines level (trees keys.now))) }
{
    let mut rest = keys;
    'keys: loop {
        let [key, more @ ..] = rest else {
            return Ok(());
        };
        push_key(alloc, out, level, key)?;
        rest = more;
    }
}
