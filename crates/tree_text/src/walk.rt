//! The lines of a key with all below it. All go into one buffer, in their order.

ghost use Rattle.std.specs.Prelude.{◌≡◌, ◌++◌, OnOk};
ghost use Rattle.hive_model.specs.Tree.{trees};
ghost use Rattle.tree_text.specs.TreeText.{values_text, key_text, keys_text};

use crate::line::{push_head, push_value};
use reg_tree::{Key, Value};
use std::alloc::AllocError;

fn push_values(out: &mut Vec<u8>, margin: &[u8], values: &[Value]) -> Result<(), AllocError>
    ensures { OnOk result (out.new.items ≡ out.old.items ++ values_text margin.now values.now) }
{
    for value in values {
        push_value(out, margin, value)?;
    }
    Ok(())
}

/// Puts the key and all below it at the end. The margin grows on the way down, so that it is made once.
#[cycle(push_key)]
pub fn push_key(out: &mut Vec<u8>, margin: &mut Vec<u8>, key: &Key) -> Result<(), AllocError>
    ensures text { OnOk result (out.new.items ≡ out.old.items ++ key_text margin.old.items key.now) }
    ensures margin { OnOk result (margin.new.items ≡ margin.old.items) }
{
    push_head(out, margin.as_slice(), key.name.as_slice())?;
    let before = margin.len();
    margin.extend_from_slice(b"  ")?;
    push_values(out, margin.as_slice(), key.values.as_slice())?;
    push_keys(out, margin, key.children.as_slice())?;
    margin.truncate(before);
    Ok(())
}

#[cycle(push_key)]
fn push_keys(out: &mut Vec<u8>, margin: &mut Vec<u8>, keys: &[Key]) -> Result<(), AllocError>
    ensures text { OnOk result (out.new.items ≡ out.old.items ++ keys_text margin.old.items (trees keys.now)) }
    ensures margin { OnOk result (margin.new.items ≡ margin.old.items) }
{
    let mut rest = keys;
    'keys: loop {
        let [key, more @ ..] = rest else {
            return Ok(());
        };
        push_key(out, margin, key)?;
        rest = more;
    }
}
