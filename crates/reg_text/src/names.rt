//! Whether all names of a tree can be in one line.

ghost use Rattle.std.specs.Prelude.{◌≡◌};
ghost use Rattle.std.specs.List.{list_any};
ghost use Rattle.hive_model.specs.Tree.{trees};
ghost use Rattle.reg_text.specs.Writing.{breaks, has_broken_value, has_broken_name, have_broken_names};

use nt_bytes::Units;
use reg_tree::{Key, Value};

/// Whether a unit 10 or 13 is in the text.
pub fn breaks(text: &[u16]) -> bool
    ensures { result ≡ breaks text.now }
{
    text.iter().any(|u| *u == 10 || *u == 13)
}

/// Whether one of the names can't be in one line.
pub fn has_broken_part(names: &[Units]) -> bool
    ensures { result ≡ list_any breaks names.now }
{
    let mut rest = names;
    'names: loop {
        let [name, more @ ..] = rest else {
            return false;
        };
        if breaks(name.as_slice()) {
            return true;
        }
        rest = more;
    }
}

fn has_broken_value(values: &[Value]) -> bool
    ensures { result ≡ has_broken_value values.now }
{
    let mut rest = values;
    'values: loop {
        let [value, more @ ..] = rest else {
            return false;
        };
        if breaks(value.name()) {
            return true;
        }
        rest = more;
    }
}

/// Whether a name below the key, or of its values, can't be in one line.
#[cycle(has_broken_name)]
pub fn has_broken_name(key: &Key) -> bool
    ensures { result ≡ has_broken_name key.now }
{
    has_broken_value(key.values.as_slice()) || have_broken_names(key.children.as_slice())
}

#[cycle(has_broken_name)]
fn have_broken_names(keys: &[Key]) -> bool
    ensures { result ≡ have_broken_names (trees keys.now) }
{
    let mut rest = keys;
    'keys: loop {
        let [key, more @ ..] = rest else {
            return false;
        };
        if breaks(key.name()) || has_broken_name(key) {
            return true;
        }
        rest = more;
    }
}
