//! Places of keys among siblings: found by binary search where the names rise, else by a scan.

ghost use Rattle.std.specs.Prelude.{◌≡◌, [], ◌∷◌, ◌++◌, IsTrue, find, not, position};
ghost use Rattle.std.specs.Option.{option_copied};
ghost use Rattle.std.specs.List.{position_or_len};
ghost use Rattle.std.specs.Ordering.{is_lt};
ghost use Rattle.nt_bytes.specs.Folding.{folded_order};
ghost use Rattle.hive_model.specs.Tree.{head, is_named};
ghost use Rattle.reg_tree.specs.Places.{folds_greater};
ghost use Rattle.reg_tree.specs.Rising.{AreRising};

use crate::key::Key;
use nt_bytes::{compare_folded, same_folded};

/// Where the first key with this name stands.
pub(crate) fn named_place(keys: &[Key], rising: bool, name: &[u16]) -> Option<usize>
    requires { IsTrue rising → AreRising keys.now }
    ensures { result ≡ position (is_named name.now) keys.now }
{
    if rising {
        halved_place(keys, name)
    } else {
        keys.iter().position(|k| same_folded(name, k.name()))
    }
}

/// The first key with this name.
pub(crate) fn named_key<'a>(keys: &'a [Key], rising: bool, name: &[u16]) -> Option<&'a Key>
    requires { IsTrue rising → AreRising keys.now }
    ensures { option_copied result ≡ find (is_named name.now) keys.now }
{
    match named_place(keys, rising, name) {
        Some(at) => keys.get(at),
        None => None,
    }
}

fn halved_place(keys: &[Key], name: &[u16]) -> Option<usize>
    requires { AreRising keys.now }
    ensures { result ≡ position (is_named name.now) keys.now }
{
    let low = keys.partition_point(|k| compare_folded(k.name(), name).is_lt());
    match keys.get(low) {
        Some(key) => {
            if same_folded(name, key.name()) {
                Some(low)
            } else {
                None
            }
        }
        None => None,
    }
}

/// Where the first key stands whose name folds greater, else the number of keys.
pub(crate) fn gap(keys: &[Key], rising: bool, name: &[u16]) -> usize
    requires { IsTrue rising → AreRising keys.now }
    ensures { result ≡ position_or_len (folds_greater name.now) keys.now }
{
    if rising {
        halved_gap(keys, name)
    } else {
        scanned_gap(keys, name)
    }
}

fn halved_gap(keys: &[Key], name: &[u16]) -> usize
    requires { AreRising keys.now }
    ensures { result ≡ position_or_len (folds_greater name.now) keys.now }
{
    keys.partition_point(|k| !compare_folded(k.name(), name).is_gt())
}

fn scanned_gap(keys: &[Key], name: &[u16]) -> usize
    ensures { result ≡ position_or_len (folds_greater name.now) keys.now }
{
    match greater_place(keys, name) {
        Some(at) => at,
        None => keys.len(),
    }
}

fn greater_place(keys: &[Key], name: &[u16]) -> Option<usize>
    ensures { result ≡ position (folds_greater name.now) keys.now }
{
    keys.iter()
        .position(|k| compare_folded(k.name(), name).is_gt())
}

/// Whether the names rise with one more after them.
pub(crate) fn still_rising(keys: &[Key], rising: bool, more: &Key) -> bool
    requires { IsTrue rising → AreRising keys.now }
    ensures { IsTrue result → AreRising (keys.now ++ more.now ∷ []) }
{
    if !rising {
        return false;
    }
    match keys.last() {
        Some(last) => may_follow(more, last),
        None => true,
    }
}

/// Whether a key's name may stand after another's.
fn may_follow(key: &Key, other: &Key) -> bool
    ensures { result ≡ not (is_lt (folded_order (head key.now).name (head other.now).name)) }
{
    !compare_folded(key.name(), other.name()).is_lt()
}
