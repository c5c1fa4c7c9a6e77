//! The key that a path means.

ghost use Rattle.std.specs.Prelude.{◌≡◌, ◌∷◌, IfOk};
ghost use Rattle.hive_model.specs.Valid.{HoldsKeys};
ghost use Rattle.key_text.specs.Found.{means_current, default_path, true_path, spelled};

use nt_bytes::{Names, Units, same_folded};
use nt_names::startup_names::CURRENT_CONTROL_SET;
use reg_tree::Key;
use select_keys::{select_numbers, set_name, set_of};
use std::alloc::{AllocError, Global};

fn means_current(root: &Key, name: &[u16]) -> bool
    ensures { result ≡ means_current root.now name.now }
{
    same_folded(&CURRENT_CONTROL_SET, name) && !root.has_child(&CURRENT_CONTROL_SET)
}

/// The path with one more name before it.
fn path_from(alloc: Global, first: Units, rest: &[Units]) -> Result<Names, AllocError>
    ensures { IfOk result (λ path. path ≡ first ∷ rest.now) }
{
    let mut path = Names::new(alloc);
    path.push(first)?;
    for name in rest {
        path.push(name.copy(alloc)?)?;
    }
    Ok(path)
}

/// The path through the set that Default names, if it names one.
fn default_path(alloc: Global, root: &Key, rest: &[Units]) -> Result<Option<Names>, AllocError>
    requires { HoldsKeys root.now }
    ensures { IfOk result (λ path. path ≡ default_path root.now rest.now) }
{
    let number = select_numbers(root).default;
    if set_of(root, number).is_none() {
        return Ok(None);
    }
    Ok(Some(path_from(alloc, set_name(alloc, number)?, rest)?))
}

/// The path with the true set in place of `CurrentControlSet`; none where there is no such set. Each key of the tree must be one that a
/// hive can hold.
#[tactic(auto, unfolding(crate::specs::Found::true_path))]
pub fn true_path(alloc: Global, root: &Key, path: &Names) -> Result<Option<Names>, AllocError>
    requires { HoldsKeys root.now }
    ensures { IfOk result (λ found. found ≡ true_path root.now path.now) }
{
    let [first, rest @ ..] = path.as_slice() else {
        return Ok(Some(Names::new(alloc)));
    };
    if means_current(root, first.as_slice()) {
        return default_path(alloc, root, rest);
    }
    Ok(Some(path.copy(alloc)?))
}

/// The names of the keys to which a path leads, as they are spelled, as far as there are any.
pub fn spelled(alloc: Global, root: &Key, path: &Names) -> Result<Vec<Units>, AllocError>
    ensures { IfOk result (λ names. names.items ≡ spelled path.now root.now) }
{
    let mut names = Vec::new(alloc);
    let mut key = root;
    let mut rest = path.as_slice();
    'path: loop {
        let [name, more @ ..] = rest else {
            return Ok(names);
        };
        let Some(child) = key.child(name.as_slice()) else {
            return Ok(names);
        };
        names.push(child.name.copy(alloc)?)?;
        key = child;
        rest = more;
    }
}
