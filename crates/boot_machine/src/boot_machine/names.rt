//! The names that were tried.

ghost use Rattle.std.specs.Prelude.{◌≡◌, ◌<◌, ◌++◌, ◌∷◌, [], vec_len, vec_capacity, OnOk, OnErr};
ghost use Rattle.nt_bytes.specs.Folding.{folded};

use boot_phases::service_entries::Entry;
use nt_bytes::Units;
use nt_names::name_places::folded;
use std::alloc::{AllocError, Global};

/// Puts a name after the others, where there is room.
fn put(names: &mut Vec<Units>, name: Units)
    requires { vec_len names.old < vec_capacity names.old }
    ensures { names.new.items ≡ names.old.items ++ name ∷ [] }
{
    match names.push(name) {
        Ok(()) => {}
        Err(_) => unreachable!(),
    }
}

/// Notes the name of an entry as tried.
pub(crate) fn note(alloc: Global, tried: &mut Vec<Units>, entry: &Entry) -> Result<(), AllocError>
    ensures tried { OnOk result (tried.new.items ≡ tried.old.items ++ folded entry.now.name ∷ []) }
    ensures kept { OnErr result (tried.new.items ≡ tried.old.items) }
{
    let name = folded(alloc, entry.name.as_slice())?;
    tried.reserve(1)?;
    put(tried, name);
    Ok(())
}
