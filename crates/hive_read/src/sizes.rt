//! How many bytes the packed cell takes of what has a name in a cell. Sums stay at the greatest number.

ghost use Rattle.std.specs.Prelude.{◌≡◌, ◌+◌};
ghost use Rattle.hive_model.specs.Size.{cell, name_bytes};
ghost use Rattle.nt_bytes.specs.Counts.{capped};
ghost use Rattle.cell_forms.specs.Views.{name_of};

use cell_forms::StoredName;
use reg_tree::sizes::cell_size;

fn stored_len(name: StoredName<'_>) -> u64
    ensures { result ≡ capped (name_bytes (name_of name.entry)) }
{
    let len = name.len() as u64;
    if name.is_low() {
        len
    } else {
        len.saturating_mul(2)
    }
}

/// The cell of a form of that many bytes and a name after them, which is in a cell.
#[tactic(auto, using(reg_tree::proofs::Sums::sums))]
pub(crate) fn stored_size(form: u64, name: StoredName<'_>) -> u64
    ensures { result ≡ capped (cell (form + name_bytes (name_of name.entry))) }
{
    cell_size(stored_len(name).saturating_add(form))
}
