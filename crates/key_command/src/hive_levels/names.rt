//! Children by name.

ghost use Rattle.std.specs.Prelude.{◌≡◌};
ghost use Rattle.nt_bytes.specs.Folding.{folds_same};
ghost use Rattle.nt_bytes.specs.Text.{wide_of};
ghost use Rattle.cell_forms.specs.Views.{name_of};
ghost use Rattle.hive_cells.specs.Sources.{cells_of};
ghost use Rattle.key_command.specs.hive_levels.Reading.{Answers, first_named};

use crate::hive_levels::cells::node_at;
use cell_forms::StoredName;
use hive_cells::Source;
use nt_bytes::{ReadStop, fold};

/// Whether a name and one that is stored with one byte a unit fold to one.
fn same_narrow(name: &[u16], stored: &[u8]) -> bool
    ensures { result ≡ folds_same name.now stored.now }
{
    let mut xs = name;
    let mut ys = stored;
    'units: loop {
        let [x, more_xs @ ..] = xs else {
            return ys.is_empty();
        };
        let [y, more_ys @ ..] = ys else {
            return false;
        };
        if fold(*x) != fold(u16::from(*y)) {
            return false;
        }
        xs = more_xs;
        ys = more_ys;
    }
}

/// Whether a name and one that is stored with two bytes a unit fold to one.
fn same_wide(name: &[u16], stored: &[u8]) -> bool
    ensures { result ≡ folds_same name.now (wide_of stored.now) }
{
    let mut xs = name;
    let mut ys = stored;
    'units: loop {
        let [low, high, more_ys @ ..] = ys else {
            return xs.is_empty();
        };
        let [x, more_xs @ ..] = xs else {
            return false;
        };
        if fold(*x) != fold(u16::from_le_bytes([*low, *high])) {
            return false;
        }
        xs = more_xs;
        ys = more_ys;
    }
}

fn same_stored(name: &[u16], stored: StoredName<'_>) -> bool
    ensures { result ≡ folds_same name.now (name_of stored.entry) }
{
    if stored.is_narrow {
        same_narrow(name, stored.bytes)
    } else {
        same_wide(name, stored.bytes)
    }
}

/// The first of these offsets at which the key has a name, letters of either case taken for one.
pub(crate) fn first_named(
    cells: &Source,
    name: &[u16],
    offsets: &[u32],
) -> Result<Option<u32>, ReadStop>
    ensures { Answers (λ o. o) (first_named (cells_of cells.now) name.now offsets.now) result }
{
    let mut rest = offsets;
    'offsets: loop {
        let [at, more @ ..] = rest else {
            return Ok(None);
        };
        let node = node_at(cells, *at)?;
        if same_stored(name, node.name) {
            return Ok(Some(*at));
        }
        rest = more;
    }
}
