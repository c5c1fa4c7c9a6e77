//! The values of a key.

ghost use Rattle.std.specs.Prelude.{◌≡◌, ℕ, List, [], ◌||◌, Ok, IfOk};
ghost use Rattle.nt_bytes.specs.Folding.{folds_same};
ghost use Rattle.hive_cells.specs.Sources.{cells_of};
ghost use Rattle.hive_model.specs.Walk.{value_checks, values_in_turn, values_checks};
ghost use Rattle.hive_model.specs.Stands.{item_at, items_at, values_of};
ghost use Rattle.cell_forms.specs.Views.{node_seen};
ghost use Rattle.hive_read.specs.Taken.{has_name, Knows};
ghost use Rattle.hive_read.specs.Walked.{walk, Steps};

use crate::data::read_data;
use crate::taken::Taken;
use crate::used::Used;
use crate::uses::{take_name, use_offsets, use_value};
use cell_forms::NkSlice;
use hive_cells::Source;
use nt_bytes::ReadStop;
use reg_tree::{Value, Values};
use std::alloc::Global;

fn read_value<'a>(
    alloc: Global,
    cells: &Source<'a>,
    used: &mut Used,
    taken: &mut Taken<'a>,
    at: u32,
) -> Result<Value, ReadStop>
    ensures walked { (names : List (List ℕ)) → Knows taken.old names →
        Steps (λ v. item_at (cells_of cells.now) at ≡ Ok v)
        (walk (cells_of cells.now) used.old (value_checks (cells_of cells.now) names at)) used.new result }
    ensures known { IfOk result (λ v. (n : List ℕ) → has_name taken.new n ≡ (has_name taken.old n || folds_same n v.name)) }
{
    let seen = use_value(cells, used, at)?;
    take_name(alloc, taken, seen.name, at)?;
    let form = seen.owned(alloc)?;
    let bytes = read_data(alloc, cells, used, &form)?;
    Ok(Value {
        name: form.name,
        kind: form.kind,
        bytes,
    })
}

fn read_in_turn(
    alloc: Global,
    cells: &Source,
    used: &mut Used,
    offsets: &[u32],
) -> Result<Values, ReadStop>
    ensures { Steps (λ vs. items_at (cells_of cells.now) offsets.now ≡ Ok vs)
        (walk (cells_of cells.now) used.old (values_in_turn (cells_of cells.now) [] offsets.now)) used.new result }
{
    let mut taken = Taken::new(alloc);
    let mut values = Values::new(alloc);
    let mut rest = offsets;
    'values: loop {
        let [at, more @ ..] = rest else {
            return Ok(values);
        };
        let value = read_value(alloc, cells, used, &mut taken, *at)?;
        values.push(value)?;
        rest = more;
    }
}

/// The values of a key, in order.
#[tactic(auto, using(crate::proofs::ValueWalks::values_steps))]
pub(crate) fn read_values(
    alloc: Global,
    cells: &Source,
    used: &mut Used,
    node: &NkSlice,
) -> Result<Values, ReadStop>
    ensures { Steps (λ vs. values_of (cells_of cells.now) (node_seen node.now) ≡ Ok vs)
        (walk (cells_of cells.now) used.old (values_checks (cells_of cells.now) (node_seen node.now))) used.new result }
{
    if node.value_count == 0 {
        return Ok(Values::new(alloc));
    }
    let offsets = use_offsets(alloc, cells, used, node.value_count, node.value_list)?;
    read_in_turn(alloc, cells, used, offsets.as_slice())
}
