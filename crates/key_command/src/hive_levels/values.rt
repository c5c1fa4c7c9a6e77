//! The values of a key.

ghost use Rattle.hive_model.specs.Stands.{item_at, items_at, values_of};
ghost use Rattle.cell_forms.specs.Views.{node_seen};
ghost use Rattle.hive_cells.specs.Sources.{cells_of};
ghost use Rattle.key_command.specs.hive_levels.Reading.{Answers};

use crate::hive_levels::cells::{offsets_at, value_at};
use crate::hive_levels::data::data_of;
use cell_forms::NkSlice;
use hive_cells::Source;
use nt_bytes::ReadStop;
use reg_tree::{Value, Values};
use std::alloc::Global;

/// The value at an offset.
#[tactic(auto, unfolding(hive_model::specs::Stands::item_at))]
fn item_at(alloc: Global, cells: &Source, at: u32) -> Result<Value, ReadStop>
    ensures { Answers (λ v. v) (item_at (cells_of cells.now) at) result }
{
    let seen = value_at(cells, at)?;
    let form = seen.owned(alloc)?;
    let bytes = data_of(alloc, cells, &form)?;
    Ok(Value {
        name: form.name,
        kind: form.kind,
        bytes,
    })
}

/// The values at these offsets, in order.
fn items_at(alloc: Global, cells: &Source, offsets: &[u32]) -> Result<Values, ReadStop>
    ensures { Answers (λ v. v) (items_at (cells_of cells.now) offsets.now) result }
{
    let mut values = Values::new(alloc);
    let mut rest = offsets;
    'values: loop {
        let [at, more @ ..] = rest else {
            return Ok(values);
        };
        let value = item_at(alloc, cells, *at)?;
        values.push(value)?;
        rest = more;
    }
}

/// The values of a key, in order.
#[tactic(auto, unfolding(hive_model::specs::Stands::values_of))]
pub(crate) fn values_of(alloc: Global, cells: &Source, node: &NkSlice) -> Result<Values, ReadStop>
    ensures { Answers (λ v. v) (values_of (cells_of cells.now) (node_seen node.now)) result }
{
    if node.value_count == 0 {
        return Ok(Values::new(alloc));
    }
    let offsets = offsets_at(alloc, cells, node.value_count, node.value_list)?;
    items_at(alloc, cells, offsets.as_slice())
}
