//! Items by their places.

ghost use Rattle.std.specs.Prelude.{◌≡◌, ◌++◌, [], nat_eq, position, IfOk, OnOk};
ghost use Rattle.std.specs.Option.{option_to_list};
ghost use Rattle.indexmap.specs.IndexSet.{insert_all};
ghost use Rattle.why_lacks.specs.why_cycle.Needs.{places_in};

use indexmap::IndexSet;
use nt_bytes::Row;
use std::alloc::{AllocError, Global};

/// The numbers, each once.
pub(crate) fn items_of(alloc: Global, numbers: &[usize]) -> Result<IndexSet<usize>, AllocError>
    ensures { IfOk result (λ items. items.keys ≡ insert_all nat_eq [] numbers.now) }
{
    let mut items = IndexSet::new(alloc);
    put_all(numbers, &mut items)?;
    Ok(items)
}

/// Puts those after the others that are not there.
fn put_all(numbers: &[usize], items: &mut IndexSet<usize>) -> Result<(), AllocError>
    ensures { OnOk result (items.new.keys ≡ insert_all nat_eq items.old.keys numbers.now) }
{
    let mut rest = numbers;
    'number: loop {
        let [number, more @ ..] = rest else {
            return Ok(());
        };
        items.insert(*number)?;
        rest = more;
    }
}

/// Puts the place of an item after the others.
fn push_place(
    items: &IndexSet<usize>,
    number: usize,
    out: &mut Row<usize>,
) -> Result<(), AllocError>
    ensures { OnOk result (out.new ≡ out.old ++ option_to_list (position (nat_eq number) items.now.keys)) }
{
    match items.get_index_of(&number) {
        Some(place) => out.push(place),
        None => Ok(()),
    }
}

/// The places of items.
pub(crate) fn places_in(
    alloc: Global,
    items: &IndexSet<usize>,
    numbers: &[usize],
) -> Result<Row<usize>, AllocError>
    ensures { IfOk result (λ out. out ≡ places_in items.now.keys numbers.now) }
{
    let mut out = Row::new(alloc);
    for number in numbers {
        push_place(items, *number, &mut out)?;
    }
    Ok(out)
}
