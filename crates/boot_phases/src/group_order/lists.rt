//! The values of `GroupOrderList`, each found by its name without a scan.

ghost use Rattle.std.specs.Prelude.{◌≡◌, map, option_and_then, IfOk};
ghost use Rattle.std.specs.Option.{option_copied};
ghost use Rattle.hive_model.specs.Tree.{find_item};
ghost use Rattle.start_model.specs.Order.{tag_bytes};
ghost use Rattle.boot_phases.specs.group_order.Values.{values_in};

use nt_bytes::{Names, Units};
use nt_names::name_places::NamePlaces;
use reg_tree::{Key, Value};
use std::alloc::{AllocError, Global};
use std::marker::Model;

/// The type of binary data.
const BINARY: u32 = 3;

/// The key `GroupOrderList`, where there is one, with the places of its values. Contracts see the key.
#[derive(Drop)]
pub(crate) struct TagLists<'a> {
    key: Option<&'a Key>,
    places: NamePlaces,
}

impl<'a> Model for TagLists<'a> {
    ghost use Rattle.std.specs.Prelude.{◌≡◌, Option, map};
    ghost use Rattle.std.specs.Coded.{coded_option};
    ghost use Rattle.std.specs.Option.{option_copied};
    ghost use Rattle.hive_model.specs.Tree.{Tree};
    ghost use Rattle.hive_model.specs.Codes.{coded_tree};
    ghost use Rattle.boot_phases.specs.group_order.Values.{values_in};

    ghost Value = { Option Tree };

    ghost coded = { coded_option coded_tree };

    ghost view = { λ a. option_copied a.key };

    ghost invariant = { λ a. a.places ≡ map (λ v. v.name) (values_in (option_copied a.key)) };
}

impl<'a> TagLists<'a> {
    /// The values of this key, or none without one. Takes n log n time in their number.
    pub(crate) fn new(alloc: Global, key: Option<&'a Key>) -> Result<TagLists<'a>, AllocError>
        ensures { IfOk result (λ l. l ≡ option_copied key.entry) }
    {
        let names = names_of(alloc, values_in(key))?;
        let places = NamePlaces::new(alloc, names)?;
        Ok(TagLists { key, places })
    }

    /// The bytes of the binary value of this name.
    pub(crate) fn bytes(&self, name: &[u16]) -> &'a [u8]
        ensures { result.now ≡ tag_bytes self.now name.now }
    {
        match self.value(name) {
            None => &[],
            Some(value) => if value.kind == BINARY {
                value.bytes.as_slice()
            } else {
                &[]
            },
        }
    }

    /// The first value of this name.
    fn value(&self, name: &[u16]) -> Option<&'a Value>
        ensures { option_copied result ≡ option_and_then (find_item name.now) self.now }
    {
        let place = self.places.place_of(name)?;
        values_in(self.key).get(place)
    }
}

fn values_in<'a>(key: Option<&'a Key>) -> &'a [Value]
    ensures { result.now ≡ values_in (option_copied key.entry) }
{
    match key {
        None => &[],
        Some(key) => key.values.as_slice(),
    }
}

/// The names of the values, in their order.
fn names_of(alloc: Global, values: &[Value]) -> Result<Names, AllocError>
    ensures { IfOk result (λ n. n ≡ map (λ v. v.name) values.now) }
{
    let mut names = Names::new(alloc);
    for value in values {
        names.push(Units::from_slice(alloc, value.name.as_slice())?)?;
    }
    Ok(names)
}
