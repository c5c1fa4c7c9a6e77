//! Values in slots that a map names.

ghost use Rattle.std.specs.Prelude.{◌≡◌, [], ◌∷◌, ◌++◌, IfErr, IfOk, OnOk, None, find};
ghost use Rattle.std.specs.Option.{is_some};
ghost use Rattle.nt_bytes.specs.Folding.{folded};
ghost use Rattle.hive_model.specs.Tree.{is_item};
ghost use Rattle.hive_model.specs.Edit.{with_item, without_first};
ghost use Rattle.tree_draft.specs.Slots.{given};
ghost use Rattle.tree_draft.specs.Stops.{RefusesNothing};

use crate::stop::DraftStop;
use nt_bytes::{Bytes, Units};
use nt_names::name_places::folded;
use reg_tree::{Value, Values};
use std::alloc::{AllocError, Global};
use std::collections::BTreeMap;
use std::marker::Model;
use std::mem::replace;

/// Values by their names. No two names fold to one.
#[derive(Drop)]
pub(crate) struct OpenValues {
    /// The values in order. The slot of a deleted one is empty.
    slots: Vec<Option<Value>>,
    /// The slot of each value by its folded name.
    places: BTreeMap<Vec<u16>, usize>,
}

impl Model for OpenValues {
    ghost use Rattle.std.specs.Prelude.{List};
    ghost use Rattle.hive_model.specs.Tree.{Item};
    ghost use Rattle.hive_model.specs.Codes.{coded_items};
    ghost use Rattle.tree_draft.specs.Slots.{held, IsIndexOf};

    ghost Value = { List Item };

    ghost coded = { coded_items };

    ghost view = { λ a. held a.slots.items };

    ghost invariant = { λ a. IsIndexOf a.slots.items a.places };
}

impl OpenValues {
    /// `Disorder` where two names fold to one.
    pub(crate) fn of(alloc: Global, values: Values) -> Result<OpenValues, DraftStop>
        ensures opened { IfOk result (λ o. o ≡ values) }
        ensures stopped { IfErr result RefusesNothing }
    {
        let mut open = OpenValues {
            slots: Vec::new(alloc),
            places: BTreeMap::new(alloc),
        };
        let mut rest = values.into_vec().into_iter();
        'values: while let Some(value) = rest.next() {
            open.push(alloc, value)?;
        }
        Ok(open)
    }

    /// Puts a value after the others. `Disorder` where one has its name.
    fn push(&mut self, alloc: Global, value: Value) -> Result<(), DraftStop>
        ensures pushed { OnOk result (self.new ≡ self.old ++ value ∷ []) }
        ensures stopped { IfErr result RefusesNothing }
    {
        let key = folded(alloc, value.name())?;
        if self.places.contains_key(key.as_slice()) {
            return Err(DraftStop::Disorder);
        }
        self.add(key, value)?;
        Ok(())
    }

    /// Puts a value after the others, whose folded name no other has.
    fn add(&mut self, key: Units, value: Value) -> Result<(), AllocError>
        requires named { key ≡ folded value.name }
        requires new { find (is_item value.name) self.old ≡ None }
        ensures { OnOk result (self.new ≡ self.old ++ value ∷ []) }
    {
        self.slots.reserve(1)?;
        self.places.insert(key.into_vec(), self.slots.len())?;
        self.slots.push_reserved(Some(value));
        Ok(())
    }

    /// Sets type and data of the value of this name, or adds it as the last.
    pub(crate) fn put(
        &mut self,
        alloc: Global,
        name: Units,
        kind: u32,
        bytes: Bytes,
    ) -> Result<(), AllocError>
        ensures { OnOk result (self.new ≡ with_item name kind bytes self.old) }
    {
        let key = folded(alloc, name.as_slice())?;
        match self.places.get(key.as_slice()) {
            Some(at) => {
                give(&mut self.slots[*at], kind, bytes);
                Ok(())
            }
            None => self.add(key, Value { name, kind, bytes }),
        }
    }

    /// Takes out the value of this name, and says whether it was there.
    pub(crate) fn remove(&mut self, alloc: Global, name: &[u16]) -> Result<bool, AllocError>
        ensures there { IfOk result (λ b. b ≡ is_some (find (is_item name.now) self.old)) }
        ensures gone { OnOk result (self.new ≡ without_first (is_item name.now) self.old) }
    {
        let key = folded(alloc, name)?;
        match self.places.remove(key.as_slice()) {
            Some(at) => {
                let _gone = replace(&mut self.slots[at], None);
                Ok(true)
            }
            None => Ok(false),
        }
    }

    /// The values in order.
    pub(crate) fn into_values(self, alloc: Global) -> Result<Values, AllocError>
        ensures { IfOk result (λ v. v ≡ self) }
    {
        let mut values = Values::new(alloc);
        let mut rest = self.slots.into_iter();
        'slots: while let Some(slot) = rest.next() {
            if let Some(value) = slot {
                values.push(value)?;
            }
        }
        Ok(values)
    }
}

/// Gives the value in a slot another type and other data.
fn give(slot: &mut Option<Value>, kind: u32, bytes: Bytes)
    ensures { slot.new ≡ given kind bytes slot.old }
{
    if let Some(value) = slot {
        value.kind = kind;
        value.bytes = bytes;
    }
}
