//! What steps have made of a tree: which keys and values came and went.

ghost use Rattle.std.specs.Prelude.{◌≡◌, IfOk};
ghost use Rattle.import_steps.specs.Marks.{IsFresh, IsStart, IsPut, IsMarked, life_of, keys_of, values_of};

use nt_bytes::Units;
use nt_names::name_places::folded;
use std::alloc::{AllocError, Global};
use std::collections::BTreeMap;

/// Where a key comes from that steps went through.
#[derive(Clone, Copy, Debug, PartialEq, Eq)]
pub(crate) enum Life {
    /// It is the one of the tree.
    Kept,
    /// A step made it, and the tree has nothing to do with what is below it.
    Made,
    /// It is deleted, with all below it.
    Gone,
}

/// What steps have made of a key and of what is below it, by folded names. Of a name that isn't there they changed nothing.
#[derive(Drop)]
pub(crate) struct Marks {
    pub(crate) life: Life,
    pub(crate) keys: BTreeMap<Vec<u16>, Marks>,
    /// Whether the value is there.
    pub(crate) values: BTreeMap<Vec<u16>, bool>,
}

/// What a step makes of a key.
#[derive(Drop)]
pub(crate) enum Mark {
    /// A child of this name is made or deleted.
    Key { name: Units, life: Life },
    /// A value of this name is there or isn't.
    Value { name: Units, there: bool },
}

impl Marks {
    /// Marks of these parts.
    fn of(life: Life, keys: BTreeMap<Vec<u16>, Marks>, values: BTreeMap<Vec<u16>, bool>) -> Marks
        ensures life_is { life_of result ≡ life }
        ensures keys_are { keys_of result ≡ keys }
        ensures values_are { values_of result ≡ values }
    {
        Marks { life, keys, values }
    }

    /// Nothing yet.
    pub(crate) fn new(alloc: Global, life: Life) -> Marks
        ensures { IsFresh life result }
    {
        Marks {
            life,
            keys: BTreeMap::new(alloc),
            values: BTreeMap::new(alloc),
        }
    }

    fn put_key(self, alloc: Global, name: Units, life: Life) -> Result<Marks, AllocError>
        ensures { IfOk result (IsPut (Mark.Key name life) self) }
    {
        let Marks {
            life: own,
            mut keys,
            values,
        } = self;
        let key = folded(alloc, name.as_slice())?;
        keys.insert(key.into_vec(), Marks::new(alloc, life))?;
        Ok(Marks::of(own, keys, values))
    }

    fn put_value(self, alloc: Global, name: Units, there: bool) -> Result<Marks, AllocError>
        ensures { IfOk result (IsPut (Mark.Value name there) self) }
    {
        let Marks {
            life,
            keys,
            mut values,
        } = self;
        let key = folded(alloc, name.as_slice())?;
        values.insert(key.into_vec(), there)?;
        Ok(Marks::of(life, keys, values))
    }

    fn put(self, alloc: Global, mark: Mark) -> Result<Marks, AllocError>
        ensures { IfOk result (IsPut mark self) }
    {
        match mark {
            Mark::Key { name, life } => self.put_key(alloc, name, life),
            Mark::Value { name, there } => self.put_value(alloc, name, there),
        }
    }
}

/// What is marked of a child, or nothing yet.
fn start(alloc: Global, marks: Option<Marks>) -> Marks
    ensures { IsStart marks result }
{
    match marks {
        Some(marks) => marks,
        None => Marks::new(alloc, Life::Kept),
    }
}

/// The marks with one more of the key that the path leads to.
pub(crate) fn marked(
    alloc: Global,
    marks: Marks,
    path: &[Units],
    mark: Mark,
) -> Result<Marks, AllocError>
    ensures { IfOk result (IsMarked path.now mark marks) }
{
    let [name, more @ ..] = path else {
        return marks.put(alloc, mark);
    };
    let Marks {
        life,
        mut keys,
        values,
    } = marks;
    let key = folded(alloc, name.as_slice())?;
    let first = start(alloc, keys.remove(key.as_slice()));
    let last = marked(alloc, first, more, mark)?;
    keys.insert(key.into_vec(), last)?;
    Ok(Marks::of(life, keys, values))
}
