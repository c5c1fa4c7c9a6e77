//! Keys below which others are found.

ghost use Rattle.std.specs.Prelude.{◌≡◌, ◌-◌, [], IfOk, OnOk, length};
ghost use Rattle.salvage_bins.specs.Ground.{ground_of};
ghost use Rattle.salvage_walk.specs.Keys.{key_names};
ghost use Rattle.salvage_walk.specs.Remembered.{Remembers};
ghost use Rattle.salvage_walk.specs.Walked.{state_of};
ghost use Rattle.salvage_parents.specs.Change.{changed_among};
ghost use Rattle.salvage_parents.specs.Naming.{AreNaming};
ghost use Rattle.salvage_parents.specs.Open.{AreOpen};
ghost use Rattle.salvage_parents.specs.Search.{adopted, adopted_at, adopted_none, arranged_if};

use crate::arranging::arrange;
use crate::index::places_of;
use nt_bytes::{Bytes, Names, Row, Units};
use nt_names::name_places::NamePlaces;
use reg_tree::{Key, Keys, Values};
use salvage_bins::DamagedCells;
use salvage_walk::{Incomplete, Lists, Walk, add_found};
use std::alloc::{AllocError, Global};
use std::collections::BTreeMap;
use std::marker::Model;
use std::mem::replace;

/// A key with all below it, open as far as others were looked for below it.
#[cycle(draft)]
#[derive(Drop)]
pub(crate) struct Draft {
    pub(crate) name: Units,
    pub(crate) flags: u16,
    pub(crate) stamp: u64,
    pub(crate) class: Bytes,
    pub(crate) security: Bytes,
    pub(crate) values: Values,
    pub(crate) children: DraftKeys,
}

/// The children of a key: as they were until one is looked for below them, and then each open, with their names in order.
#[cycle(draft)]
#[derive(Drop)]
pub(crate) struct DraftKeys {
    pub(crate) kept: Keys,
    pub(crate) drafts: Vec<Draft>,
    pub(crate) names: NamePlaces,
}

impl Model for Draft {
    ghost use Rattle.hive_model.specs.Tree.{Tree, key, trees};
    ghost use Rattle.hive_model.specs.Codes.{coded_tree, weight, weights-trees};
    ghost use Rattle.std.proofs.Common.{arith};

    ghost Value = { Tree };

    ghost coded = { coded_tree };

    ghost view = { λ a. key (record {
      name = a.name;
      flags = a.flags;
      stamp = a.stamp;
      class = a.class;
      security = a.security;
      values = a.values;
    }) (trees a.children) };

    ghost size = { weight };

    ghost size_decreases = { λ a h. Prim.omega (arith, weights-trees a.children) };
}

impl Model for DraftKeys {
    ghost use Rattle.std.specs.Prelude.{◌++◌, List};
    ghost use Rattle.std.proofs.Common.{arith};
    ghost use Rattle.hive_model.specs.Tree.{Tree};
    ghost use Rattle.hive_model.specs.Codes.{coded_trees, weights};
    ghost use Rattle.salvage_parents.specs.Open.{AreKept, most_le-open};

    ghost Value = { List Tree };

    ghost coded = { coded_trees };

    ghost view = { λ a. a.kept ++ a.drafts.items };

    ghost invariant = { λ a. AreKept a.kept a.drafts.items a.names };

    ghost size = { weights };

    ghost size_decreases = { λ a h. Prim.omega (arith, most_le-open a.kept a.drafts.items) };
}

impl DraftKeys {
    // Children that nothing was looked for below.
    fn of(alloc: Global, kept: Keys) -> Result<DraftKeys, AllocError>
        ensures { IfOk result (λ d. d ≡ kept) }
    {
        let drafts = Vec::new(alloc);
        let names = NamePlaces::new(alloc, Names::new(alloc))?;
        Ok(DraftKeys {
            kept,
            drafts,
            names,
        })
    }

    // Children that are open, and their names.
    fn of_open(alloc: Global, drafts: Vec<Draft>, names: NamePlaces) -> DraftKeys
        requires { names ≡ key_names drafts.items }
        ensures { result ≡ drafts.items }
    {
        let kept = Keys::new(alloc);
        DraftKeys {
            kept,
            drafts,
            names,
        }
    }

    // The children as they are now.
    #[cycle(closed)]
    fn closed(self, alloc: Global) -> Result<Keys, AllocError>
        ensures { IfOk result (λ k. k ≡ self) }
    {
        let mut closed = self.kept;
        let mut rest = self.drafts.into_iter();
        'keys: while let Some(key) = rest.next() {
            closed.push(key.closed(alloc)?)?;
        }
        Ok(closed)
    }

    // The children open, and their names.
    fn opened(self, alloc: Global) -> Result<(Vec<Draft>, NamePlaces), AllocError>
        ensures { IfOk result (λ o. AreOpen self o.0.items o.1) }
    {
        if self.kept.len() == 0 {
            return Ok((self.drafts, self.names));
        }
        let names = NamePlaces::new(alloc, names_of(alloc, self.kept.as_slice())?)?;
        Ok((each_open(alloc, self.kept)?, names))
    }

    // Takes the children out, open.
    fn take_open(&mut self, alloc: Global) -> Result<(Vec<Draft>, NamePlaces), AllocError>
        ensures { IfOk result (λ o. AreOpen self.old o.0.items o.1) }
    {
        let none = DraftKeys::of(alloc, Keys::new(alloc))?;
        replace(self, none).opened(alloc)
    }

    // Takes the children out, closed.
    fn take_closed(&mut self, alloc: Global) -> Result<Keys, AllocError>
        ensures { IfOk result (λ k. k ≡ self.old) }
    {
        let none = DraftKeys::of(alloc, Keys::new(alloc))?;
        replace(self, none).closed(alloc)
    }
}

// The names of keys.
fn names_of(alloc: Global, keys: &[Key]) -> Result<Names, AllocError>
    ensures { IfOk result (λ n. n ≡ key_names keys.now) }
{
    let mut names = Names::new(alloc);
    for key in keys {
        let name = key.name.copy(alloc)?;
        names.push(name)?;
    }
    Ok(names)
}

// Keys, each of them open.
fn each_open(alloc: Global, keys: Keys) -> Result<Vec<Draft>, AllocError>
    ensures { IfOk result (λ v. v.items ≡ keys) }
{
    let mut drafts = Vec::new(alloc);
    let mut rest = keys.into_vec().into_iter();
    'keys: while let Some(key) = rest.next() {
        drafts.push(Draft::of(alloc, key)?)?;
    }
    Ok(drafts)
}

impl Draft {
    /// A key that nothing was looked for below.
    pub(crate) fn of(alloc: Global, key: Key) -> Result<Draft, AllocError>
        ensures { IfOk result (λ d. d ≡ key) }
    {
        let children = DraftKeys::of(alloc, key.children)?;
        Ok(Draft {
            name: key.name,
            flags: key.flags,
            stamp: key.stamp,
            class: key.class,
            security: key.security,
            values: key.values,
            children,
        })
    }

    /// The key as it is now.
    #[cycle(closed)]
    pub(crate) fn closed(self, alloc: Global) -> Result<Key, AllocError>
        ensures { IfOk result (λ k. k ≡ self) }
    {
        Ok(Key {
            name: self.name,
            flags: self.flags,
            stamp: self.stamp,
            class: self.class,
            security: self.security,
            values: self.values,
            children: self.children.closed(alloc)?,
        })
    }
}

// ---- children that are found

// How many levels are left below a key at a path.
fn levels_left(path: &[Units]) -> u32
    ensures { result ≡ 511 - length path.now }
{
    511usize.saturating_sub(path.len()) as u32
}

// Children in order, if some of them are new.
fn arrange_if(alloc: Global, count: usize, keys: Keys) -> Result<Keys, AllocError>
    ensures { IfOk result (λ ks. ks ≡ arranged_if count keys) }
{
    if count == 0 {
        return Ok(keys);
    }
    arrange(alloc, keys)
}

// The children of an incomplete key with those that are found, and how many these are.
#[tactic(auto, unfolding(crate::specs::Search::adopted))]
fn adopt_among(
    alloc: Global,
    cells: &DamagedCells<'_>,
    index: &BTreeMap<u32, Vec<u32>>,
    walk: &mut Walk,
    lists: &mut Lists,
    notes: &mut Row<Incomplete>,
    own: &Incomplete,
    security: &[u8],
    keys: Keys,
) -> Result<(Keys, usize), AllocError>
    requires naming { AreNaming (ground_of cells.now) index.now }
    requires remembered { Remembers (ground_of cells.now) (state_of walk.old).claims lists.old }
    ensures found { IfOk result (λ r. (r.0, record { walked = state_of walk.new; notes = notes.new; count = r.1 })
        ≡ adopted (ground_of cells.now) own.now (state_of walk.old) notes.old security.now keys) }
    ensures listed { OnOk result (Remembers (ground_of cells.now) (state_of walk.new).claims lists.new) }
{
    let before = keys.len();
    let path = own.path.as_slice();
    let places = places_of(index, own.at);
    let found = add_found(
        alloc,
        cells,
        walk,
        lists,
        notes,
        security,
        path,
        levels_left(path),
        places,
        keys,
    )?;
    let count = found.len().saturating_sub(before);
    let found = arrange_if(alloc, count, found)?;
    Ok((found, count))
}

impl Draft {
    // The key as an incomplete one, with the children that are found; and how many these are.
    fn adopt(
        &mut self,
        alloc: Global,
        cells: &DamagedCells<'_>,
        index: &BTreeMap<u32, Vec<u32>>,
        walk: &mut Walk,
        lists: &mut Lists,
        notes: &mut Row<Incomplete>,
        own: &Incomplete,
    ) -> Result<usize, AllocError>
        requires naming { AreNaming (ground_of cells.now) index.now }
        requires remembered { Remembers (ground_of cells.now) (state_of walk.old).claims lists.old }
        ensures found { IfOk result (λ n. (self.new, record { walked = state_of walk.new; notes = notes.new; count = n })
            ≡ adopted_at (ground_of cells.now) own.now (state_of walk.old) notes.old [] self.old) }
        ensures listed { OnOk result (Remembers (ground_of cells.now) (state_of walk.new).claims lists.new) }
    {
        let keys = self.children.take_closed(alloc)?;
        let (found, count) = adopt_among(
            alloc,
            cells,
            index,
            walk,
            lists,
            notes,
            own,
            self.security.as_slice(),
            keys,
        )?;
        self.children = DraftKeys::of(alloc, found)?;
        Ok(count)
    }

    /// The key that a path leads to from here as an incomplete one, with the children that are found; and how many these are.
    #[cycle(adopt_at)]
    pub(crate) fn adopt_at(
        &mut self,
        alloc: Global,
        cells: &DamagedCells<'_>,
        index: &BTreeMap<u32, Vec<u32>>,
        walk: &mut Walk,
        lists: &mut Lists,
        notes: &mut Row<Incomplete>,
        own: &Incomplete,
        path: &[Units],
    ) -> Result<usize, AllocError>
        requires naming { AreNaming (ground_of cells.now) index.now }
        requires remembered { Remembers (ground_of cells.now) (state_of walk.old).claims lists.old }
        ensures found { IfOk result (λ n. (self.new, record { walked = state_of walk.new; notes = notes.new; count = n })
            ≡ adopted_at (ground_of cells.now) own.now (state_of walk.old) notes.old path.now self.old) }
        ensures listed { OnOk result (Remembers (ground_of cells.now) (state_of walk.new).claims lists.new) }
    {
        match path {
            [] => self.adopt(alloc, cells, index, walk, lists, notes, own),
            [first, more @ ..] => self.children.adopt_at(
                alloc,
                cells,
                index,
                walk,
                lists,
                notes,
                own,
                first.as_slice(),
                more,
            ),
        }
    }
}

impl DraftKeys {
    /// The same from the child of this name.
    #[cycle(adopt_at)]
    fn adopt_at(
        &mut self,
        alloc: Global,
        cells: &DamagedCells<'_>,
        index: &BTreeMap<u32, Vec<u32>>,
        walk: &mut Walk,
        lists: &mut Lists,
        notes: &mut Row<Incomplete>,
        own: &Incomplete,
        name: &[u16],
        path: &[Units],
    ) -> Result<usize, AllocError>
        requires naming { AreNaming (ground_of cells.now) index.now }
        requires remembered { Remembers (ground_of cells.now) (state_of walk.old).claims lists.old }
        ensures found { IfOk result (λ n. (self.new, record { walked = state_of walk.new; notes = notes.new; count = n })
            ≡ changed_among name.now (adopted_at (ground_of cells.now) own.now (state_of walk.old) notes.old path.now)
            (adopted_none (state_of walk.old) notes.old) self.old) }
        ensures listed { OnOk result (Remembers (ground_of cells.now) (state_of walk.new).claims lists.new) }
    {
        let (mut drafts, names) = self.take_open(alloc)?;
        match names.place_of(name) {
            None => {
                *self = DraftKeys::of_open(alloc, drafts, names);
                Ok(0)
            }
            Some(place) => {
                let count = drafts[place].adopt_at(
                    alloc, cells, index, walk, lists, notes, own, path,
                )?;
                *self = DraftKeys::of_open(alloc, drafts, names);
                Ok(count)
            }
        }
    }
}
