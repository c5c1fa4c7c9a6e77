//! The search for keys by their parents.

ghost use Rattle.std.specs.Prelude.{◌≡◌, ◌≤◌, ◌++◌, ◌/◌, map, length, slice_get, IfOk, OnOk};
ghost use Rattle.salvage_bins.specs.Ground.{ground_of};
ghost use Rattle.salvage_walk.specs.Remembered.{Remembers};
ghost use Rattle.salvage_walk.specs.Walked.{state_of};
ghost use Rattle.salvage_parents.specs.Naming.{AreNaming};
ghost use Rattle.salvage_parents.specs.Search.{found_line, salvaged_by_parents, searched, searched_by, search_from, search_step, tree_and_said};
ghost use Rattle.salvage_parents.specs.Seen.{search_seen};
ghost use Rattle.salvage_parents.specs.declared.search.ParentLine.TheVariants as parents;

use crate::draft::Draft;
use crate::index::index_of;
use nt_bytes::{Names, Row, Units};
use reg_tree::Key;
use salvage_bins::DamagedCells;
use salvage_walk::{Incomplete, Lists, Walk, WalkLine, WalkedTree, walk_tree};
use std::alloc::{AllocError, Global};
use std::collections::BTreeMap;

/// What is printed while keys are looked for by their parents.
#[derive(Drop)]
pub enum ParentLine {
    /// A line of the walk.
    Walked(WalkLine),
    /// This many children were found of the key at this path.
    Found(usize, Names),
}

/// What is salvaged of a tree, the lines of the walk, and those after them.
#[derive(Drop)]
pub struct SearchedTree {
    pub tree: Option<Key>,
    pub lines: Row<WalkLine>,
    pub said: Row<ParentLine>,
}

/// The tree so far, what is used, what was printed, and the keys of which children may be missing.
#[derive(Drop)]
pub(crate) struct Searching {
    pub(crate) draft: Draft,
    pub(crate) walk: Walk,
    pub(crate) said: Row<ParentLine>,
    pub(crate) notes: Row<Incomplete>,
}

// The incomplete key at a place of the list.
fn at_place(
    alloc: Global,
    notes: &Row<Incomplete>,
    place: usize,
) -> Result<Option<Incomplete>, AllocError>
    ensures { IfOk result (λ o. o ≡ slice_get notes.now place) }
{
    match notes.get(place) {
        Some(own) => Ok(Some(Incomplete {
            at: own.at,
            path: own.path.copy(alloc)?,
        })),
        None => Ok(None),
    }
}

// Says these lines of the walk.
fn say_walked(said: &mut Row<ParentLine>, lines: Vec<WalkLine>) -> Result<(), AllocError>
    ensures { OnOk result (said.new ≡ said.old ++ map parents.Walked lines.items) }
{
    let mut rest = lines.into_iter();
    'lines: while let Some(line) = rest.next() {
        said.push(ParentLine::Walked(line))?;
    }
    Ok(())
}

// Says how many children were found of the key at a path, if any.
fn say_found(said: &mut Row<ParentLine>, count: usize, path: Names) -> Result<(), AllocError>
    ensures { OnOk result (said.new ≡ said.old ++ found_line count path) }
{
    if count == 0 {
        return Ok(());
    }
    said.push(ParentLine::Found(count, path))
}

// Looks for the children of an incomplete key.
#[tactic(auto, unfolding(crate::specs::Search::search_step))]
fn step(
    alloc: Global,
    cells: &DamagedCells<'_>,
    index: &BTreeMap<u32, Vec<u32>>,
    search: &mut Searching,
    lists: &mut Lists,
    own: Incomplete,
) -> Result<(), AllocError>
    requires naming { AreNaming (ground_of cells.now) index.now }
    requires remembered { Remembers (ground_of cells.now) (state_of search.old.walk).claims lists.old }
    ensures stepped { OnOk result (search_seen search.new ≡ search_step (ground_of cells.now) own (search_seen search.old)) }
    ensures listed { OnOk result (Remembers (ground_of cells.now) (state_of search.new.walk).claims lists.new) }
{
    let count = search.draft.adopt_at(
        alloc,
        cells,
        index,
        &mut search.walk,
        lists,
        &mut search.notes,
        &own,
        own.path.as_slice(),
    )?;
    let lines = search.walk.take_lines(alloc);
    say_walked(&mut search.said, lines)?;
    say_found(&mut search.said, count, own.path)
}

// Goes through the incomplete keys, and those that become so.
#[tactic(auto, using(crate::proofs::SearchLemmas::search_steps))]
fn search(
    alloc: Global,
    cells: &DamagedCells<'_>,
    index: &BTreeMap<u32, Vec<u32>>,
    search: &mut Searching,
    lists: &mut Lists,
) -> Result<(), AllocError>
    requires naming { AreNaming (ground_of cells.now) index.now }
    requires remembered { Remembers (ground_of cells.now) (state_of search.old.walk).claims lists.old }
    requires small { length cells.now.bytes.now ≤ 268435456 }
    ensures { OnOk result (search_seen search.new ≡ searched (ground_of cells.now) (ground_of cells.now).slots 0 (search_seen search.old)) }
{
    let mut place = 0;
    let mut left = cells.bytes.len() / 8;
    'keys: while left > 0 {
        match at_place(alloc, &search.notes, place)? {
            None => return Ok(()),
            Some(own) => step(alloc, cells, index, search, lists, own)?,
        }
        place += 1;
        left -= 1;
    }
    Ok(())
}

// Goes through them by an index of the cells.
fn search_all(
    alloc: Global,
    cells: &DamagedCells<'_>,
    searching: &mut Searching,
) -> Result<(), AllocError>
    requires { length cells.now.bytes.now ≤ 268435456 }
    ensures { OnOk result (search_seen searching.new ≡ searched (ground_of cells.now) (ground_of cells.now).slots 0 (search_seen searching.old)) }
{
    let index = index_of(alloc, cells)?;
    let mut lists = Lists::new(alloc, &searching.walk);
    search(alloc, cells, &index, searching, &mut lists)
}

// The tree so far, and what was printed.
fn tree_and_said(alloc: Global, searching: Searching) -> Result<(Key, Row<ParentLine>), AllocError>
    ensures { IfOk result (λ r. (r.0, r.1) ≡ tree_and_said (search_seen searching)) }
{
    Ok((searching.draft.closed(alloc)?, searching.said))
}

// The search below a tree.
fn search_below(
    alloc: Global,
    cells: &DamagedCells<'_>,
    tree: Key,
    walk: Walk,
    notes: Row<Incomplete>,
) -> Result<(Key, Row<ParentLine>), AllocError>
    requires { length cells.now.bytes.now ≤ 268435456 }
    ensures { IfOk result (λ r. (r.0, r.1)
        ≡ tree_and_said (searched (ground_of cells.now) (ground_of cells.now).slots 0 (search_from tree (state_of walk) notes))) }
{
    let draft = Draft::of(alloc, tree)?;
    let said = Row::new(alloc);
    let mut searching = Searching {
        draft,
        walk,
        said,
        notes,
    };
    search_all(alloc, cells, &mut searching)?;
    tree_and_said(alloc, searching)
}

// What is salvaged of a tree that was walked.
fn search_by(
    alloc: Global,
    cells: &DamagedCells<'_>,
    walked: WalkedTree,
) -> Result<SearchedTree, AllocError>
    requires { length cells.now.bytes.now ≤ 268435456 }
    ensures { IfOk result (λ s. s ≡ searched_by (ground_of cells.now) walked.notes (walked.tree, state_of walked.walk)) }
{
    let WalkedTree {
        tree,
        mut walk,
        notes,
    } = walked;
    let lines = Row::from_vec(walk.take_lines(alloc));
    match tree {
        None => Ok(SearchedTree {
            tree: None,
            lines,
            said: Row::new(alloc),
        }),
        Some(tree) => {
            let (tree, said) = search_below(alloc, cells, tree, walk, notes)?;
            Ok(SearchedTree {
                tree: Some(tree),
                lines,
                said,
            })
        }
    }
}

/// The tree that is salvaged from a root, with the children that no list names but that name their parents, and what is printed on the
/// way. There is an answer for any cells; the bytes are at most 256 MiB.
#[tactic(auto, unfolding(crate::specs::Search::salvaged_by_parents))]
pub fn salvage_by_parents(
    alloc: Global,
    cells: &DamagedCells<'_>,
    root: u32,
) -> Result<SearchedTree, AllocError>
    requires { length cells.now.bytes.now ≤ 268435456 }
    ensures { IfOk result (λ s. s ≡ salvaged_by_parents (ground_of cells.now) root) }
{
    let walked = walk_tree(alloc, cells, root)?;
    search_by(alloc, cells, walked)
}
