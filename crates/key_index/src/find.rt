//! The child that has a name.

ghost use Rattle.std.specs.Prelude.{◌≡◌, ◌<◌, ◌≤◌, ◌==◌, true, length, slice_get, find};
ghost use Rattle.std.specs.Result.{IsOk};
ghost use Rattle.std.specs.Option.{IfSome, option_map_or};
ghost use Rattle.std.specs.Ordering.{is_eq};
ghost use Rattle.std.specs.List.{All};
ghost use Rattle.hive_model.specs.Bins.{look_up};
ghost use Rattle.hive_model.specs.Lists.{list_at};
ghost use Rattle.hive_model.specs.Footprint.{is_node_named};
ghost use Rattle.key_index.specs.Lists.{AreLists, Finds, IsNode, ListsSiblings, NamesDiffer, children_at, offsets_of, offsets_in_lists, is_behind};
ghost use Rattle.hive_cells.specs.Sources.{cells_of};

use crate::entries::{entry, entry_count, is_list_of_lists};
use crate::node::compare_name;
use crate::source::payload;
use hive_cells::{CellHeap, Source};
use nt_bytes::HiveVersion;
use std::cmp::Ordering;

// ---- by binary search

/// A child with the name among the entries of a list, looked for by binary search.
fn search_list(cells: &Source, list: &[u8], name: &[u16]) -> Option<u32>
    requires read { IsOk (list_at list.now) }
    requires nodes { All (IsNode (cells_of cells.now)) (offsets_of list.now) }
    ensures { IfSome result (Finds (cells_of cells.now) name.now (offsets_of list.now)) }
{
    let mut low = 0;
    let mut high = entry_count(list);
    'halves: while low < high {
        let middle = low + (high - low) / 2;
        let at = entry(list, middle);
        match compare_name(cells, at, name) {
            Ordering::Equal => return Some(at),
            Ordering::Less => low = middle + 1,
            Ordering::Greater => high = middle,
        }
    }
    None
}

/// Whether the first child of a list has a greater name; of a list without children it is taken to have.
#[tactic(auto, using(crate::proofs::Finding::behind_none, crate::proofs::Finding::behind_first))]
fn begins_behind(cells: &Source, list: &[u8], name: &[u16]) -> bool
    requires read { IsOk (list_at list.now) }
    requires nodes { All (IsNode (cells_of cells.now)) (offsets_of list.now) }
    ensures { result ≡ option_map_or (is_behind (cells_of cells.now) name.now) (slice_get (offsets_of list.now) 0) true }
{
    if entry_count(list) == 0 {
        return true;
    }
    compare_name(cells, entry(list, 0), name).is_gt()
}

/// How many of the lists of a list of lists begin with a name that is not greater, looked for by binary search.
fn lists_before(cells: &Source, list: &[u8], name: &[u16]) -> usize
    requires read { IsOk (list_at list.now) }
    requires lists { AreLists (cells_of cells.now) (offsets_of list.now) }
    ensures { result ≤ length (offsets_of list.now) }
{
    let mut low = 0;
    let mut high = entry_count(list);
    'halves: while low < high {
        let middle = low + (high - low) / 2;
        let part = payload(cells, entry(list, middle));
        if begins_behind(cells, part, name) {
            high = middle;
        } else {
            low = middle + 1;
        }
    }
    low
}

/// A child with the name below a list of lists, looked for by binary search.
fn search_lists(cells: &Source, list: &[u8], name: &[u16]) -> Option<u32>
    requires read { IsOk (list_at list.now) }
    requires lists { AreLists (cells_of cells.now) (offsets_of list.now) }
    ensures { IfSome result (Finds (cells_of cells.now) name.now (offsets_in_lists (cells_of cells.now) (offsets_of list.now))) }
{
    let before = lists_before(cells, list, name);
    if before == 0 {
        return None;
    }
    search_list(cells, payload(cells, entry(list, before - 1)), name)
}

// ---- one by one

/// The first child with the name among the entries of a list.
fn scan_list(cells: &Source, list: &[u8], name: &[u16]) -> Option<u32>
    requires read { IsOk (list_at list.now) }
    requires nodes { All (IsNode (cells_of cells.now)) (offsets_of list.now) }
    ensures { result ≡ find (is_node_named (cells_of cells.now) name.now) (offsets_of list.now) }
{
    for place in 0..entry_count(list) {
        let at = entry(list, place);
        if compare_name(cells, at, name).is_eq() {
            return Some(at);
        }
    }
    None
}

/// The first child with the name below a list of lists.
fn scan_lists(cells: &Source, list: &[u8], name: &[u16]) -> Option<u32>
    requires read { IsOk (list_at list.now) }
    requires lists { AreLists (cells_of cells.now) (offsets_of list.now) }
    ensures { result ≡ find (is_node_named (cells_of cells.now) name.now) (offsets_in_lists (cells_of cells.now) (offsets_of list.now)) }
{
    for place in 0..entry_count(list) {
        let part = payload(cells, entry(list, place));
        let found = scan_list(cells, part, name);
        if found.is_some() {
            return found;
        }
    }
    None
}

// ---- both

/// The child with the name among the entries of a list: by binary search, and after a miss one by one.
fn find_in_list(cells: &Source, list: &[u8], name: &[u16]) -> Option<u32>
    requires read { IsOk (list_at list.now) }
    requires nodes { All (IsNode (cells_of cells.now)) (offsets_of list.now) }
    requires apart { NamesDiffer (cells_of cells.now) (offsets_of list.now) }
    ensures { result ≡ find (is_node_named (cells_of cells.now) name.now) (offsets_of list.now) }
{
    match search_list(cells, list, name) {
        Some(at) => Some(at),
        None => scan_list(cells, list, name),
    }
}

/// The child with the name below a list of lists: by binary search, and after a miss one by one.
fn find_in_lists(cells: &Source, list: &[u8], name: &[u16]) -> Option<u32>
    requires read { IsOk (list_at list.now) }
    requires lists { AreLists (cells_of cells.now) (offsets_of list.now) }
    requires apart { NamesDiffer (cells_of cells.now) (offsets_in_lists (cells_of cells.now) (offsets_of list.now)) }
    ensures { result ≡ find (is_node_named (cells_of cells.now) name.now) (offsets_in_lists (cells_of cells.now) (offsets_of list.now)) }
{
    match search_lists(cells, list, name) {
        Some(at) => Some(at),
        None => scan_lists(cells, list, name),
    }
}

/// The offset of the child that has this name, letters of either case taken for one, or `None` exactly
/// where none has. `list` and `count` are those of the parent's node: where the count is 0 the list is
/// not looked at. Where the children are in the order of their folded names, a hit takes the same number of steps
/// as halving their number does; a miss looks at each of them.
pub fn find_child(
    cells: &CellHeap,
    version: HiveVersion,
    list: u32,
    count: u32,
    name: &[u16],
) -> Option<u32>
    requires { ListsSiblings (look_up version cells.now) list count }
    ensures { result ≡ find (is_node_named (look_up version cells.now) name.now) (children_at (look_up version cells.now) list count) }
{
    if count == 0 {
        return None;
    }
    let source = Source {
        heap: cells,
        version,
    };
    let bytes = payload(&source, list);
    if is_list_of_lists(bytes) {
        find_in_lists(&source, bytes, name)
    } else {
        find_in_list(&source, bytes, name)
    }
}
