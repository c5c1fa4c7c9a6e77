//! A key's lists, rewritten.

ghost use Rattle.std.specs.Prelude.{◌≡◌, ◌≤◌, ◌<◌, ◌+◌, ◌*◌, ◌++◌, ◌^◌, ℕ, List, length, take, drop, Contains, None, IfOk, OnErr, slice_index};
ghost use Rattle.std.specs.Option.{IsSome};
ghost use Rattle.std.specs.List.{All};
ghost use Rattle.hive_model.specs.Limits.{most_bins};
ghost use Rattle.hive_model.specs.Bins.{bins_size, look_up};
ghost use Rattle.hive_model.specs.Size.{list_size};
ghost use Rattle.hive_model.specs.Lists.{AreHints, offsets_text};
ghost use Rattle.hive_model.specs.Packed.{text, part_places, list_cells};
ghost use Rattle.hive_cells.specs.Held.{held_at};
ghost use Rattle.hive_cells.specs.Holes.{IsHole};
ghost use Rattle.key_index.specs.Lists.{IsNode, ListsSiblings, children_at, hints_in, lists_at, with_child, without_child};
ghost use Rattle.key_index.specs.Relists.{AreApart, IsPut, Relists, Shortens};
ghost use Rattle.hive_cells.specs.Sources.{cells_of};

use crate::children::{insert, read_children, read_list_cells, remove};
use crate::hints::hints;
use crate::removal::Removal;
use hive_cells::{MOST_BINS, OpenHeap, Source};
use hive_pack::{first_part, list_len, part_count, write_lists};
use nt_bytes::{Bytes, HiveVersion};
use std::alloc::{AllocError, Global};

/// Each offset fits its field.
fn offsets_fit(offsets: &[u32])
    ensures { (k : ℕ) → slice_index offsets.now k < 2 ^ 32 }
{}

/// The bins data have at most 16,777,216 bytes.
pub fn bins_fit(heap: &OpenHeap)
    ensures { bins_size heap.now.bins ≤ most_bins }
{
    let _bins = heap.bytes();
}

/// Frees the cells at these offsets in bytes.
pub fn free_all(heap: &mut OpenHeap, cells: &[u32])
    requires held { All (λ o. IsSome (held_at heap.old.bins o)) cells.now }
    requires apart { AreApart cells.now }
    ensures gone { (o : ℕ) → Contains cells.now o → held_at heap.new.bins o ≡ None }
    ensures others { (o : ℕ) → (Contains cells.now o → ⊥) → held_at heap.new.bins o ≡ held_at heap.old.bins o }
    ensures long { bins_size heap.new.bins ≡ bins_size heap.old.bins }
    ensures base { heap.new.base ≡ heap.old.base }
{
    for at in cells {
        heap.free(*at);
    }
}

/// Writes where that many full lists begin that are in sequence, after the first eight bytes of
/// a run: in the list of lists that begins it.
fn set_starts(run: &mut Bytes, count: usize, place: usize)
    requires inside { 8 + 4 * count ≤ length run.old }
    requires small { place + 4008 * count < 4294967296 }
    ensures { run.new ≡ take 8 run.old ++ (offsets_text (part_places count place) ++ drop (8 + 4 * count) run.old) }
{
    for i in 0..count {
        let start = (place + 4008 * i) as u32;
        run.overwrite(8 + 4 * i, &start.to_le_bytes());
    }
}

/// A run of lists that was written to be at 0, changed to stand here.
fn moved(run: Bytes, n: usize, place: usize) -> Bytes
    requires long { length run ≡ list_size n }
    requires room { place + list_size n ≤ most_bins }
    ensures { (version : HiveVersion) (offsets : List ℕ) (hints : List (List ℕ)) → length offsets ≡ n → run ≡ text (list_cells version 0 offsets hints)
        → result ≡ text (list_cells version place offsets hints) }
{
    if n < 501 {
        return run;
    }
    let mut run = run;
    set_starts(&mut run, part_count(n), first_part(n, place));
    run
}

/// Lists of these children in packed form, written to be at 0.
fn new_run(
    alloc: Global,
    version: HiveVersion,
    offsets: &[u32],
    hints: &[[u8; 4]],
) -> Result<Bytes, AllocError>
    requires same { length offsets.now ≡ length hints.now }
    requires four { AreHints hints.now }
    requires room { list_size (length offsets.now) ≤ most_bins }
    ensures { IfOk result (λ b. b ≡ text (list_cells version 0 offsets.now hints.now)) }
{
    let mut run = Bytes::new(alloc);
    write_lists(alloc, &mut run, version, 0, offsets, hints)?;
    Ok(run)
}

/// Puts a run of lists into the free cell that begins here, and frees the old lists.
fn put(
    heap: &mut OpenHeap,
    version: HiveVersion,
    gone: &[u32],
    offsets: &[u32],
    hints: &[[u8; 4]],
    at: u32,
    run: &[u8],
)
    requires held { All (λ o. IsSome (held_at heap.old.bins o)) gone.now }
    requires apart { AreApart gone.now }
    requires some { 0 < length offsets.now }
    requires same { length offsets.now ≡ length hints.now }
    requires four { AreHints hints.now }
    requires room { at + list_size (length offsets.now) ≤ most_bins }
    requires hole { IsHole (list_size (length offsets.now)) heap.old.bins at }
    requires run { run.now ≡ text (list_cells version at offsets.now hints.now) }
    ensures put { IsPut version gone.now offsets.now hints.now heap.old.bins heap.new.bins at }
    ensures base { heap.new.base ≡ heap.old.base }
{
    offsets_fit(offsets);
    heap.fill(at, run);
    free_all(heap, gone);
}

/// Writes the lists of these children again, in packed form as one run of cells, and frees the old ones.
/// `None` only where the room for each list would make the bins data longer than 16,777,216 bytes. The
/// heap is as it was at `None` and where there is no memory.
fn relist(
    alloc: Global,
    heap: &mut OpenHeap,
    version: HiveVersion,
    gone: &[u32],
    offsets: &[u32],
    hints: &[[u8; 4]],
) -> Result<Option<u32>, AllocError>
    requires held { All (λ o. IsSome (held_at heap.old.bins o)) gone.now }
    requires apart { AreApart gone.now }
    requires some { 0 < length offsets.now }
    requires same { length offsets.now ≡ length hints.now }
    requires four { AreHints hints.now }
    ensures exact { IfOk result (Relists version gone.now offsets.now hints.now heap.old.bins heap.new.bins) }
    ensures refused { OnErr result (heap.new ≡ heap.old) }
    ensures base { heap.new.base ≡ heap.old.base }
{
    let n = offsets.len();
    if n > 2097152 {
        return Ok(None);
    }
    let size = list_len(n);
    if size > MOST_BINS as usize {
        return Ok(None);
    }
    bins_fit(heap);
    let run = new_run(alloc, version, offsets, hints)?;
    match heap.make_room(size as u32)? {
        None => Ok(None),
        Some(at) => {
            let run = moved(run, n, at as usize);
            put(heap, version, gone, offsets, hints, at, run.as_slice());
            Ok(Some(at))
        }
    }
}

/// The lists that a key is to have, and the cells of those that it has.
#[derive(Drop)]
pub(crate) struct Plan {
    pub(crate) gone: Vec<u32>,
    pub(crate) children: Vec<u32>,
    pub(crate) hints: Vec<[u8; 4]>,
}

/// The lists with one child more.
fn with_one_more(
    alloc: Global,
    cells: &Source,
    list: u32,
    count: u32,
    child: u32,
) -> Result<Plan, AllocError>
    requires siblings { ListsSiblings (cells_of cells.now) list count }
    requires child { IsNode (cells_of cells.now) child }
    ensures gone { IfOk result (λ plan. plan.gone.items ≡ lists_at (cells_of cells.now) list count) }
    ensures children { IfOk result (λ plan. plan.children.items ≡ with_child (cells_of cells.now) child (children_at (cells_of cells.now) list count)) }
    ensures hints { IfOk result (λ plan. plan.hints.items ≡ hints_in (cells_of cells.now) plan.children.items) }
{
    let old = read_children(alloc, cells, list, count)?;
    let gone = read_list_cells(alloc, cells, list, count)?;
    let children = insert(alloc, cells, &old, child)?;
    let hints = hints(alloc, cells, &children)?;
    Ok(Plan {
        gone,
        children,
        hints,
    })
}

/// Inserts a child into the lists of a key, before the first whose name folds greater, else last, and
/// answers where the new list begins. `list` and `count` are those of the parent's node: where the count
/// is 0 the list is not looked at. The lists are rewritten in packed form, as one run of cells, and
/// the old ones are freed. `None` only where the room for each new list would make the bins data longer
/// than 16,777,216 bytes. The heap is as it was at `None` and where there is no memory.
pub fn insert_child(
    alloc: Global,
    cells: &mut OpenHeap,
    version: HiveVersion,
    list: u32,
    count: u32,
    child: u32,
) -> Result<Option<u32>, AllocError>
    requires siblings { ListsSiblings (look_up version cells.old.bins) list count }
    requires apart { AreApart (lists_at (look_up version cells.old.bins) list count) }
    requires child { IsNode (look_up version cells.old.bins) child }
    ensures exact { let old = look_up version cells.old.bins in let children = with_child old child (children_at old list count) in
        IfOk result (Relists version (lists_at old list count) children (hints_in old children) cells.old.bins cells.new.bins) }
    ensures refused { OnErr result (cells.new ≡ cells.old) }
    ensures base { cells.new.base ≡ cells.old.base }
{
    let source = Source {
        heap: cells.cells(),
        version,
    };
    let plan = with_one_more(alloc, &source, list, count, child)?;
    relist(
        alloc,
        cells,
        version,
        &plan.gone,
        &plan.children,
        &plan.hints,
    )
}

/// Writes the lists of these children again, where there are any, and frees the old ones.
fn shorten(
    alloc: Global,
    heap: &mut OpenHeap,
    version: HiveVersion,
    gone: &[u32],
    offsets: &[u32],
    hints: &[[u8; 4]],
) -> Result<Removal, AllocError>
    requires held { All (λ o. IsSome (held_at heap.old.bins o)) gone.now }
    requires apart { AreApart gone.now }
    requires same { length offsets.now ≡ length hints.now }
    requires four { AreHints hints.now }
    ensures exact { IfOk result (Shortens version gone.now offsets.now hints.now heap.old.bins heap.new.bins) }
    ensures refused { OnErr result (heap.new ≡ heap.old) }
    ensures base { heap.new.base ≡ heap.old.base }
{
    if offsets.len() == 0 {
        free_all(heap, gone);
        return Ok(Removal::Empty);
    }
    match relist(alloc, heap, version, gone, offsets, hints)? {
        None => Ok(Removal::NoRoom),
        Some(at) => Ok(Removal::List(at)),
    }
}

/// The lists with one child less.
fn with_one_less(
    alloc: Global,
    cells: &Source,
    list: u32,
    count: u32,
    child: u32,
) -> Result<Plan, AllocError>
    requires { ListsSiblings (cells_of cells.now) list count }
    ensures gone { IfOk result (λ plan. plan.gone.items ≡ lists_at (cells_of cells.now) list count) }
    ensures children { IfOk result (λ plan. plan.children.items ≡ without_child child (children_at (cells_of cells.now) list count)) }
    ensures hints { IfOk result (λ plan. plan.hints.items ≡ hints_in (cells_of cells.now) plan.children.items) }
{
    let old = read_children(alloc, cells, list, count)?;
    let gone = read_list_cells(alloc, cells, list, count)?;
    let children = remove(alloc, &old, child)?;
    let hints = hints(alloc, cells, &children)?;
    Ok(Plan {
        gone,
        children,
        hints,
    })
}

/// Takes a child out of the lists of a key, in the way of `insert_child`. `Empty` exactly where no child
/// is left: the lists are freed, and none is written. `NoRoom` only where the room for each new list
/// would make the bins data longer than 16,777,216 bytes. The heap is as it was at `NoRoom` and where
/// there is no memory.
pub fn remove_child(
    alloc: Global,
    cells: &mut OpenHeap,
    version: HiveVersion,
    list: u32,
    count: u32,
    child: u32,
) -> Result<Removal, AllocError>
    requires siblings { ListsSiblings (look_up version cells.old.bins) list count }
    requires apart { AreApart (lists_at (look_up version cells.old.bins) list count) }
    ensures exact { let old = look_up version cells.old.bins in let children = without_child child (children_at old list count) in
        IfOk result (Shortens version (lists_at old list count) children (hints_in old children) cells.old.bins cells.new.bins) }
    ensures refused { OnErr result (cells.new ≡ cells.old) }
    ensures base { cells.new.base ≡ cells.old.base }
{
    let source = Source {
        heap: cells.cells(),
        version,
    };
    let plan = with_one_less(alloc, &source, list, count, child)?;
    shorten(
        alloc,
        cells,
        version,
        &plan.gone,
        &plan.children,
        &plan.hints,
    )
}
