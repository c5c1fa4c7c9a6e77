//! Two lists of names.

ghost use Rattle.std.specs.Prelude.{◌≡◌, ◌++◌, ◌∷◌, [], IfOk, OnOk};
ghost use Rattle.std.specs.Option.{option_copied};
ghost use Rattle.set_diff.specs.Listed.{has, lacks, lone_lines, both_lone, shared, parts_from, parts_lines, shared_parts};
ghost use Rattle.set_diff.specs.Shown.{text_shown};

use crate::shown::text_shown;
use answer_lines::diff_lines::{DiffLine, DiffLines, Part, Sequence, Side};
use nt_bytes::{Names, Units, same_folded};
use nt_names::name_places::NamePlaces;
use std::alloc::{AllocError, Global};

/// Whether one of the names is this one.
pub(crate) fn has(names: &NamePlaces, name: &Units) -> bool
    ensures { result ≡ has names.now name.now }
{
    names.place_of(name.as_slice()).is_some()
}

/// Whether none of the names is this one.
pub fn lacks(names: &NamePlaces, name: &Units) -> bool
    ensures { result ≡ lacks names.now name.now }
{
    !has(names, name)
}

/// Appends a line for each of these names that the others lack.
fn put_lone(
    alloc: Global,
    part: Part,
    side: Side,
    names: &[Units],
    others: &NamePlaces,
    lines: &mut DiffLines,
) -> Result<(), AllocError>
    ensures { OnOk result (lines.new ≡ lines.old ++ lone_lines part side names.now others.now) }
{
    for name in names {
        if lacks(others, name) {
            let name = name.copy(alloc)?;
            lines.push(DiffLine::Lone { part, side, name })?;
        }
    }
    Ok(())
}

/// Appends a line for each name that one of the two lists alone has.
pub(crate) fn put_both_lone(
    alloc: Global,
    part: Part,
    first: &NamePlaces,
    second: &NamePlaces,
    lines: &mut DiffLines,
) -> Result<(), AllocError>
    ensures { OnOk result (lines.new ≡ lines.old ++ both_lone part first.now second.now) }
{
    put_lone(alloc, part, Side::First, first.as_slice(), second, lines)?;
    put_lone(alloc, part, Side::Second, second.as_slice(), first, lines)
}

/// Those of the names that are among the others too. Takes n log n time.
pub fn shared(alloc: Global, names: &[Units], others: &NamePlaces) -> Result<Names, AllocError>
    ensures { IfOk result (λ s. s ≡ shared names.now others.now) }
{
    let mut both = Names::new(alloc);
    for name in names {
        if has(others, name) {
            both.push(name.copy(alloc)?)?;
        }
    }
    Ok(both)
}

/// Appends the first place at which the lists differ, counted from 1. Takes time linear in them.
pub(crate) fn put_parts(
    alloc: Global,
    sequence: Sequence,
    first: &[Units],
    second: &[Units],
    lines: &mut DiffLines,
) -> Result<(), AllocError>
    ensures { OnOk result (lines.new ≡ lines.old ++ parts_lines sequence first.now second.now) }
{
    let mut place: u64 = 1;
    let mut xs = first;
    let mut ys = second;
    'names: loop {
        let [x, more_xs @ ..] = xs else {
            return put_rest(alloc, sequence, place, ys, lines);
        };
        let [y, more_ys @ ..] = ys else {
            return put_place(alloc, sequence, place, Some(x), None, lines);
        };
        if !same_folded(x.as_slice(), y.as_slice()) {
            return put_place(alloc, sequence, place, Some(x), Some(y), lines);
        }
        place += 1;
        xs = more_xs;
        ys = more_ys;
    }
}

/// The same where the first list is at its end.
fn put_rest(
    alloc: Global,
    sequence: Sequence,
    place: u64,
    rest: &[Units],
    lines: &mut DiffLines,
) -> Result<(), AllocError>
    ensures { OnOk result (lines.new ≡ lines.old ++ parts_from sequence place [] rest.now) }
{
    match rest.first() {
        Some(name) => put_place(alloc, sequence, place, None, Some(name), lines),
        None => Ok(()),
    }
}

/// Appends what the lists have at a place.
fn put_place(
    alloc: Global,
    sequence: Sequence,
    place: u64,
    first: Option<&Units>,
    second: Option<&Units>,
    lines: &mut DiffLines,
) -> Result<(), AllocError>
    ensures { OnOk result (lines.new ≡ lines.old ++ DiffLine.Parts sequence place (text_shown (option_copied first.entry)) (text_shown (option_copied second.entry)) ∷ []) }
{
    let first = text_shown(alloc, first)?;
    let second = text_shown(alloc, second)?;
    lines.push(DiffLine::Parts {
        sequence,
        place,
        first,
        second,
    })
}

/// The same of those of the names that both lists have. Takes n log n time.
pub(crate) fn put_shared_parts(
    alloc: Global,
    sequence: Sequence,
    first: &NamePlaces,
    second: &NamePlaces,
    lines: &mut DiffLines,
) -> Result<(), AllocError>
    ensures { OnOk result (lines.new ≡ lines.old ++ shared_parts sequence first.now second.now) }
{
    let of_first = shared(alloc, first.as_slice(), second)?;
    let of_second = shared(alloc, second.as_slice(), first)?;
    put_parts(
        alloc,
        sequence,
        of_first.as_slice(),
        of_second.as_slice(),
        lines,
    )
}
