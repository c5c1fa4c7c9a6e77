//! A name that a plan has.

ghost use Rattle.std.specs.Prelude.{◌≡◌, ◌<◌, ◌++◌, length, slice_get, OnOk};
ghost use Rattle.std.specs.Option.{option_map_or};
ghost use Rattle.hive_model.specs.Valid.{HoldsKeys};
ghost use Rattle.quiet_run.specs.Play.{AreHeld};
ghost use Rattle.why_lacks.specs.why_items.Vertices.{number_of};
ghost use Rattle.why_answer.specs.why_answer.Answer.{unplaced_lines, order_lines, ready_lines, items_lines, unmet_lines, told_lines, placed_lines, lines_at};

use crate::why_answer::unplaced::push_unplaced;
use crate::why_place::{entry_line, order_of, push_place};
use crate::why_pulled::push_pulled;
use answer_lines::why_lines::{NameState, WhyLine, WhyLines};
use boot_phases::service_entries::Entry;
use quiet_run::BegunPhase;
use reg_tree::Key;
use std::alloc::{AllocError, Global};
use why_lacks::why_cycle::push_cycle;
use why_lacks::why_items::{NeedsRun, items, number_of};
use why_lacks::why_lacks::push_lacks;
use why_needs::why_needs::{ready_at, ready_line};
use why_needs::why_state::{PhaseView, attempt_upto, state_of};

/// Puts the places of the entry at a place after the others, and who pulls it.
fn push_order(
    alloc: Global,
    set: &Key,
    view: &PhaseView,
    place: usize,
    entry: &Entry,
    lines: &mut WhyLines,
) -> Result<(), AllocError>
    requires held { HoldsKeys set.now }
    requires within { place < length view.now.plan }
    ensures { OnOk result (lines.new ≡ lines.old ++ order_lines set.now view.now place entry.now) }
{
    let order = order_of(alloc, set, view.phase)?;
    push_place(
        alloc,
        &order,
        view.phase,
        view.plan.as_slice(),
        place,
        entry,
        lines,
    )?;
    push_pulled(alloc, &order, view, place, entry, lines)
}

/// Puts after the others from which moment on an entry was ready, where it was attempted.
fn push_ready(
    alloc: Global,
    needs: &NeedsRun,
    from: usize,
    view: &PhaseView,
    name: &[u16],
    entry: &Entry,
    lines: &mut WhyLines,
) -> Result<(), AllocError>
    ensures { OnOk result (lines.new ≡ lines.old ++ ready_lines needs.now from view.now name.now entry.now) }
{
    match attempt_upto(&needs.run, view.end, name) {
        Some(_) => lines.push(ready_line(
            alloc,
            &needs.run,
            from,
            ready_at(&needs.run, &needs.starts, entry),
        )?),
        None => Ok(()),
    }
}

/// Puts an entry by its places after the others, and all that it leads to, with what each lacked; and the cycle that it waits for.
fn push_items(
    alloc: Global,
    needs: &NeedsRun,
    place: (usize, usize),
    lines: &mut WhyLines,
) -> Result<(), AllocError>
    ensures { OnOk result (lines.new ≡ lines.old ++ items_lines needs.now (number_of needs.now.run.views place)) }
{
    let number = number_of(&needs.run, place)?;
    let found = items(alloc, needs, number)?;
    push_lacks(alloc, needs, found.as_slice(), lines)?;
    push_cycle(alloc, needs, found.as_slice(), lines)
}

/// The same where the entry was unmet.
fn push_unmet(
    alloc: Global,
    needs: &NeedsRun,
    state: NameState,
    place: (usize, usize),
    lines: &mut WhyLines,
) -> Result<(), AllocError>
    ensures { OnOk result (lines.new ≡ lines.old ++ unmet_lines needs.now state (number_of needs.now.run.views place)) }
{
    match state {
        NameState::Unmet => push_items(alloc, needs, place, lines),
        NameState::NoPhase => Ok(()),
        NameState::Started(_) => Ok(()),
        NameState::Failed(_, _) => Ok(()),
        NameState::NotReached(_) => Ok(()),
        NameState::Late => Ok(()),
        NameState::NotTaken(_) => Ok(()),
    }
}

/// Puts what is reported of an entry after the others.
fn push_told(
    alloc: Global,
    needs: &NeedsRun,
    name: &[u16],
    place: (usize, usize),
    begun: &BegunPhase,
    view: &PhaseView,
    entry: &Entry,
    lines: &mut WhyLines,
) -> Result<(), AllocError>
    requires held { HoldsKeys begun.now.set }
    requires within { place.1 < length view.now.plan }
    ensures { OnOk result (lines.new ≡ lines.old ++ told_lines needs.now name.now place begun.now view.now entry.now) }
{
    push_order(alloc, &begun.set, view, place.1, entry, lines)?;
    push_ready(alloc, needs, begun.from, view, name, entry, lines)?;
    let state = state_of(&needs.run, name);
    lines.push(WhyLine::State(state))?;
    push_unmet(alloc, needs, state, place, lines)
}

/// Puts the lines of an entry after the others.
fn push_placed(
    alloc: Global,
    needs: &NeedsRun,
    name: &[u16],
    place: (usize, usize),
    begun: &BegunPhase,
    view: &PhaseView,
    entry: &Entry,
    lines: &mut WhyLines,
) -> Result<(), AllocError>
    requires held { HoldsKeys begun.now.set }
    requires within { place.1 < length view.now.plan }
    ensures { OnOk result (lines.new ≡ lines.old ++ placed_lines needs.now name.now place begun.now view.now entry.now) }
{
    lines.push(WhyLine::Name(entry.name.copy(alloc)?))?;
    lines.push(entry_line(entry))?;
    push_told(alloc, needs, name, place, begun, view, entry, lines)
}

/// The same by its place in the plan of a phase.
fn push_in(
    alloc: Global,
    needs: &NeedsRun,
    name: &[u16],
    place: (usize, usize),
    begun: &BegunPhase,
    view: &PhaseView,
    lines: &mut WhyLines,
) -> Result<(), AllocError>
    requires { HoldsKeys begun.now.set }
    ensures { OnOk result (lines.new ≡ lines.old ++ option_map_or (placed_lines needs.now name.now place begun.now view.now) (slice_get view.now.plan place.1) (unplaced_lines needs.now.run name.now)) }
{
    match view.plan.get(place.1) {
        Some(entry) => push_placed(alloc, needs, name, place, begun, view, entry, lines),
        None => push_unplaced(alloc, &needs.run, name, lines),
    }
}

/// The same of a phase that began.
fn push_begun(
    alloc: Global,
    needs: &NeedsRun,
    name: &[u16],
    place: (usize, usize),
    begun: &BegunPhase,
    lines: &mut WhyLines,
) -> Result<(), AllocError>
    requires { HoldsKeys begun.now.set }
    ensures { OnOk result (lines.new ≡ lines.old ++ option_map_or (λ v. option_map_or (placed_lines needs.now name.now place begun.now v) (slice_get v.plan place.1) (unplaced_lines needs.now.run name.now))
        (slice_get needs.now.run.views place.0) (unplaced_lines needs.now.run name.now)) }
{
    match needs.run.views.get(place.0) {
        Some(view) => push_in(alloc, needs, name, place, begun, view, lines),
        None => push_unplaced(alloc, &needs.run, name, lines),
    }
}

/// Puts the lines of a name by its place after the others: that of the phase, and that in its plan.
pub(crate) fn push_at(
    alloc: Global,
    needs: &NeedsRun,
    name: &[u16],
    place: (usize, usize),
    lines: &mut WhyLines,
) -> Result<(), AllocError>
    requires { AreHeld needs.now.run.run.start.phases }
    ensures { OnOk result (lines.new ≡ lines.old ++ lines_at needs.now name.now place) }
{
    match needs.run.run.start.phases.get(place.0) {
        Some(begun) => push_begun(alloc, needs, name, place, begun, lines),
        None => push_unplaced(alloc, &needs.run, name, lines),
    }
}
