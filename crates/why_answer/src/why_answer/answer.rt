//! The whole answer.

ghost use Rattle.std.specs.Prelude.{◌≡◌, ◌++◌, IfOk, OnOk};
ghost use Rattle.hive_model.specs.Valid.{HoldsKeys};
ghost use Rattle.quiet_run.specs.Play.{AreHeld};
ghost use Rattle.why_answer.specs.why_answer.Answer.{name_lines, answer_of, prepared, why_lines_of};

use crate::why_answer::placed::push_at;
use crate::why_answer::unplaced::push_unplaced;
use answer_lines::why_lines::{WhyLine, WhyLines};
use quiet_run::QuietRun;
use std::alloc::{AllocError, Global};
use why_lacks::why_items::{NeedsRun, needs_run};
use why_needs::why_state::{placed_of, push_head, viewed};

/// Puts the lines of a name after the others.
fn push_name(
    alloc: Global,
    needs: &NeedsRun,
    name: &[u16],
    lines: &mut WhyLines,
) -> Result<(), AllocError>
    requires { AreHeld needs.now.run.run.start.phases }
    ensures { OnOk result (lines.new ≡ lines.old ++ name_lines needs.now name.now) }
{
    match placed_of(&needs.run, name) {
        Some(place) => push_at(alloc, needs, name, place, lines),
        None => push_unplaced(alloc, &needs.run, name, lines),
    }
}

/// The lines about a start and a name.
fn answer(alloc: Global, needs: &NeedsRun, name: &[u16]) -> Result<WhyLines, AllocError>
    requires { AreHeld needs.now.run.run.start.phases }
    ensures { IfOk result (λ lines. lines ≡ answer_of needs.now name.now) }
{
    let mut lines = WhyLines::new(alloc);
    push_head(alloc, &needs.run.run.start, &mut lines)?;
    push_name(alloc, needs, name, &mut lines)?;
    lines.push(WhyLine::End)?;
    Ok(lines)
}

/// A run with what its needs are looked up in.
#[tactic(auto, unfolding(crate::specs::why_answer::Answer::prepared))]
fn prepared(alloc: Global, run: QuietRun) -> Result<NeedsRun, AllocError>
    requires phases { AreHeld run.start.phases }
    requires set { HoldsKeys run.set }
    ensures needs { IfOk result (λ needs. needs ≡ prepared run) }
    ensures held { IfOk result (λ needs. AreHeld needs.run.run.start.phases) }
{
    let viewed = viewed(alloc, run)?;
    let needs = needs_run(alloc, viewed)?;
    Ok(needs)
}

/// What is reported of a name in what a script leaves of its last start. A hive must be able to hold the sets. Takes n log n time in their
/// services and needs.
#[tactic(auto, unfolding(crate::specs::why_answer::Answer::why_lines_of))]
pub fn why_lines(alloc: Global, run: QuietRun, name: &[u16]) -> Result<WhyLines, AllocError>
    requires phases { AreHeld run.start.phases }
    requires set { HoldsKeys run.set }
    ensures { IfOk result (λ lines. lines ≡ why_lines_of run name.now) }
{
    let needs = prepared(alloc, run)?;
    answer(alloc, &needs, name)
}
