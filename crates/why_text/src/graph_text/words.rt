//! The words of nodes and edges.

ghost use Rattle.std.specs.Prelude.{◌≡◌};
ghost use Rattle.why_text.specs.why_text.Lines.{phase_word};
ghost use Rattle.why_text.specs.graph_text.Dot.{shape_text, style_text, dotted_text};
ghost use Rattle.why_text.specs.graph_text.Objects.{kind_word, state_word, place_word};

use answer_lines::graph_lines::{NodeKind, NodeState};
use boot_phases::boot_phases::Phase;

pub(crate) fn phase_word(phase: Phase) -> &'static [u8]
    ensures { result.now ≡ phase_word phase }
{
    match phase {
        Phase::Boot => b"boot",
        Phase::System => b"system",
        Phase::Automatic => b"automatic",
        Phase::Done => b"done",
    }
}

pub(crate) fn place_word(place: Option<Phase>) -> &'static [u8]
    ensures { result.now ≡ place_word place }
{
    match place {
        Some(phase) => phase_word(phase),
        None => b"none",
    }
}

pub(crate) fn kind_word(kind: NodeKind) -> &'static [u8]
    ensures { result.now ≡ kind_word kind }
{
    match kind {
        NodeKind::Entry => b"entry",
        NodeKind::Missing => b"missing",
        NodeKind::Group => b"group",
    }
}

pub(crate) fn state_word(state: NodeState) -> &'static [u8]
    ensures { result.now ≡ state_word state }
{
    match state {
        NodeState::Started => b"started",
        NodeState::Failed => b"failed",
        NodeState::Unmet => b"unmet",
        NodeState::NotReached => b"not-reached",
        NodeState::Untaken => b"untaken",
        NodeState::NoEntry => b"no-entry",
    }
}

/// How the node of a kind is drawn.
pub(crate) fn shape_text(kind: NodeKind) -> &'static [u8]
    ensures { result.now ≡ shape_text kind }
{
    match kind {
        NodeKind::Entry => b"",
        NodeKind::Missing => b"",
        NodeKind::Group => b",shape=box",
    }
}

/// How a node in a state is drawn.
pub(crate) fn style_text(state: NodeState) -> &'static [u8]
    ensures { result.now ≡ style_text state }
{
    match state {
        NodeState::Started => b"",
        NodeState::Failed => b",color=red",
        NodeState::Unmet => b",style=dashed",
        NodeState::NotReached => b",style=dotted",
        NodeState::Untaken => b",color=gray",
        NodeState::NoEntry => b",color=gray,style=dashed",
    }
}

/// How an edge is drawn.
pub(crate) fn dotted_text(of_group: bool) -> &'static [u8]
    ensures { result.now ≡ dotted_text of_group }
{
    if of_group { b" [style=dotted]" } else { b"" }
}
