//! The graph of a start.

ghost use Rattle.std.specs.Prelude.{◌≡◌, IfOk};
ghost use Rattle.std.specs.Option.{option_copied};
ghost use Rattle.hive_model.specs.Valid.{HoldsKeys};
ghost use Rattle.graph_rule.specs.Rows.{whole_of};
ghost use Rattle.graph_rule.specs.Shown.{drawn, no_graph, graph_of};

use crate::marks::marks_of;
use crate::numbers::{drawn_by, numbers};
use crate::whole::{WholeGraph, whole_of};
use answer_lines::graph_lines::{Graph, GraphEdges, GraphNodes};
use nt_bytes::Units;
use std::alloc::{AllocError, Global};
use why_needs::why_state::ViewedRun;

/// What is shown of all nodes and edges of a start.
fn drawn(alloc: Global, run: &ViewedRun, of: Option<&Units>) -> Result<Graph, AllocError>
    requires { HoldsKeys run.now.run.set }
    ensures { IfOk result (λ graph. graph ≡ drawn (whole_of run.now (option_copied of.entry))) }
{
    let whole = whole_of(alloc, run, of)?;
    let marks = marks_of(alloc, &whole)?;
    let numbers = numbers(alloc, marks.as_slice())?;
    drawn_by(alloc, &whole, numbers.as_slice())
}

/// Nothing is shown.
fn no_graph(alloc: Global) -> Graph
    ensures { result ≡ no_graph }
{
    Graph {
        nodes: GraphNodes::new(alloc),
        edges: GraphEdges::new(alloc),
    }
}

/// The graph of a start, or of one name in it: that, what it needs, and what needs it, over any number of steps. Takes n log n time in the
/// entries, their needs, and the members of groups. A hive must be able to hold the set.
#[tactic(auto, unfolding(crate::specs::Shown::graph_of))]
pub fn graph_in(alloc: Global, run: &ViewedRun, of: Option<&Units>) -> Result<Graph, AllocError>
    requires { HoldsKeys run.now.run.set }
    ensures exact { IfOk result (λ graph. graph ≡ graph_of run.now (option_copied of.entry)) }
{
    if run.views.is_empty() {
        return Ok(no_graph(alloc));
    }
    drawn(alloc, run, of)
}
