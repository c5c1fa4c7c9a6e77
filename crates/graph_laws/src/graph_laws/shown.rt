//! Which nodes and edges of a start's graph are shown.

ghost use Rattle.graph_laws.specs.graph_laws.Shown.{NameHasVertex, NameShowsReach, AllShowsTaken, NodesAreShown, EdgesAreShown};

/// A name that is asked for has a vertex, of its entry or as a missing name (`vertex`). Shown are exactly the vertices that it reaches by edges, over any
/// others and by none too, and those that reach it so (`reach`).
pub fn a_name_is_shown_with_all_that_it_reaches_and_all_that_reach_it()
    ensures vertex { NameHasVertex }
    ensures reach { NameShowsReach }
{}

/// Without a name exactly the entries are shown that are not untaken, and all to which an edge leads from one of them.
pub fn without_a_name_the_taken_are_shown_and_what_they_need()
    ensures { AllShowsTaken }
{}

/// The nodes are those of the vertices that are shown, each once and in their order, numbered from 1 (`nodes`). The edges are exactly those between two such
/// vertices, with the numbers of these, and are of a group where the first is one (`edges`).
pub fn what_is_shown_is_numbered_in_order()
    ensures nodes { NodesAreShown }
    ensures edges { EdgesAreShown }
{}
