//! What the edges of the graph of a start have to do with needs.

ghost use Rattle.graph_laws.specs.graph_laws.Needs.{NeedsAreEdges};

/// Each entry of the graph is the vertex at its place. Edges lead from it to a vertex of each name in its DependOnService, as it folds, be it of an entry
/// or of a missing name, to that of each group in its DependOnGroup, and nowhere else. It is so of all vertices, before those that are shown are chosen
/// and numbered, and whichever name is asked for.
pub fn edges_are_needs()
    ensures { NeedsAreEdges }
{}
