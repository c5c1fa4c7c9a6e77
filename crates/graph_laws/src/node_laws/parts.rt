//! What a part of a graph has to do with the whole.

ghost use Rattle.graph_laws.specs.node_laws.Edges.{PartIsOfWhole};
ghost use Rattle.graph_laws.specs.node_laws.Parts.{VerticesAreShared, EdgesAreShared, ShownEdgesAreOfWhole};

/// Each node that is shown of a name is one of the vertices of the start's graph without a name, or the name itself as a missing one.
pub fn the_nodes_of_a_part_are_of_the_whole()
    ensures { PartIsOfWhole }
{}

/// Each vertex of the graph without a name is one vertex of that with a name, and no other one is: an entry at the same place, a missing name and a group
/// with the same node, but that the name is spelled as it is asked for where it is missing. There is one vertex more where the name has no entry and no
/// entry needs it, and no edge leads to that or from it.
pub fn the_vertices_of_a_part_are_those_of_the_whole()
    ensures { VerticesAreShared }
{}

/// Between these vertices the graph with a name has the edges of that without one, and besides only that from the group of the entry that is asked for to
/// this entry, where it is untaken (`vertices`). The edges that are shown with a name are exactly those of them of which both ends are shown, and are of a
/// group where they are in the whole (`shown`).
pub fn the_edges_of_a_part_are_those_of_the_whole()
    ensures vertices { EdgesAreShared }
    ensures shown { ShownEdgesAreOfWhole }
{}
