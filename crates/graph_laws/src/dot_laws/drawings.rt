//! The text of a graph by the grammar of the DOT language.

ghost use Rattle.graph_laws.specs.dot_laws.Drawings.{TextIsDrawn};

/// The text of each graph is a graph of the DOT language. Its nodes are those of the graph, each once with its number, label, shape and style in the
/// subgraph of its phase; its edges are those of the graph, in their order; and its settings are the labels. It has the nodes that are in one of the three
/// phases, or in none.
pub fn the_text_of_a_graph_is_of_the_dot_language()
    ensures { TextIsDrawn }
{}
