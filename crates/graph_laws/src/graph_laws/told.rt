//! What the text of a start's graph reports of it.

ghost use Rattle.graph_laws.specs.graph_laws.Told.{GraphIsOfStart};

/// Of each graph of a start the laws of its text and its objects hold: an entry has the number of its attempt exactly where it started or failed, only a
/// missing name is without an entry, a group is started or unmet, each node is in one of the three phases or in none, and an edge is of a group where it
/// leads from one.
pub fn the_graph_of_a_start_is_told_by_its_text()
    ensures { GraphIsOfStart }
{}
