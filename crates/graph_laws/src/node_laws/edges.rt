//! Which edges lead from groups, and how often an edge stands.

ghost use Rattle.graph_laws.specs.node_laws.Edges.{EdgesStandOnce, GroupsLeadToMembers};

/// No two edges of a graph join the same two nodes, in the same direction.
pub fn no_edge_stands_twice()
    ensures { EdgesStandOnce }
{}

/// From a group's vertex edges lead to the vertex of each entry that has the group, as it folds, but for those that are untaken and whose name isn't asked for,
/// and nowhere else. It is so of all vertices, before those that are shown are chosen and numbered.
pub fn edges_lead_from_groups_to_members()
    ensures { GroupsLeadToMembers }
{}
