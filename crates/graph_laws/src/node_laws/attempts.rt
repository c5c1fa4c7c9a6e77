//! Which node has an attempt.

ghost use Rattle.graph_laws.specs.node_laws.Attempts.{EachTryHasOneNode};

/// Without a name, the N-th `try` line of the last start has a node with the number N, that of the entry of its name, which started or failed as the line says;
/// and no other node has that number. A hive must be able to hold the sets that the phases read.
pub fn each_try_has_one_node()
    ensures { EachTryHasOneNode }
{}
