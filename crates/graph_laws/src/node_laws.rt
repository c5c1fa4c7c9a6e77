//! What holds of the nodes and the edges of a start's graph, by their definitions and the course of the start, apart from any code.

mod attempts;
mod edges;
mod parts;

pub use attempts::each_try_has_one_node;
pub use edges::{edges_lead_from_groups_to_members, no_edge_stands_twice};
pub use parts::{
    the_edges_of_a_part_are_those_of_the_whole, the_nodes_of_a_part_are_of_the_whole,
    the_vertices_of_a_part_are_those_of_the_whole,
};
