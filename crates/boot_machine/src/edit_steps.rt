//! What an edit of a script is as a step on the tree, in a start on the set of a number.
//!
//! `CurrentControlSet` at the front of a path stands for that set; the last component of a path is the key that is made. Rules:
//! docs/startup.md, "The script".

mod paths;
mod steps;

pub use steps::{delete_step, make_step, remove_step, set_step};
