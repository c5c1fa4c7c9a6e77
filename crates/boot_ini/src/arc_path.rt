//! ARC paths: which directory, on which partition of which disk, a boot.ini entry means.
//!
//! `read_arc` answers the path that a text is, or the first fault from the left with its place; it
//! asks nothing of the text. Rules: Microsoft's documentation of boot.ini; docs/texts.md, "ARC paths".

mod arc;
mod laws;
mod reading;
mod same;

pub use arc::{Arc, ArcFault, ArcFaultKind, ArcKind, ArcStop};
pub use laws::{
    a_path_is_read_again, a_path_reads_as_what_it_spells, the_first_fault_from_the_left_is_named,
};
pub use reading::read_arc;
pub use same::same_arc;
