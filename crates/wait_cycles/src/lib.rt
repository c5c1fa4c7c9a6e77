//! Places that wait for one another in a cycle.
//!
//! A place has needs, and a need has ways: places, any of which meets it. `cycles` finds which places wait for one another,
//! each for a need that only these can meet. `met::met` says what is met in the end, `reach::reach` marks what edges lead to, and
//! `inverse::inverse` turns edges round. Definitions: `specs/Waits.antt`, `specs/Graph.antt` of the last three, and `specs/Classes.antt`
//! of what the search for cycles keeps. This project's own.
#![tactic(auto)]

mod classes;
mod finding;
pub mod inverse;
pub mod met;
mod order;
pub mod reach;
mod walks;

pub use finding::cycles;
