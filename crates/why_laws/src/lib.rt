//! Laws of `why`: its lines, cycles, and the course of a start.
#![tactic(auto)]

pub mod course_laws;
pub mod cycle_laws;
pub mod why_laws;
