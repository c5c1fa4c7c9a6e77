//! The lines that one event says, by two reports: that of the events before it, and that with it.
//!
//! After the events of both stands the probe (`specs/Probe.antt`), whose line parts what events say from the end of a report.

mod between;
mod laws;

pub use between::lines_between;
pub use laws::{the_lines_of_an_event_are_found, the_probe_parts_the_lines};
