//! What a start in safe mode attempts.
//!
//! `safe_mode` reads the mode off the switches of boot.ini, `reduce` leaves out the services that the mode's list in the control
//! set doesn't have, by name, by group or, where that is asked for, by a driver's image, and `safe_start` plays the three phases on what
//! remains, where each attempt goes well. Nothing is written.
//! Sources: Microsoft's documentation of boot.ini; Windows Internals, 4th edition, safe mode; docs/startup.md.
#![tactic(auto)]

mod images;
mod laws;
mod lines;
mod listing;
mod mode;
mod playing;
mod reducing;

pub use laws::{an_unlisted_entry_changes_no_line, images_leave_more, what_starts_late_is_listed};
pub use lines::{SafeLine, SafeLines};
pub use listing::listed;
pub use mode::{SafeMode, safe_mode};
pub use playing::{safe_start, safe_start_by};
pub use reducing::reduce;
