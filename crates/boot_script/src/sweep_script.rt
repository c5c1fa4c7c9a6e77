//! The script of a sweep: the events before the line `sweep`, and the one after it.
//!
//! `read_sweep` answers them, or the first faulty line. A line means what it means in the script of a run (`boot_script`), but that
//! `sweep` occurs once and alone in its line, and that no line orders a stop of the disk. Definition: `specs/Sweep.antt`.

mod line;
mod names;
mod parts;
mod reading;
mod stop;

pub use names::first_word;
pub use reading::{SweepScript, read_sweep};
pub use stop::{SweepFault, SweepStop};
