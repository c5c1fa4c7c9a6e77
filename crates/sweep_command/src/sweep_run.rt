//! An event played after others, on a disk of its own: what it prints, and the log that the disk then holds.

mod playing;

pub use playing::{Played, play};
