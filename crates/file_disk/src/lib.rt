//! A disk of sectors over two open files.
//!
//! It reports no content, since a file that is written past its end has sectors between that nobody wrote. It counts each failed call as a
//! fault, says what its calls ask of the two files, and is always on: a real loss of power ends the program.
#![tactic(auto)]

mod disk;
mod files;
mod sectors;
mod system_file;

pub use disk::FileDisk;
pub use files::SectorFile;
pub use system_file::SystemFile;
