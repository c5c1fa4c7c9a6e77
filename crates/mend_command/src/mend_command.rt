//! What a repair of a hive says, and how it ends.
//!
//! `mend_hive` loads the hive of a disk, recovers it where it is dirty, packs it where that makes it shorter, and
//! says what it found and what it did. Rules: docs/texts.md.

mod command;
mod saying;
mod status;

pub use command::mend_hive;
pub use status::MendStatus;
