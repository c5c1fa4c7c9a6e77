//! The environment in memory: an honest disk with its bench, and hosts whose files are kept in a map.
#![tactic(auto)]

mod bench;
mod disk;
mod files;
mod image;
mod mem_host;
mod orders;
mod quiet_host;
mod store;
mod writes;

pub use mem_host::MemHost;
pub use quiet_host::QuietHost;
pub use store::MemDisk;
