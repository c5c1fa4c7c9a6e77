//! The traits of the environment: a disk of sectors that may lose power or fail at any call, a test bench
//! round it, and a host of files to which a report is printed.
//!
//! A disk or host reports its contents or it doesn't; its counts are known for every one. Each refusal of a
//! disk's `read`, `write` and `sync` comes with a count that rose in that call, and so does each `Read` and
//! `Write` of a host. Lack of memory is free where a bench or a host refuses for it.
#![tactic(auto)]

mod bench;
mod disk;
mod host;
mod laws;

pub use bench::Bench;
pub use disk::{Address, Disk, DiskCall, DiskStop, HiveFile, Keep, Presence};
pub use host::{Host, HostStop};
pub use laws::{
    a_longer_flight_allows_more, all_may_be_lost_or_kept, nothing_in_flight_leaves_what_is_held,
    only_what_is_in_flight_changes,
};
