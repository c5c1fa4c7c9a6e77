//! Stops at each call of a disk, where no run of the programs can order one: a commit to two copies, and a repair in place.
//!
//! No crate of the programs stands on this one: it has tests alone.
#![tactic(auto)]

#[cfg(test)]
mod change;
#[cfg(test)]
mod files;
#[cfg(test)]
mod hives;
#[cfg(test)]
mod mend_stops;
#[cfg(test)]
mod mends;
#[cfg(test)]
mod orders;
#[cfg(test)]
mod twin_cuts;
#[cfg(test)]
mod twins;
