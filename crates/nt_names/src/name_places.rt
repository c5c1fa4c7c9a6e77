//! Where names are in a list, found without a scan.
//!
//! `NamePlaces` keeps the names as they are in the list, and beside them their places by the folded
//! order of the names. A lookup halves those, so it takes the logarithm of the number of names and no memory.

mod folding;
mod order;
mod places;

pub use folding::folded;
pub use places::NamePlaces;
