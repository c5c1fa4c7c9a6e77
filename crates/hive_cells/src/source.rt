//! What a reader of a hive's cells reads from.

use crate::heap::CellHeap;
use nt_bytes::HiveVersion;

/// The cells of a hive, and the version that they are read in.
#[derive(Drop)]
pub struct Source<'a> {
    pub heap: &'a CellHeap,
    pub version: HiveVersion,
}
