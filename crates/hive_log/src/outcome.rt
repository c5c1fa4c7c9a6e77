//! What a hive is recovered as.

use nt_bytes::Bytes;
use regf_base::BaseBlock;
use std::marker::Model;

/// The base block and the bins data of a hive, and whether the primary was dirty, so that the log was
/// needed.
#[derive(Debug, Drop)]
pub struct Recovered {
    pub base: BaseBlock,
    pub bins: Bytes,
    pub dirty: bool,
}

impl Model for Recovered {
    ghost use Rattle.hive_model.specs.Recovery as book;

    ghost Value = { book.Recovered };

    ghost view = { λ a. record { base = a.base; bins = a.bins; dirty = a.dirty } };
}
