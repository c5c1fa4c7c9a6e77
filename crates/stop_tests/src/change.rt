//! A hive before and after a change, and which of the two was found.

ghost use Rattle.std.specs.Prelude.{◌≡◌};
ghost use Rattle.hive_model.specs.Base.{is_bins_size};

use crate::files::{marked, primary};
use hive_alt::Recovered;
use nt_bytes::Bytes;
use std::alloc::{AllocError, Global};

/// A primary file with sequence number 5, its bins data, and those that a commit puts in their place.
#[derive(Drop)]
pub struct Change {
    pub file: Bytes,
    pub old: Bytes,
    pub new: Bytes,
}

/// Which bins data were found.
#[derive(Clone, Copy, Debug, PartialEq, Eq)]
pub enum Bins {
    Old,
    New,
    Other,
}

/// What a start finds: the sequence number, whether the log was needed, and the bins data.
#[derive(Clone, Copy, Debug, PartialEq, Eq)]
pub struct Found {
    pub number: u32,
    pub dirty: bool,
    pub bins: Bins,
}

/// Whether bins data may have this size.
pub fn is_size(size: usize) -> bool
    ensures { result ≡ is_bins_size size }
{
    size % 4096 == 0 && 4096 <= size && size <= 16_777_216
}

impl Change {
    /// A change from that many pages to that many, with one byte of the second sector turned.
    pub fn new(alloc: Global, from: u32, to: u32) -> Result<Change, AllocError> {
        let file = primary(alloc, from.saturating_mul(8))?;
        let old = marked(alloc, 1, from.saturating_mul(8))?;
        let mut new = marked(alloc, 1, to.saturating_mul(8))?;
        if new.len() > 600 {
            new.overwrite(600, &[0xff]);
        }
        Ok(Change { file, old, new })
    }

    /// What was found, seen as old or new.
    pub fn found(&self, recovered: &Recovered) -> Found {
        let bins = if recovered.bins.as_slice() == self.old.as_slice() {
            Bins::Old
        } else if recovered.bins.as_slice() == self.new.as_slice() {
            Bins::New
        } else {
            Bins::Other
        };
        Found {
            number: recovered.base.first,
            dirty: recovered.dirty,
            bins,
        }
    }
}
