//! Files of a hive, made field by field. Each sector of the bins data has a mark of its own, so that one is seen where another
//! should be.

use nt_bytes::Bytes;
use regf_base::{BaseBlock, base_bytes};
use std::alloc::{AllocError, Global};

/// The base block of a clean primary, with sequence number 5 and no name, of bins data of this size.
pub fn block(size: u32) -> BaseBlock {
    BaseBlock {
        first: 5,
        second: 5,
        stamp: 0,
        minor: 3,
        kind: 0,
        root: 32,
        size,
        cluster: 1,
        name: [0; 64],
        rest: [0; 396],
    }
}

/// A file that begins with this base block.
pub fn file(alloc: Global, base: &BaseBlock) -> Result<Bytes, AllocError> {
    let mut sector = [0; 512];
    base_bytes(base, &mut sector);
    Bytes::from_slice(alloc, &sector)
}

/// That many sectors with marks that count up from this one.
pub fn marked(alloc: Global, first: u32, sectors: u32) -> Result<Bytes, AllocError> {
    let mut bytes = Bytes::new(alloc);
    for n in 0..sectors {
        bytes.put_u32(first.saturating_add(n))?;
        bytes.append_zeros(508)?;
    }
    Ok(bytes)
}

/// A primary of that many bins sectors, marked from 1 on.
pub fn primary(alloc: Global, sectors: u32) -> Result<Bytes, AllocError> {
    let bins = marked(alloc, 1, sectors)?;
    let mut bytes = file(alloc, &block(sectors.saturating_mul(512)))?;
    bytes.append_zeros(3584)?;
    bytes.append(bins.as_slice())?;
    Ok(bytes)
}
