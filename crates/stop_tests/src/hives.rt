//! A hive of two pages of bins data, the second of which is one free cell.

use crate::files::block;
use generated_hive::generated_hive;
use nt_bytes::Bytes;
use regf_base::base_bytes;
use std::alloc::{AllocError, Global};

/// The second bin: its signature, its place, its size, and after its header one free cell of 4064 bytes.
fn append_free_bin(bytes: &mut Bytes) -> Result<(), AllocError> {
    bytes.append(b"hbin")?;
    bytes.put_u32(4096)?;
    bytes.put_u32(4096)?;
    bytes.append_zeros(20)?;
    bytes.put_u32(4064)?;
    bytes.append_zeros(4060)
}

/// The primary file of a hive of a control set with one service. Its bins data have grown by a second page.
pub fn grown_hive(alloc: Global) -> Result<Bytes, AllocError> {
    let packed = generated_hive(alloc, 1)?;
    let mut sector = [0; 512];
    base_bytes(&block(8192), &mut sector);
    let mut bytes = Bytes::from_slice(alloc, &sector)?;
    bytes.append_zeros(3584)?;
    bytes.append(packed.as_slice().get(4096..).unwrap_or(&[]))?;
    append_free_bin(&mut bytes)?;
    Ok(bytes)
}
