//! Files as vectors of sectors: bytes cut up, and sectors joined.

ghost use Rattle.std.specs.Prelude.{◌≡◌, ◌+◌, ◌*◌, ◌<◌, ◌≤◌, ℕ, None, length, take, drop, IfOk};
ghost use Rattle.hive_model.specs.Image.{sector_of, padded, bytes_of};
ghost use Rattle.mem_edge.specs.Views.{content_of, held_in};
ghost use Rattle.mem_edge.specs.Files.{IsJoined};

use crate::writes::Sector;
use nt_bytes::Bytes;
use std::alloc::{AllocError, Global};
use std::rc::Rc;

/// The sectors of a file, the last one filled with zeros.
pub fn cut_up(alloc: Global, bytes: &[u8]) -> Result<Vec<Sector>, AllocError>
    ensures { IfOk result (λ sectors. (n : ℕ) → held_in sectors.items n ≡ sector_of bytes.now n) }
{
    let mut sectors = Vec::new(alloc);
    let mut rest = bytes;
    while !rest.is_empty() {
        let (sector, more) = first_of(rest);
        let whole = Rc::new(alloc, sector)?;
        sectors.push(Sector::Whole(whole))?;
        rest = more;
    }
    Ok(sectors)
}

/// The first sector of some bytes, and what is after it.
fn first_of(bytes: &[u8]) -> ([u8; 512], &[u8])
    ensures sector { result.0 ≡ padded (take 512 bytes.now) }
    ensures more { result.1.now ≡ drop 512 bytes.now }
{
    let mut sector = [0; 512];
    if bytes.len() < 512 {
        sector[..bytes.len()].copy_from_slice(bytes);
        (sector, &[])
    } else {
        let (front, more) = bytes.split_at(512);
        sector.copy_from_slice(front);
        (sector, more)
    }
}

/// How many sectors there are up to the last one that is present.
fn count_of(sectors: &[Sector]) -> usize
    ensures within { result ≤ length sectors.now }
    ensures none { (n : ℕ) → result ≤ n → held_in sectors.now n ≡ None }
    ensures last { (n : ℕ) → result ≡ n + 1 → held_in sectors.now n ≡ None → ⊥ }
{
    let mut count = sectors.len();
    while count > 0 && sectors[count - 1].is_absent() {
        count -= 1;
    }
    count
}

/// The bytes of a sector, zeros where it is absent or can't be read.
fn bytes_in(sector: &Sector) -> [u8; 512]
    ensures bytes { result ≡ bytes_of (content_of sector.now) }
    ensures whole { length result ≡ 512 }
{
    match sector {
        Sector::Whole(bytes) => copied(bytes),
        Sector::Absent | Sector::Unreadable => [0; 512],
    }
}

/// A copy of the bytes. That there are 512 is known of them here, and not where an `Rc` holds them.
fn copied(bytes: &[u8; 512]) -> [u8; 512]
    ensures same { result ≡ bytes.now }
    ensures whole { length result ≡ 512 }
{
    *bytes
}

/// The bytes of the sectors up to the last one that is present, zeros for one that is absent or can't be read.
pub fn joined(alloc: Global, sectors: &[Sector]) -> Result<Bytes, AllocError>
    ensures { IfOk result (λ bytes. IsJoined sectors.now bytes) }
{
    let mut bytes = Vec::new(alloc);
    for sector in &sectors[..count_of(sectors)] {
        bytes.extend_from_slice(&bytes_in(sector))?;
    }
    Ok(Bytes::from_vec(bytes))
}
