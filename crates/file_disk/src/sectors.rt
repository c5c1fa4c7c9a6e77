//! A sector of an open file.

ghost use Rattle.std.specs.Prelude.{◌≡◌, ◌<◌, ◌≤◌, ◌+◌, ◌-◌, ◌*◌, ◌∷◌, [], if◌then◌else◌, nat_eq, IfOk, ℕ, take, drop};
ghost use Rattle.std.specs.Option.{IfSome};
ghost use Rattle.file_disk.specs.Given.{Gives, Fills};
ghost use Rattle.file_disk.specs.Asked.{ReadFrom, WroteTo, Asks, CountsFailure, ReadsSector};
ghost use Rattle.nt_edge.specs.declared.disk.Presence.TheVariants.{Whole, Absent};

use crate::files::SectorFile;
use nt_edge::Presence;
use std::io::{Error, ErrorKind, Result};

/// The byte at which a sector begins.
fn place_of(sector: u32) -> u64
    ensures { result ≡ 512 * sector }
{
    512 * u64::from(sector)
}

/// Reads bytes of a sector from this one of its bytes on, the same number as the file gives at once.
fn read_on<F: SectorFile>(
    file: &mut F,
    sector: u32,
    into: &mut [u8; 512],
    got: usize,
) -> Result<usize>
    requires { got < 512 }
    ensures asked { Asks (F.asked file.old) (F.asked file.new) (ReadFrom (512 * sector + got) (512 - got) ∷ []) }
    ensures failed { CountsFailure result (F.failed file.old) (F.failed file.new) }
    ensures within { IfOk result (λ n. got + n ≤ 512) }
    ensures given { IfSome (F.holds file.old) (λ bytes. IfOk result (λ n. Gives bytes (512 * sector + got) n (drop got into.old) (drop got into.new))) }
    ensures before { take got into.new ≡ take got into.old }
    ensures held { F.holds file.new ≡ F.holds file.old }
{
    file.read_at(&mut into[got..], place_of(sector) + got as u64)
}

/// Reads up to a sector's end or the file's, over zeros, and answers how many bytes there were.
fn fill<F: SectorFile>(file: &mut F, sector: u32, into: &mut [u8; 512]) -> Result<usize>
    ensures asked { ReadsSector sector (F.asked file.old) (F.asked file.new) }
    ensures failed { CountsFailure result (F.failed file.old) (F.failed file.new) }
    ensures most { IfOk result (λ n. n ≤ 512) }
    ensures filled { IfSome (F.holds file.old) (λ bytes. IfOk result (λ n. Fills bytes (512 * sector) n into.new)) }
    ensures held { F.holds file.new ≡ F.holds file.old }
{
    *into = [0; 512];
    let mut got = 0;
    // Each read gives a byte at least, or finds the end.
    while got < 512 {
        let more = read_on(file, sector, into, got)?;
        if more == 0 {
            return Ok(got);
        }
        got += more;
    }
    Ok(got)
}

/// Whether a sector of which that many bytes are in the file is there.
fn presence(there: usize) -> Presence
    ensures { result ≡ (if nat_eq there 0 then Absent else Whole) }
{
    if there == 0 {
        Presence::Absent
    } else {
        Presence::Whole
    }
}

/// Reads a sector. A short last one is filled with zeros; at and past the end there is none.
pub(crate) fn read_sector<F: SectorFile>(
    file: &mut F,
    sector: u32,
    into: &mut [u8; 512],
) -> Result<Presence>
    ensures asked { ReadsSector sector (F.asked file.old) (F.asked file.new) }
    ensures failed { CountsFailure result (F.failed file.old) (F.failed file.new) }
    ensures readable { IfOk result (λ found. found ≡ Presence.Unreadable → ⊥) }
    ensures content { IfSome (F.holds file.old) (λ bytes. IfOk result (λ found. (n : ℕ) × (Fills bytes (512 * sector) n into.new) × (found ≡ (if nat_eq n 0 then Absent else Whole)))) }
{
    match fill(file, sector, into) {
        Ok(there) => Ok(presence(there)),
        Err(e) => Err(e),
    }
}

/// Writes a sector, whole. A file that ends before it or within it grows up to its end, and none shrinks.
pub(crate) fn write_sector<F: SectorFile>(
    file: &mut F,
    sector: u32,
    bytes: &[u8; 512],
) -> Result<()>
    ensures asked { Asks (F.asked file.old) (F.asked file.new) (WroteTo (512 * sector) bytes.now ∷ []) }
    ensures failed { CountsFailure result (F.failed file.old) (F.failed file.new) }
{
    file.write_all_at(bytes, place_of(sector))
}
