//! Two files as a disk that can only be read.

ghost use Rattle.std.specs.Prelude.{◌≡◌, ◌*◌, ◌<◌, true, Some, None, IfOk, length};
ghost use Rattle.hive_model.specs.Base.{is_bins_size};
ghost use Rattle.hive_model.specs.Image as image;
ghost use Rattle.hive_model.specs.Recovery.{recovered_of};
ghost use Rattle.hive_log.specs.Stops.{ReadsFiles};

use crate::{LoadStop, Reading, Recovered, read_recovered};
use nt_bytes::ReadStop;
use nt_edge::{Address, Disk, DiskStop, HiveFile, Presence};
use std::alloc::Global;

/// Two files as a disk that is on and shows what it holds: the first 65,536 sectors of each, 512 bytes a sector, the last one
/// filled up with zeros. An empty file is an absent one. Every write and every sync lacks memory.
#[derive(Drop)]
pub struct TwoFiles<'a> {
    /// The file of the primary.
    pub primary: &'a [u8],
    /// The file of the log, or what a caller keeps in its place.
    pub log: &'a [u8],
}

impl Disk for TwoFiles<'_> {
    ghost use Rattle.std.specs.Prelude.{true};
    ghost use Rattle.hive_log.specs.FilesState.{files_state, files_bounded, files_said};

    ghost tells = { true };

    ghost state = { files_state };

    // the files forget their calls
    ghost calls = { λ files made. Unit {0} };

    fn read(&mut self, at: Address, into: &mut [u8; 512]) -> Result<Presence, DiskStop> {
        let bytes = match at.file {
            HiveFile::Primary => self.primary,
            HiveFile::Log => self.log,
        };
        if at.sector < 65_536 {
            Ok(file_sector(bytes, at.sector as usize, into))
        } else {
            Ok(Presence::Absent)
        }
    }

    fn write(&mut self, _at: Address, _bytes: &[u8; 512]) -> Result<(), DiskStop> {
        Err(DiskStop::Memory)
    }

    fn sync(&mut self) -> Result<(), DiskStop> {
        Err(DiskStop::Memory)
    }

    ghost bounded = { files_bounded };

    ghost some = { files_said };
}

/// Sector n of a file, filled up with zeros, unless it lies past the end.
fn file_sector(bytes: &[u8], n: usize, into: &mut [u8; 512]) -> Presence
    requires { n < 65536 }
    ensures whole { result ≡ Presence.Whole → image.sector_of bytes.now n ≡ Some (image.Bytes into.new) }
    ensures absent { result ≡ Presence.Absent → image.sector_of bytes.now n ≡ None }
    ensures readable { result ≡ Presence.Unreadable → ⊥ }
{
    if bytes.len() <= 512 * n {
        return Presence::Absent;
    }
    let rest = &bytes[512 * n..];
    *into = [0; 512];
    if rest.len() < 512 {
        into[..rest.len()].copy_from_slice(rest);
    } else {
        into.copy_from_slice(&rest[..512]);
    }
    Presence::Whole
}

/// What two files are recovered as; an empty log is an absent one. `Fault` is the first check that fails.
pub fn recovered(alloc: Global, primary: &[u8], log: &[u8]) -> Result<Recovered, ReadStop>
    ensures exact { ReadsFiles result (recovered_of (image.image_of primary.now log.now)) }
    ensures sized { IfOk result (λ r. is_bins_size (length r.bins) ≡ true) }
{
    let mut files = TwoFiles { primary, log };
    match read_recovered(alloc, &mut files) {
        Ok(
            Reading {
                recovered,
                bitmap: _,
            },
        ) => Ok(recovered),
        Err(LoadStop::Fault(fault)) => Err(ReadStop::Fault(fault)),
        Err(LoadStop::Memory) => Err(ReadStop::Memory),
        Err(LoadStop::PowerLost | LoadStop::Device) => unreachable!(),
    }
}
