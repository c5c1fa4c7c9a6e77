//! A file that is written, and waits for its name.
//!
//! The bytes go into a new file in the folder of the old one, and are synced there. That it then takes the name at one moment is the
//! system's promise: up to then the name has the old file, and afterwards the new one.

ghost use Rattle.std.specs.Prelude.{◌≡◌};
ghost use Rattle.standard_host.specs.Hives.{is_dirty_hive};

use crate::place::{Place, place_of};
use nt_bytes::u32_at;
use std::alloc::Global;
use std::fs;
use std::fs::{File, Metadata, OpenOptions};
use std::io::{Error, ErrorKind, Read, Result, Write};
use std::os::fd::AsFd;
use std::os::unix::fs::{MetadataExt, OpenOptionsExt, fchown};
use std::path::PathBuf;

/// How many names are tried for the new file. A run that is killed may leave one of them.
const MOST_NAMES: u32 = u32::MAX;

/// A file that is written under a name of its own, and synced.
#[derive(Drop)]
pub(crate) struct StagedFile {
    name: String,
    place: Place,
    temporary: PathBuf,
    folder: Option<File>,
    wants_log: bool,
    stands: bool,
}

/// Whether the bytes are a hive that loads with its log alone: its sequence numbers differ.
pub(crate) fn wants_log(bytes: &[u8]) -> bool
    ensures { result ≡ is_dirty_hive bytes.now }
{
    bytes.len() >= 512
        && bytes.starts_with(b"regf")
        && u32_at(bytes, 28) == 0
        && u32_at(bytes, 4) != u32_at(bytes, 8)
}

/// Makes the new file beside the place, under a name that nothing has.
fn new_beside(rt: &HostRuntime, place: &Place) -> Result<(File, PathBuf)> {
    // Until it has the mode of the old one, nobody else may read it.
    let mode = if place.old.is_some() { 0o600 } else { 0o666 };
    for number in 0..MOST_NAMES {
        let name = format!(in rt.alloc(); ".ntboot-new-{number}")?;
        let path = place
            .path
            .as_path()
            .with_file_name(rt.alloc(), name.as_str())?;
        let mut options = OpenOptions::new();
        match options
            .write(true)
            .create_new(true)
            .mode(mode)
            .open(rt, path.as_path())
        {
            Ok(file) => return Ok((file, path)),
            Err(e) if e.kind() == ErrorKind::AlreadyExists => {}
            Err(e) => return Err(e),
        }
    }
    Err(Error::from(ErrorKind::AlreadyExists))
}

/// Gives the new file its bytes, and the owner and mode of the old one.
fn fill(file: &mut File, old: &Option<Metadata>, bytes: &[u8]) -> Result<()> {
    file.write_all(bytes)?;
    if let Some(old) = old {
        fchown(file.as_fd(), Some(old.uid()), Some(old.gid()))?;
        file.set_permissions(old.permissions())?;
    }
    file.sync_all()
}

/// Writes the bytes into a new file beside that of this name, which has to be one that may be written.
pub(crate) fn stage(rt: &HostRuntime, name: &str, bytes: &[u8]) -> Result<StagedFile> {
    let place = place_of(rt, name)?;
    if place.old.is_some() {
        let _old = OpenOptions::new()
            .write(true)
            .open(rt, place.path.as_path())?;
    }
    let folder = place.open_folder(rt)?;
    let name = String::from_str(rt.alloc(), name)?;
    let (mut file, temporary) = new_beside(rt, &place)?;
    match fill(&mut file, &place.old, bytes) {
        Ok(()) => Ok(StagedFile {
            name,
            place,
            temporary,
            folder,
            wants_log: wants_log(bytes),
            stands: false,
        }),
        Err(e) => {
            let _gone = fs::remove_file(rt, temporary.as_path());
            Err(e)
        }
    }
}

/// Syncs a folder; one that knows no sync has nothing to be synced.
fn sync_folder(folder: &File) -> Result<()> {
    match folder.sync_all() {
        Ok(()) => Ok(()),
        Err(e) if e.kind() == ErrorKind::InvalidInput => Ok(()),
        Err(e) => Err(e),
    }
}

/// Whether a hive that needs its log is at a place.
fn stands_dirty(rt: &HostRuntime, place: &Place) -> bool {
    let mut head = [0u8; 512];
    match File::open(rt, place.path.as_path()) {
        Ok(mut file) => file.read_exact(&mut head).is_ok() && wants_log(&head),
        Err(_) => false,
    }
}

impl StagedFile {
    /// The name that it was put under.
    pub(crate) fn name(&self) -> &str {
        self.name.as_str()
    }

    /// Whether it and what it is to replace are both hives that load with a log alone.
    pub(crate) fn replaces_its_like(&self, rt: &HostRuntime) -> bool {
        self.wants_log && stands_dirty(rt, &self.place)
    }

    /// Whether it is a hive that loads with its log alone.
    pub(crate) fn wants_log(&self) -> bool {
        self.wants_log
    }

    /// Whether both wait for the name of one file.
    pub(crate) fn shares_its_place(&self, other: &StagedFile) -> bool {
        self.place.is(&other.place)
    }

    /// Whether both were put under one name.
    pub(crate) fn shares_its_name(&self, other: &StagedFile) -> bool {
        self.name == other.name
    }

    /// Gives it its name, and syncs the folder.
    pub(crate) fn take_its_name(&mut self, rt: &HostRuntime) -> Result<()> {
        fs::rename(rt, self.temporary.as_path(), self.place.path.as_path())?;
        self.stands = true;
        match &self.folder {
            Some(folder) => sync_folder(folder),
            None => Ok(()),
        }
    }

    /// Removes it, where it has not got its name.
    pub(crate) fn remove(&self, rt: &HostRuntime) {
        if !self.stands {
            let _gone = fs::remove_file(rt, self.temporary.as_path());
        }
    }
}
