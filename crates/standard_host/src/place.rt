//! Where a file is put.

use std::fs;
use std::fs::{File, Metadata};
use std::io::{Error, ErrorKind, Result};
use std::os::unix::fs::MetadataExt;
use std::path::{Path, PathBuf};

/// How many links are followed, in sequence; the same number as Linux follows.
const MOST_LINKS: u32 = 40;

/// Where a file is put: a path that is no link, what stands there now, and the folder that it is in.
#[derive(Drop)]
pub(crate) struct Place {
    pub(crate) path: PathBuf,
    pub(crate) old: Option<Metadata>,
    pub(crate) folder: Folder,
}

/// A folder: the device that it is on, and its number there.
#[derive(Clone, Copy, Debug, PartialEq, Eq, Drop)]
pub(crate) struct Folder {
    device: u64,
    number: u64,
}

/// What is at a path; a link is not followed.
fn standing(rt: &HostRuntime, path: Path<'_>) -> Result<Option<Metadata>> {
    match fs::symlink_metadata(rt, path) {
        Ok(old) => Ok(Some(old)),
        Err(e) if e.kind() == ErrorKind::NotFound => Ok(None),
        Err(e) => Err(e),
    }
}

/// The path of the folder of a path.
fn folder_path(path: Path<'_>) -> &str {
    match path.parent() {
        Some(folder) if !folder.as_str().is_empty() => folder.as_str(),
        Some(_) => ".",
        None => ".",
    }
}

/// The folder of a path.
fn folder_of(rt: &HostRuntime, path: Path<'_>) -> Result<Folder> {
    let folder = fs::metadata(rt, folder_path(path))?;
    Ok(Folder {
        device: folder.dev(),
        number: folder.ino(),
    })
}

/// Whether a path ends in the name of a file, and not in a slash or a dot.
fn ends_in_a_name(path: Path<'_>) -> bool {
    match path.file_name() {
        Some(name) => path.as_str().ends_with(name),
        None => false,
    }
}

/// The place that a name leads to over links.
pub(crate) fn place_of(rt: &HostRuntime, name: &str) -> Result<Place> {
    let mut path = PathBuf::from_str(rt.alloc(), name)?;
    for _ in 0..MOST_LINKS {
        let old = standing(rt, path.as_path())?;
        if !old.as_ref().is_some_and(|old| old.is_symlink()) {
            if !ends_in_a_name(path.as_path()) {
                return Err(Error::from(ErrorKind::InvalidInput));
            }
            let folder = folder_of(rt, path.as_path())?;
            return Ok(Place { path, old, folder });
        }
        let link = fs::read_link(rt, path.as_path())?;
        path.set_file_name(link.as_str())?;
    }
    Err(Error::from(ErrorKind::FilesystemLoop))
}

impl Place {
    /// Whether both are one file: they have one folder and one name there.
    pub(crate) fn is(&self, other: &Place) -> bool {
        self.folder == other.folder
            && self.path.as_path().file_name() == other.path.as_path().file_name()
    }

    /// Opens the folder, to be synced; none where this user may not read it.
    pub(crate) fn open_folder(&self, rt: &HostRuntime) -> Result<Option<File>> {
        match File::open(rt, folder_path(self.path.as_path())) {
            Ok(folder) => Ok(Some(folder)),
            Err(e) if e.kind() == ErrorKind::PermissionDenied => Ok(None),
            Err(e) => Err(e),
        }
    }
}
