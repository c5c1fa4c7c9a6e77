//! An open file of the system.

ghost use Rattle.std.specs.Prelude.{◌≡◌, ◌≤◌};
ghost use Rattle.std.specs.Io.{ReadsAtMost};
ghost use Rattle.file_disk.specs.Asked.{CountsFailure};

use crate::files::SectorFile;
use std::fs::File;
use std::io::{Error, ErrorKind, Result as IoResult};
use std::os::unix::fs::FileExt;

/// How often a read is made again where a signal ended it.
const MOST_TRIES: u32 = 1_000_000;

/// An open file of the system. It reports nothing but how many of its calls failed.
#[derive(Drop)]
pub struct SystemFile {
    file: File,
    failed: u64,
    ghost end: { failed ≤ 18446744073709551615 },
}

impl SystemFile {
    /// The file, open for reading and writing. No call of it failed.
    pub fn new(file: File) -> SystemFile
        ensures file { result.file ≡ file }
        ensures failed { result.failed ≡ 0 }
    {
        SystemFile { file, failed: 0 }
    }

    /// The answer, counted where it is an error.
    fn counted<T>(&mut self, answer: IoResult<T>) -> IoResult<T>
        ensures answer { result ≡ answer }
        ensures failed { CountsFailure answer self.old.failed self.new.failed }
    {
        let _failed = self.failed;
        match answer {
            Ok(found) => Ok(found),
            Err(e) => {
                self.failed = self.failed.saturating_add(1);
                Err(e)
            }
        }
    }
}

/// Reads at a place, again where a signal ended it.
fn read_on(file: &File, into: &mut [u8], place: u64) -> IoResult<usize>
    ensures { ReadsAtMost result into.new }
{
    for _ in 0..MOST_TRIES {
        match file.read_at(into, place) {
            Ok(n) => return Ok(n),
            Err(e) if e.kind() == ErrorKind::Interrupted => {}
            Err(e) => return Err(e),
        }
    }
    Err(Error::from(ErrorKind::Interrupted))
}

impl SectorFile for SystemFile {
    ghost asked = { λ file calls. Unit {0} };

    ghost failed = { λ file. file.failed };

    ghost use Rattle.std.specs.Prelude.{None};

    ghost holds = { λ file. None };

    fn read_at(&mut self, into: &mut [u8], place: u64) -> IoResult<usize> {
        let answer = read_on(&self.file, into, place);
        self.counted(answer)
    }

    fn write_all_at(&mut self, bytes: &[u8], place: u64) -> IoResult<()> {
        let answer = self.file.write_all_at(bytes, place);
        self.counted(answer)
    }

    fn sync_all(&mut self) -> IoResult<()> {
        let answer = self.file.sync_all();
        self.counted(answer)
    }

    ghost bounded = { λ file. file.end };

    ghost use Rattle.std.specs.Prelude.{[]};

    ghost some = { λ file. ([], tt) };
}
