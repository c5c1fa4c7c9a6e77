//! A command on the files that a caller gives, and what it leaves.

ghost use Rattle.std.specs.Prelude.{◌≡◌, IfOk};
ghost use Rattle.mem_edge.specs.Hosts.{quiet_files_of, quiet_host_of};
ghost use Rattle.ntboot_c.specs.Answers.{bytes_of, Answers, IsLeftOn};
ghost use Rattle.ntboot_c.specs.Inputs.{files_in};

use crate::inputs::{Inputs, host_with};
use crate::words::words_in;
use mem_edge::{MemDisk, QuietHost};
use nt_bytes::Bytes;
use ntboot_cli::{Status, ntboot};
use std::alloc::{AllocError, Global};

/// What a command printed and saved, and its status.
#[derive(Drop)]
pub(crate) struct Answer {
    pub(crate) status: Status,
    pub(crate) said: Bytes,
    pub(crate) saved_hive: Bytes,
    pub(crate) saved_log: Bytes,
}

/// The bytes of the file, none where there is no such file.
fn file(alloc: Global, host: &QuietHost, name: &str) -> Result<Bytes, AllocError>
    ensures { IfOk result (λ bytes. bytes ≡ bytes_of (quiet_files_of host.now name.now)) }
{
    match host.file(name) {
        Some(bytes) => Bytes::from_slice(alloc, bytes),
        None => Ok(Bytes::new(alloc)),
    }
}

/// What was printed on a host, and what was saved there.
fn left_on(alloc: Global, status: Status, host: &QuietHost) -> Result<Answer, AllocError>
    ensures { IfOk result (IsLeftOn status (quiet_host_of host.now)) }
{
    let said = Bytes::from_slice(alloc, host.said())?;
    let saved_hive = file(alloc, host, "saved")?;
    let saved_log = file(alloc, host, "saved.log")?;
    Ok(Answer {
        status,
        said,
        saved_hive,
        saved_log,
    })
}

/// Does what the words ask for, on a new disk in memory.
pub(crate) fn obey(alloc: Global, text: &[u8], inputs: &Inputs<'_>) -> Result<Answer, AllocError>
    ensures { IfOk result (Answers text.now (files_in inputs.now)) }
{
    let words = words_in(alloc, text)?;
    let mut host = host_with(alloc, inputs)?;
    let mut disk = MemDisk::new(alloc);
    let status = ntboot(alloc, words.as_slice(), &mut host, &mut disk);
    left_on(alloc, status, &host)
}
