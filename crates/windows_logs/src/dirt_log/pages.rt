//! Writing the sectors of an old log.

ghost use Rattle.std.specs.Prelude.{◌≡◌, ◌≤◌, ◌+◌, ◌*◌, length};
ghost use Rattle.hive_model.specs.Recovery.{sector};
ghost use Rattle.windows_logs.specs.log_parts.Pages.{put_pages};
ghost use Rattle.windows_logs.specs.dirt_log.Dirt.{old_pages_of, IsLong};

use crate::dirt_log::reading::{bits_in, first_dirty};
use hive_log::has_bit;
use nt_bytes::Bytes;

/// The sector of that number, 512 bytes.
#[tactic(auto, unfolding(hive_model::specs::Recovery::sector))]
fn sector_of(bytes: &[u8], i: usize) -> &[u8]
    requires { 512 * i + 512 ≤ length bytes.now }
    ensures value { result.now ≡ sector bytes.now i }
    ensures long { length result.now ≡ 512 }
{
    &bytes[512 * i..512 * i + 512]
}

/// Writes the sectors of a log that has all it needs into the bins data of a hive's file, which has that many bytes of them.
pub fn put_old(file: &mut Bytes, log: &[u8], size: u32)
    requires long { IsLong log.now size }
    requires room { 4096 + size ≤ length file.old }
    ensures written { file.new ≡ put_pages file.old (old_pages_of log.now size) }
    ensures same_length { length file.new ≡ length file.old }
{
    let bits = bits_in(log);
    let mut next = first_dirty(size);
    for i in 0..size as usize / 512 {
        if !has_bit(bits, i) {
            continue;
        }
        file.overwrite(4096 + 512 * i, sector_of(log, next));
        next += 1;
    }
}
