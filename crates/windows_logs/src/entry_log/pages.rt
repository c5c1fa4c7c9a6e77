//! Writing the pages of an entry.

ghost use Rattle.std.specs.Prelude.{◌≡◌, ◌≤◌, ◌+◌, length};
ghost use Rattle.windows_logs.specs.log_parts.Pages.{put_pages};
ghost use Rattle.windows_logs.specs.entry_log.Entries.{pages_of, IsWhole};

use crate::entry_log::entry::{Entry, bytes_of};
use nt_bytes::{Bytes, u32_at};

/// Writes the pages of a whole entry into the bins data of a hive's file, which has that many bytes of them.
pub fn put_entry(file: &mut Bytes, log: &[u8], entry: &Entry)
    requires whole { IsWhole log.now entry.now }
    requires room { 4096 + entry.now.size ≤ length file.old }
    ensures written { file.new ≡ put_pages file.old (pages_of log.now entry.now) }
    ensures same_length { length file.new ≡ length file.old }
{
    let bytes = bytes_of(log, entry);
    let mut start = 40 + 8 * entry.count as usize;
    for i in 0..entry.count as usize {
        let place = u32_at(bytes, 40 + 8 * i) as usize;
        let long = u32_at(bytes, 40 + 8 * i + 4) as usize;
        file.overwrite(4096 + place, &bytes[start..start + long]);
        start += long;
    }
}
