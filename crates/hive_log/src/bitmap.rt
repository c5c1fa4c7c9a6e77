//! The bitmap of a log: a bit for each sector of the new bins data.

ghost use Rattle.std.specs.Prelude.{◌≡◌, ◌<◌, ◌≤◌, ◌+◌, ◌*◌, ◌/◌, ◌++◌, length, take, codes, slice_index};
ghost use Rattle.hive_model.specs.Limits.{most_bins};
ghost use Rattle.hive_model.specs.Recovery as book;
ghost use Rattle.hive_model.specs.Recovery.{bit, sector};
ghost use Rattle.hive_model.specs.Log.{bitmap_text};

/// Bit i, of the lowest first. There is none past the end.
#[tactic(auto, unfolding(hive_model::specs::Recovery::bit))]
pub fn has_bit(bitmap: &[u8], i: usize) -> bool
    ensures { result ≡ bit bitmap.now i }
{
    if i / 8 < bitmap.len() {
        (bitmap[i / 8] >> (i % 8)) % 2 == 1
    } else {
        false
    }
}

/// How many sectors `DIRT` and the bits take for bins data of this size in bytes.
pub fn bitmap_sectors(size: usize) -> usize
    requires { size ≤ most_bins }
    ensures { result ≡ book.bitmap_sectors size }
{
    (size / 4096 + 515) / 512
}

/// The number in the log of the first sector whose bit is on, for bins data of this size in bytes.
pub fn first_dirty(size: usize) -> u32
    requires { size ≤ most_bins }
    ensures value { result ≡ book.first_dirty size }
    ensures small { result ≤ 100 }
{
    1 + bitmap_sectors(size) as u32
}

/// Sector k of `DIRT` and the bits, for bins data of this size in bytes.
pub fn bitmap_sector(bitmap: &[u8], size: usize, k: usize, into: &mut [u8; 512])
    requires bits { size / 4096 ≤ length bitmap.now }
    requires inside { k < book.bitmap_sectors size }
    requires few { size ≤ most_bins }
    ensures { into.new ≡ sector (bitmap_text (bit bitmap.now) size) k }
{
    for j in 0..512 {
        into[j] = bitmap_byte(bitmap, size / 4096, 512 * k + j);
    }
}

/// Byte `at` of `DIRT` and n bytes of bits, with zeros after them.
fn bitmap_byte(bitmap: &[u8], n: usize, at: usize) -> u8
    requires { n ≤ length bitmap.now }
    ensures { result ≡ slice_index (codes "DIRT" ++ take n bitmap.now) at }
{
    let sign = b"DIRT";
    if at < 4 {
        sign[at]
    } else if at - 4 < n {
        bitmap[at - 4]
    } else {
        0
    }
}
