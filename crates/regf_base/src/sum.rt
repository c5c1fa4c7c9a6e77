//! The checksum of a base block.

ghost use Rattle.std.specs.Prelude.{◌≡◌};
ghost use Rattle.hive_model.specs.Base.{checksum_of, mixed_words};

use nt_bytes::u32_at;

/// The XOR of the first 127 words, but that 0 is 1 and 0xFFFFFFFF is 0xFFFFFFFE.
pub fn checksum(sector: &[u8; 512]) -> u32
    ensures { result ≡ checksum_of sector.now }
{
    match mixed(sector) {
        0 => 1,
        0xffff_ffff => 0xffff_fffe,
        sum => sum,
    }
}

fn mixed(sector: &[u8; 512]) -> u32
    ensures { result ≡ mixed_words 127 sector.now }
{
    let mut mixed = 0;
    for word in 0..127 {
        mixed ^= u32_at(sector, 4 * word);
    }
    mixed
}
