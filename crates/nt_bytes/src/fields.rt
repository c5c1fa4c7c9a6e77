//! Little-endian fields of a buffer.

ghost use Rattle.std.specs.Prelude.{◌≡◌, ◌≤◌, ◌+◌, ◌++◌, length, take, drop, slice_range};
ghost use Rattle.std.specs.Int.{w16, w32, w64, from_le_bytes, to_le_bytes};

use byteorder::{ByteOrder, LittleEndian};

/// The number in the two bytes at this place.
pub fn u16_at(bytes: &[u8], at: usize) -> u16
    requires { at + 2 ≤ length bytes.now }
    ensures { result ≡ from_le_bytes w16 (slice_range bytes.now at (at + 2)) }
{
    LittleEndian::read_u16(&bytes[at..at + 2])
}

/// The number in the four bytes at this place.
pub fn u32_at(bytes: &[u8], at: usize) -> u32
    requires { at + 4 ≤ length bytes.now }
    ensures { result ≡ from_le_bytes w32 (slice_range bytes.now at (at + 4)) }
{
    LittleEndian::read_u32(&bytes[at..at + 4])
}

/// Writes the number into the two bytes at this place.
pub fn put_u16(bytes: &mut [u8], at: usize, v: u16)
    requires { at + 2 ≤ length bytes.old }
    ensures { bytes.new ≡ take at bytes.old ++ to_le_bytes w16 v ++ drop (at + 2) bytes.old }
{
    LittleEndian::write_u16(&mut bytes[at..at + 2], v);
}

/// Writes the number into the four bytes at this place.
pub fn put_u32(bytes: &mut [u8], at: usize, v: u32)
    requires { at + 4 ≤ length bytes.old }
    ensures { bytes.new ≡ take at bytes.old ++ to_le_bytes w32 v ++ drop (at + 4) bytes.old }
{
    LittleEndian::write_u32(&mut bytes[at..at + 4], v);
}

/// The number in the eight bytes at this place.
pub fn u64_at(bytes: &[u8], at: usize) -> u64
    requires { at + 8 ≤ length bytes.now }
    ensures { result ≡ from_le_bytes w64 (slice_range bytes.now at (at + 8)) }
{
    LittleEndian::read_u64(&bytes[at..at + 8])
}

/// Writes the number into the eight bytes at this place.
pub fn put_u64(bytes: &mut [u8], at: usize, v: u64)
    requires { at + 8 ≤ length bytes.old }
    ensures { bytes.new ≡ take at bytes.old ++ to_le_bytes w64 v ++ drop (at + 8) bytes.old }
{
    LittleEndian::write_u64(&mut bytes[at..at + 8], v);
}
