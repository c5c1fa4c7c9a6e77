//! What is copied into the caller's memory.

ghost use Rattle.std.specs.Prelude.{◌≡◌, ◌++◌, drop, length, take};

/// Copies as many of the bytes as there is room for, and says how many there are.
pub(crate) fn give(bytes: &[u8], room: &mut [u8], whole: &mut usize)
    ensures whole { whole.new ≡ length bytes.now }
    ensures front { room.new ≡ take (length room.old) bytes.now ++ drop (length bytes.now) room.old }
{
    let many = bytes.len().min(room.len());
    room[..many].copy_from_slice(&bytes[..many]);
    *whole = bytes.len();
}
