//! Where a byte is in a text, and what stands before and after it.

ghost use Rattle.std.specs.Prelude.{◌≡◌, ◌+◌, ◌≤◌, ◌==◌, length, take, drop};
ghost use Rattle.std.specs.List.{position_or_len};

/// Where the first such byte stands, or the text's length.
pub fn place_of(byte: u8, text: &[u8]) -> usize
    ensures place { result ≡ position_or_len (λ c. c == byte) text.now }
    ensures bound { result ≤ length text.now }
{
    let mut place = 0;
    for c in text {
        if *c == byte {
            return place;
        }
        place += 1;
    }
    place
}

/// What stands before a place, and what stands after the byte there; nothing does after the text's end.
pub fn split_around(text: &[u8], place: usize) -> (&[u8], &[u8])
    requires { place ≤ length text.now }
    ensures before { result.0.now ≡ take place text.now }
    ensures behind { result.1.now ≡ drop (place + 1) text.now }
{
    let before = text.split_at(place).0;
    if place == text.len() {
        return (before, &[]);
    }
    (before, text.split_at(place + 1).1)
}
