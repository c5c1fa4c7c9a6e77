//! `\u` and four hexadecimal digits.

ghost use Rattle.std.specs.Prelude.{◌≡◌, ◌<◌, IfSome};
ghost use Rattle.nt_names.specs.written_name.Written.{digit_of, number_of, escaped_in};

/// What a hexadecimal digit stands for, of either case.
fn digit_of(unit: u16) -> Option<u16>
    ensures digit { result ≡ digit_of unit }
    ensures small { IfSome result (λ d. d < 16) }
{
    match unit {
        0x30..=0x39 => Some(unit - 0x30),
        0x61..=0x66 => Some(unit - 0x57),
        0x41..=0x46 => Some(unit - 0x37),
        _ => None,
    }
}

/// The number that four hexadecimal digits write.
fn number_of(a: u16, b: u16, c: u16, d: u16) -> Option<u16>
    ensures { result ≡ number_of a b c d }
{
    let a = digit_of(a)?;
    let b = digit_of(b)?;
    let c = digit_of(c)?;
    let d = digit_of(d)?;
    Some(4096 * a + 256 * b + 16 * c + d)
}

/// The unit whose escape the units begin with.
pub(crate) fn escaped_in(units: &[u16]) -> Option<u16>
    ensures { result ≡ escaped_in units.now }
{
    match units {
        [0x5c, 0x75, a, b, c, d, ..] => number_of(*a, *b, *c, *d),
        _ => None,
    }
}
