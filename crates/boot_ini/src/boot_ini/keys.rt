//! Lines without blanks at their ends: the sections that they open, their keys and values.

ghost use Rattle.std.specs.Prelude.{◌≡◌};
ghost use Rattle.std.specs.Option.{option_map};
ghost use Rattle.boot_ini.specs.boot_ini.Keys.{sides, value_of, says_something, opens_section, section_name, section_of_name, section_named};

use crate::boot_ini::places::{place_of, split_around};
use nt_bytes::{is_named, trim};

/// The section in which a line stands.
#[derive(Clone, Copy, Debug, PartialEq, Eq)]
pub enum Section {
    Loader,
    Systems,
    Other,
}

/// What stands before and after the first `=`.
pub fn split_line(line: &[u8]) -> Option<(&[u8], &[u8])>
    ensures { option_map (λ x. (x.0.now, x.1.now)) result ≡ sides line.now }
{
    let place = place_of(b'=', line);
    if place == line.len() {
        return None;
    }
    Some(split_around(line, place))
}

/// The value of `key=value`, blanks around both left out.
pub fn value_for<'a>(key: &[u8], line: &'a [u8]) -> Option<&'a [u8]>
    ensures { option_map (λ x. x.now) result ≡ value_of key.now line.now }
{
    match split_line(line) {
        Some((found, value)) => {
            if !is_named(trim(found), key) {
                return None;
            }
            Some(trim(value))
        }
        None => None,
    }
}

/// Whether the line is neither empty nor a comment.
pub fn is_said(line: &[u8]) -> bool
    ensures { result ≡ says_something line.now }
{
    !matches!(line, [] | [b';', ..])
}

pub fn is_opening(line: &[u8]) -> bool
    ensures { result ≡ opens_section line.now }
{
    matches!(line, [b'[', ..])
}

fn name_in(line: &[u8]) -> &[u8]
    ensures { result.now ≡ section_name line.now }
{
    let [_, inside @ ..] = line else {
        return line;
    };
    inside.split_at(place_of(b']', inside)).0
}

fn section_with(name: &[u8]) -> Section
    ensures { result ≡ section_of_name name.now }
{
    if is_named(name, b"boot loader") {
        return Section::Loader;
    }
    if is_named(name, b"operating systems") {
        return Section::Systems;
    }
    Section::Other
}

/// The section that the line opens.
pub fn opened(line: &[u8]) -> Section
    ensures { result ≡ section_named line.now }
{
    section_with(name_in(line))
}
