//! Where the file of a text lies, and whether the text names svchost.

ghost use Rattle.std.specs.Prelude.{◌≡◌, true, drop, IfOk};
ghost use Rattle.std.specs.List.{starts_with};
ghost use Rattle.service_list.specs.Folders.{is_separator, begins_parent, steps_up, is_letter, follows_drive, in_drive, in_windows, in_folder, is_root, is_rooted, lies_outside, without_quote, is_outside, is_before_name, ends_name, ends_there, begins_svchost, has_svchost, names_svchost};

use nt_names::name_places::folded;
use std::alloc::{AllocError, Global};

/// `..\`.
const PARENT_BACKSLASH: [u16; 3] = [0x2e, 0x2e, 0x5c];

/// `../`.
const PARENT_SLASH: [u16; 3] = [0x2e, 0x2e, 0x2f];

/// `\WINDOWS\`.
const WINDOWS: [u16; 9] = [0x5c, 0x57, 0x49, 0x4e, 0x44, 0x4f, 0x57, 0x53, 0x5c];

/// `\WINNT\`.
const WINNT: [u16; 7] = [0x5c, 0x57, 0x49, 0x4e, 0x4e, 0x54, 0x5c];

/// `%SYSTEMDRIVE%\WINDOWS\`.
const DRIVE_WINDOWS: [u16; 22] = [
    0x25, 0x53, 0x59, 0x53, 0x54, 0x45, 0x4d, 0x44, 0x52, 0x49, 0x56, 0x45, 0x25, 0x5c, 0x57, 0x49,
    0x4e, 0x44, 0x4f, 0x57, 0x53, 0x5c,
];

/// `%SYSTEMDRIVE%\WINNT\`.
const DRIVE_WINNT: [u16; 20] = [
    0x25, 0x53, 0x59, 0x53, 0x54, 0x45, 0x4d, 0x44, 0x52, 0x49, 0x56, 0x45, 0x25, 0x5c, 0x57, 0x49,
    0x4e, 0x4e, 0x54, 0x5c,
];

/// `\SYSTEMROOT\`.
const ROOT_LINK: [u16; 12] = [
    0x5c, 0x53, 0x59, 0x53, 0x54, 0x45, 0x4d, 0x52, 0x4f, 0x4f, 0x54, 0x5c,
];

/// `%SYSTEMROOT%\`.
const ROOT_VARIABLE: [u16; 13] = [
    0x25, 0x53, 0x59, 0x53, 0x54, 0x45, 0x4d, 0x52, 0x4f, 0x4f, 0x54, 0x25, 0x5c,
];

/// `%WINDIR%\`.
const WINDOWS_VARIABLE: [u16; 9] = [0x25, 0x57, 0x49, 0x4e, 0x44, 0x49, 0x52, 0x25, 0x5c];

/// `\??\`.
const OBJECTS: [u16; 4] = [0x5c, 0x3f, 0x3f, 0x5c];

/// `SVCHOST`.
const SVCHOST: [u16; 7] = [0x53, 0x56, 0x43, 0x48, 0x4f, 0x53, 0x54];

/// `.EXE`.
const EXE: [u16; 4] = [0x2e, 0x45, 0x58, 0x45];

/// What stands after the first that many units.
fn after(text: &[u16], count: usize) -> &[u16]
    ensures { result.now ≡ drop count text.now }
{
    if count <= text.len() {
        &text[count..]
    } else {
        &[]
    }
}

// ---- steps upwards

fn is_separator(unit: u16) -> bool
    ensures { result ≡ is_separator unit }
{
    unit == 0x5c || unit == 0x2f
}

fn begins_parent(text: &[u16]) -> bool
    ensures { result ≡ begins_parent text.now }
{
    text.starts_with(&PARENT_BACKSLASH) || text.starts_with(&PARENT_SLASH)
}

/// Whether two dots stand where a name begins, and a separator after them.
fn steps_up(text: &[u16]) -> bool
    ensures { result ≡ steps_up true text.now }
{
    let mut fresh = true;
    let mut rest = text;
    'units: loop {
        let [unit, more @ ..] = rest else {
            return false;
        };
        if fresh && begins_parent(rest) {
            return true;
        }
        fresh = is_separator(*unit);
        rest = more;
    }
}

// ---- the Windows folder

fn is_letter(unit: u16) -> bool
    ensures { result ≡ is_letter unit }
{
    0x41 <= unit && unit <= 0x5a
}

fn follows_drive(text: &[u16]) -> bool
    ensures { result ≡ follows_drive text.now }
{
    text.starts_with(&WINDOWS) || text.starts_with(&WINNT)
}

fn in_drive(text: &[u16]) -> bool
    ensures { result ≡ in_drive text.now }
{
    match text {
        [letter, colon, rest @ ..] => is_letter(*letter) && *colon == 0x3a && follows_drive(rest),
        _ => false,
    }
}

/// Whether the text begins with a drive's Windows folder.
fn in_windows(text: &[u16]) -> bool
    ensures { result ≡ in_windows text.now }
{
    in_drive(text) || text.starts_with(&DRIVE_WINDOWS) || text.starts_with(&DRIVE_WINNT)
}

/// Whether it begins with any name of the Windows folder.
fn in_folder(text: &[u16]) -> bool
    ensures { result ≡ in_folder text.now }
{
    text.starts_with(&ROOT_LINK)
        || text.starts_with(&ROOT_VARIABLE)
        || text.starts_with(&WINDOWS_VARIABLE)
        || in_windows(text)
}

fn is_root(unit: u16) -> bool
    ensures { result ≡ is_root unit }
{
    unit == 0x5c || unit == 0x2f || unit == 0x25
}

/// Whether the text is more than a path below some folder.
fn is_rooted(text: &[u16]) -> bool
    ensures { result ≡ is_rooted text.now }
{
    match text {
        [] => false,
        [first] => is_root(*first),
        [first, second, ..] => is_root(*first) || *second == 0x3a,
    }
}

fn lies_outside(text: &[u16]) -> bool
    ensures { result ≡ lies_outside text.now }
{
    if steps_up(text) {
        return true;
    }
    if text.starts_with(&OBJECTS) {
        return !in_windows(after(text, 4));
    }
    is_rooted(text) && !in_folder(text)
}

fn without_quote(text: &[u16]) -> &[u16]
    ensures { result.now ≡ without_quote text.now }
{
    match text {
        [] => text,
        [first, rest @ ..] => { if *first == 0x22 { rest } else { text } }
    }
}

/// Whether the file that a text names lies outside of the Windows folder.
pub(crate) fn is_outside(alloc: Global, text: &[u16]) -> Result<bool, AllocError>
    ensures { IfOk result (λ b. b ≡ is_outside text.now) }
{
    let text = folded(alloc, text)?;
    Ok(lies_outside(without_quote(text.as_slice())))
}

// ---- svchost

fn is_before_name(unit: u16) -> bool
    ensures { result ≡ is_before_name unit }
{
    unit == 0x5c || unit == 0x22
}

fn ends_name(text: &[u16]) -> bool
    ensures { result ≡ ends_name text.now }
{
    match text {
        [] => true,
        [first, ..] => *first == 0x20 || *first == 0x22,
    }
}

fn ends_there(text: &[u16]) -> bool
    ensures { result ≡ ends_there text.now }
{
    ends_name(text) || text.starts_with(&EXE) && ends_name(after(text, 4))
}

fn begins_svchost(text: &[u16]) -> bool
    ensures { result ≡ begins_svchost text.now }
{
    text.starts_with(&SVCHOST) && ends_there(after(text, 7))
}

fn has_svchost(text: &[u16]) -> bool
    ensures { result ≡ has_svchost true text.now }
{
    let mut fresh = true;
    let mut rest = text;
    'units: loop {
        let [unit, more @ ..] = rest else {
            return false;
        };
        if fresh && begins_svchost(rest) {
            return true;
        }
        fresh = is_before_name(*unit);
        rest = more;
    }
}

/// Whether a text names svchost.
pub(crate) fn names_svchost(alloc: Global, text: &[u16]) -> Result<bool, AllocError>
    ensures { IfOk result (λ b. b ≡ names_svchost text.now) }
{
    let text = folded(alloc, text)?;
    Ok(has_svchost(text.as_slice()))
}
