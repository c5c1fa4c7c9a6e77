//! The line of a reason.

ghost use Rattle.std.specs.Prelude.{◌≡◌, Bool, false, IfOk, is_some, map, None, Some, true, unwrap_or};
ghost use Rattle.std.specs.Option.{IfSome};
ghost use Rattle.refusal_reason.specs.reason_lines.Files.{value_of};
ghost use Rattle.refusal_reason.specs.reason_lines.Lines.{heard_line};
ghost use Rattle.refusal_reason.specs.reason_lines.Seen.{heard_seen};
ghost use Rattle.refusal_reason.specs.refusal_reason.Notes.{dirty_file, IsNoted};
ghost use Rattle.refusal_reason.specs.refusal_reason.Reasons.{fault_line, heard_by, is_dirty_at, is_dirty_in, is_judged, printed_line, reason_line, IsLine, IsLooked, IsUnread};

use crate::reason_lines::{
    Heard, absent_line, file_at, heard_in, heard_line, is_dirty, memory_line, missing_in,
    unread_line, unwritten_line, value_of,
};
use crate::refusal_reason::notes::{Notes, first};
use command_parts::command_parts::Status;
use nt_edge::{Host, HostStop};
use std::alloc::{AllocError, Global};

/// Whether the file of this name is dirty, no where there is none; nothing where the host refuses.
fn is_dirty_file<H: Host>(name: &str, host: &mut H) -> Option<bool>
    ensures looked { IsLooked (H.state host.old) (H.state host.new) }
    ensures dirty { (H.state host.old).tells ≡ true → IfSome result (λ d. d ≡ unwrap_or (dirty_file (H.state host.old).files (Some name.now)) false) }
    ensures unknown { result ≡ None → IsUnread (H.state host.old) (H.state host.new) }
{
    match host.get(name) {
        Ok(Some(bytes)) => Some(is_dirty(bytes.as_slice())),
        Ok(None) => Some(false),
        Err(_) => None,
    }
}

/// Whether the file that the option names is dirty, no where there is none; nothing where the host refuses.
fn asked_dirty<H: Host>(words: &[&str], option: &str, host: &mut H) -> Option<bool>
    ensures looked { IsLooked (H.state host.old) (H.state host.new) }
    ensures dirty { (H.state host.old).tells ≡ true
        → IfSome result (λ d. d ≡ is_dirty_at (map (λ w. w.now) words.now) (H.state host.old).files option.now) }
    ensures unknown { result ≡ None → IsUnread (H.state host.old) (H.state host.new) }
{
    match value_of(words, option) {
        Some(name) => is_dirty_file(name, host),
        None => Some(false),
    }
}

/// The same, where it may be noted: then the host isn't asked.
fn is_dirty_at<H: Host>(
    words: &[&str],
    option: &str,
    noted: Option<bool>,
    host: &mut H,
) -> Option<bool>
    ensures looked { IsLooked (H.state host.old) (H.state host.new) }
    ensures unasked { is_some noted ≡ true → H.state host.new ≡ H.state host.old }
    ensures dirty { (H.state host.old).tells ≡ true
        → (is_some noted ≡ true → dirty_file (H.state host.old).files (value_of (map (λ w. w.now) words.now) option.now) ≡ noted)
        → IfSome result (λ d. d ≡ is_dirty_at (map (λ w. w.now) words.now) (H.state host.old).files option.now) }
    ensures unknown { result ≡ None → IsUnread (H.state host.old) (H.state host.new) }
{
    match noted {
        Some(dirty) => Some(dirty),
        None => asked_dirty(words, option, host),
    }
}

/// Whether the hive with the fault is dirty, no where it is no hive's; nothing where the host refuses.
fn is_dirty_in<H: Host>(words: &[&str], heard: Heard, notes: &Notes, host: &mut H) -> Option<bool>
    ensures looked { IsLooked (H.state host.old) (H.state host.new) }
    ensures unasked { is_judged (heard_seen heard) notes.now ≡ true → H.state host.new ≡ H.state host.old }
    ensures dirty { (H.state host.old).tells ≡ true → IsNoted (map (λ w. w.now) words.now) (H.state host.old) notes.now
        → IfSome result (λ d. d ≡ is_dirty_in (map (λ w. w.now) words.now) (H.state host.old).files (heard_seen heard)) }
    ensures unknown { result ≡ None → IsUnread (H.state host.old) (H.state host.new) }
{
    match heard {
        Heard::Hive(_, _, _) => is_dirty_at(words, "--hive", notes.dirty, host),
        Heard::Other(_, _, _) => is_dirty_at(words, "--with", notes.other_dirty, host),
        Heard::Nothing => Some(false),
        Heard::Script(_, _) => Some(false),
        Heard::BootIni(_) => Some(false),
        Heard::Reg(_, _) => Some(false),
    }
}

/// The line for a fault of a hive that is dirty or not, where that is known.
fn judged_line(
    alloc: Global,
    words: &[&str],
    heard: Heard,
    dirty: Option<bool>,
) -> Result<Vec<u8>, AllocError>
    ensures { IfOk result (λ l. (d : Bool) → IfSome dirty (λ is. is ≡ d) → IsLine (heard_line (map (λ w. w.now) words.now) (heard_seen heard) d d) l.items) }
{
    match dirty {
        Some(dirty) => heard_line(alloc, words, heard, dirty, dirty),
        None => memory_line(alloc),
    }
}

/// The line for the fault that was printed.
fn fault_line<H: Host>(
    alloc: Global,
    words: &[&str],
    notes: &Notes,
    host: &mut H,
) -> Result<Vec<u8>, AllocError>
    ensures looked { IsLooked (H.state host.old) (H.state host.new) }
    ensures unasked { is_judged (heard_by notes.now) notes.now ≡ true → H.state host.new ≡ H.state host.old }
    ensures line { (H.state host.old).tells ≡ true → IsNoted (map (λ w. w.now) words.now) (H.state host.old) notes.now
        → IfOk result (λ l. IsLine (fault_line (map (λ w. w.now) words.now) notes.now (H.state host.old).files) l.items) }
{
    let heard = heard_in(first(notes.front.as_slice(), 128));
    let dirty = is_dirty_in(words, heard, notes, host);
    judged_line(alloc, words, heard, dirty)
}

/// The line for what was printed.
fn printed_line<H: Host>(
    alloc: Global,
    words: &[&str],
    status: Status,
    notes: &Notes,
    host: &mut H,
) -> Result<Vec<u8>, AllocError>
    ensures looked { IsLooked (H.state host.old) (H.state host.new) }
    ensures unasked { is_judged (heard_by notes.now) notes.now ≡ true → H.state host.new ≡ H.state host.old }
    ensures line { (H.state host.old).tells ≡ true → IsNoted (map (λ w. w.now) words.now) (H.state host.old) notes.now
        → IfOk result (λ l. IsLine (printed_line (map (λ w. w.now) words.now) status notes.now (H.state host.old).files) l.items) }
{
    match status {
        Status::NoFile => {
            absent_line(
                alloc,
                words,
                file_at(words, missing_in(words, notes.front.as_slice())),
            )
        }
        _ => fault_line(alloc, words, notes, host),
    }
}

/// The line with the reason of a status that is neither an answer nor bad usage. A hive is asked for where it has the fault and it is not
/// noted whether it is dirty.
pub fn reason_line<H: Host>(
    alloc: Global,
    words: &[&str],
    status: Status,
    notes: &Notes,
    host: &mut H,
) -> Result<Vec<u8>, AllocError>
    ensures looked { IsLooked (H.state host.old) (H.state host.new) }
    ensures unasked { is_judged (heard_by notes.now) notes.now ≡ true → H.state host.new ≡ H.state host.old }
    ensures line { (H.state host.old).tells ≡ true → IsNoted (map (λ w. w.now) words.now) (H.state host.old) notes.now
        → IfOk result (λ l. IsLine (reason_line (map (λ w. w.now) words.now) status notes.now (H.state host.old).files) l.items) }
{
    match status {
        Status::ReadFault => unread_line(alloc, file_at(words, notes.unread)),
        Status::WriteFault => unwritten_line(alloc, file_at(words, notes.unwritten)),
        Status::Memory => memory_line(alloc),
        _ if notes.whole => printed_line(alloc, words, status, notes, host),
        _ => memory_line(alloc),
    }
}
