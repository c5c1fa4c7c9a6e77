//! The reason of a refusal, printed on standard error.

ghost use Rattle.std.specs.Prelude.{◌≡◌, false, true, map, IfOk};
ghost use Rattle.command_words.specs.Reading.{reading_of};
ghost use Rattle.nt_edge.specs.Host.{Warns};
ghost use Rattle.refusal_reason.specs.refusal_reason.Notes.{IsNoted};
ghost use Rattle.refusal_reason.specs.refusal_reason.Reasons.{explains, has_reason, heard_by, is_judged, line_on, usage_line, IsExplained, IsLine, IsLooked};

use crate::refusal_reason::line::reason_line;
use crate::refusal_reason::notes::Notes;
use command_parts::command_parts::Status;
use command_words::{Reading, read_words, wants_reason};
use nt_edge::Host;
use std::alloc::{AllocError, Global};

/// Whether the status is a refusal or a stop, and no answer.
fn has_reason(status: Status) -> bool
    ensures { result ≡ has_reason status }
{
    match status {
        Status::Done | Status::Found => false,
        _ => true,
    }
}

/// The line for words that cannot be parsed.
fn usage_line(alloc: Global, words: &[&str]) -> Result<Vec<u8>, AllocError>
    ensures { IfOk result (λ l. l.items ≡ usage_line (reading_of (map (λ w. w.now) words.now))) }
{
    match read_words(alloc, words) {
        Reading::Refused(Some(reason)) => command_words::reason_line(alloc, reason),
        Reading::Refused(None) => Vec::from_slice(alloc, b"ntboot: bad usage\n"),
        Reading::Help(_) => Vec::from_slice(alloc, b"ntboot: bad usage\n"),
        Reading::Version => Vec::from_slice(alloc, b"ntboot: bad usage\n"),
        Reading::Command(_, _) => Vec::from_slice(alloc, b"ntboot: bad usage\n"),
    }
}

/// The line on a status that is no answer.
fn line_on<H: Host>(
    alloc: Global,
    words: &[&str],
    status: Status,
    notes: &Notes,
    host: &mut H,
) -> Result<Vec<u8>, AllocError>
    ensures looked { IsLooked (H.state host.old) (H.state host.new) }
    ensures unasked { is_judged (heard_by notes.now) notes.now ≡ true → H.state host.new ≡ H.state host.old }
    ensures line { (H.state host.old).tells ≡ true → IsNoted (map (λ w. w.now) words.now) (H.state host.old) notes.now
        → IfOk result (λ l. IsLine (line_on (map (λ w. w.now) words.now) status notes.now (H.state host.old).files) l.items) }
{
    match status {
        Status::Usage => usage_line(alloc, words),
        _ => reason_line(alloc, words, status, notes, host),
    }
}

/// Prints the line on a status that is no answer; where there is no memory for it, that there is none.
fn explain_now<H: Host>(alloc: Global, words: &[&str], status: Status, notes: &Notes, host: &mut H)
    ensures warns { Warns (H.state host.old) (H.state host.new) }
    ensures said { (H.state host.old).tells ≡ true → IsNoted (map (λ w. w.now) words.now) (H.state host.old) notes.now
        → IsExplained (line_on (map (λ w. w.now) words.now) status notes.now (H.state host.old).files) (H.state host.old) (H.state host.new) }
    ensures same { is_judged (heard_by notes.now) notes.now ≡ true
        → H.state host.new ≡ record (H.state host.old) { errors = (H.state host.new).errors; warned = (H.state host.new).warned } }
{
    match line_on(alloc, words, status, notes, host) {
        Ok(line) => host.say_error(line.as_slice()),
        Err(_) => host.say_error(b"ntboot: out of memory\n"),
    }
}

/// Prints why a command ended with this status, in one line on standard error, where the command line asks for it and the status is no
/// answer. Nothing else changes, but that a hive is asked for which has the fault and of which it is not noted whether it is dirty.
pub fn explain<H: Host>(alloc: Global, words: &[&str], status: Status, notes: &Notes, host: &mut H)
    ensures quiet { explains (map (λ w. w.now) words.now) status ≡ false → H.state host.new ≡ H.state host.old }
    ensures warns { explains (map (λ w. w.now) words.now) status ≡ true → Warns (H.state host.old) (H.state host.new) }
    ensures said { (H.state host.old).tells ≡ true → explains (map (λ w. w.now) words.now) status ≡ true
        → IsNoted (map (λ w. w.now) words.now) (H.state host.old) notes.now
        → IsExplained (line_on (map (λ w. w.now) words.now) status notes.now (H.state host.old).files) (H.state host.old) (H.state host.new) }
    ensures same { is_judged (heard_by notes.now) notes.now ≡ true
        → H.state host.new ≡ record (H.state host.old) { errors = (H.state host.new).errors; warned = (H.state host.new).warned } }
{
    if has_reason(status) && wants_reason(words) {
        explain_now(alloc, words, status, notes, host);
    }
}
