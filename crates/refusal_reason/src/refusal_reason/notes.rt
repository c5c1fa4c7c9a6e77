//! What is noted of a command's calls of its host.

ghost use Rattle.std.specs.Prelude.{◌≡◌, ◌≤◌, [], length, map, take, OnErr, OnOk};
ghost use Rattle.refusal_reason.specs.refusal_reason.Notes.{is_unwritten, judged, longest, room_for, with_end, with_found, with_got, with_put, with_said, IsSaid};

use crate::reason_lines::{is_dirty, is_option_of, place_of};
use command_parts::command_parts::Status;
use nt_bytes::Bytes;
use nt_edge::HostStop;
use std::alloc::{AllocError, Global};

/// What was noted so far. A file is known by its place on the command line.
#[derive(Drop)]
pub struct Notes {
    /// How many of the bytes that are printed are noted.
    pub room: usize,
    /// The first bytes that were said.
    pub front: Bytes,
    /// Whether nothing failed to be said, and nothing was left out of the notes because memory ran out.
    pub whole: bool,
    /// The file that could not be read.
    pub unread: Option<usize>,
    /// The file that was put last.
    pub put: Option<usize>,
    /// The file that could not be written.
    pub unwritten: Option<usize>,
    /// Whether the file of `--hive` is dirty, once it was asked for, and until a file is put.
    pub dirty: Option<bool>,
    /// The same of the file of `--with`.
    pub other_dirty: Option<bool>,
}

/// Whether a hive is dirty, where the bytes are the ones of its file.
fn judged(is_its: bool, bytes: &[u8], before: Option<bool>) -> Option<bool>
    ensures { result ≡ judged is_its bytes.now before }
{
    if is_its {
        Some(is_dirty(bytes))
    } else {
        before
    }
}

/// The length of the longest word, in bytes.
fn longest(words: &[&str]) -> usize
    ensures longest { result ≡ longest (map (λ w. w.now) words.now) }
    ensures bound { result ≤ 9223372036854775807 }
{
    let mut rest = words;
    let mut most = 0;
    'words: while let [word, more @ ..] = rest {
        most = most.max(word.len());
        rest = more;
    }
    most
}

/// How many of the bytes that are printed are noted: enough for the line of each fault, and for the one that a file on the command line is absent.
fn room_for(words: &[&str]) -> usize
    ensures { result ≡ room_for (map (λ w. w.now) words.now) }
{
    longest(words) + 128
}

/// The first bytes, at most that many.
pub(crate) fn first(bytes: &[u8], most: usize) -> &[u8]
    ensures { result.now ≡ take most bytes.now }
{
    if most < bytes.len() {
        &bytes[..most]
    } else {
        bytes
    }
}

fn is_unwritten(status: Status) -> bool
    ensures { result ≡ is_unwritten status }
{
    matches!(status, Status::WriteFault)
}

impl Notes {
    /// Nothing was noted yet of the calls that the command line of these words leads to.
    pub fn new(alloc: Global, words: &[&str]) -> Notes
        ensures room { result.room ≡ room_for (map (λ w. w.now) words.now) }
        ensures front { result.front ≡ [] }
        ensures dirty { result.dirty ≡ None }
        ensures other_dirty { result.other_dirty ≡ None }
    {
        Notes {
            room: room_for(words),
            front: Bytes::new(alloc),
            whole: true,
            unread: None,
            put: None,
            unwritten: None,
            dirty: None,
            other_dirty: None,
        }
    }

    /// A file that was asked for has these bytes.
    fn find(&mut self, words: &[&str], name: &str, bytes: &[u8])
        ensures { self.new ≡ with_found (map (λ w. w.now) words.now) self.old name.now bytes.now }
    {
        self.dirty = judged(is_option_of(words, "--hive", name), bytes, self.dirty);
        self.other_dirty = judged(is_option_of(words, "--with", name), bytes, self.other_dirty);
    }

    /// A file was asked for.
    pub(crate) fn get(
        &mut self,
        words: &[&str],
        name: &str,
        found: &Result<Option<Bytes>, HostStop>,
    )
        ensures { self.new ≡ with_got (map (λ w. w.now) words.now) self.old name.now found.now }
    {
        match found {
            Ok(Some(bytes)) => self.find(words, name, bytes.as_slice()),
            Ok(None) => {}
            Err(_) => self.unread = place_of(words, name.as_bytes()),
        }
    }

    /// A file was put.
    pub(crate) fn put(&mut self, words: &[&str], name: &str, refused: bool)
        ensures { self.new ≡ with_put (map (λ w. w.now) words.now) self.old name.now refused }
    {
        let place = place_of(words, name.as_bytes());
        self.dirty = None;
        self.other_dirty = None;
        self.put = place;
        if refused {
            self.unwritten = place;
        }
    }

    /// Bytes were said. It notes them as far as there is room.
    fn keep(&mut self, bytes: &[u8]) -> Result<(), AllocError>
        requires { length self.old.front ≤ self.old.room }
        ensures kept { OnOk result (self.new ≡ with_said self.old bytes.now) }
        ensures lost { OnErr result (self.new ≡ self.old) }
    {
        let left = self.room - self.front.len();
        self.front.append(first(bytes, left))
    }

    /// Bytes were said, or not all of them.
    pub(crate) fn say(&mut self, bytes: &[u8], refused: bool)
        requires { length self.old.front ≤ self.old.room }
        ensures { IsSaid refused self.old bytes.now self.new }
    {
        if refused || self.keep(bytes).is_err() {
            self.whole = false;
        }
    }

    /// The command answered the one status, and ended with the other once its files were to have their names.
    pub fn end(&mut self, answered: Status, ended: Status)
        ensures { self.new ≡ with_end self.old answered ended }
    {
        if is_unwritten(ended) && !is_unwritten(answered) {
            self.unwritten = self.put;
        }
    }
}
