//! The lines of an event as objects of JSON, by their words.

ghost use Rattle.std.specs.Prelude.{◌≡◌, [], ◌∷◌, ◌++◌, codes, OnOk};
ghost use Rattle.report_text.specs.line_text.Objects.{Text, field_text, object_text};
ghost use Rattle.sweep_text.specs.sweep_text.Words.{digits_field, word_of, after_word, load_object, commit_object, save_object, refused_object, object_by};

use crate::sweep_text::words::words;
use report_text::line_text::{close_object, open_object, push_word_field};
use std::alloc::AllocError;

/// The sequence number, by its digits.
fn push_sequence(out: &mut Vec<u8>, digits: &[u8]) -> Result<(), AllocError>
    ensures { OnOk result (out.new.items ≡ out.old.items ++ digits_field (codes "sequence") digits.now) }
{
    out.extend_from_slice(b",\"sequence\":")?;
    out.extend_from_slice(digits)
}

fn push_load_fields(out: &mut Vec<u8>, more: &[u8]) -> Result<(), AllocError>
    ensures { OnOk result (out.new.items ≡ out.old.items ++ (digits_field (codes "sequence") (word_of more.now) ++ field_text (codes "state") (Text (after_word more.now)))) }
{
    let (digits, state) = words(more);
    push_sequence(out, digits)?;
    push_word_field(out, b"state", state)
}

fn push_load(out: &mut Vec<u8>, more: &[u8]) -> Result<(), AllocError>
    ensures { OnOk result (out.new.items ≡ out.old.items ++ load_object more.now) }
{
    open_object(out, b"load")?;
    push_load_fields(out, more)?;
    close_object(out)
}

fn push_commit_fields(out: &mut Vec<u8>, more: &[u8]) -> Result<(), AllocError>
    ensures { OnOk result (out.new.items ≡ out.old.items ++ (field_text (codes "what") (Text (word_of more.now)) ++ digits_field (codes "sequence") (after_word more.now))) }
{
    let (what, digits) = words(more);
    push_word_field(out, b"what", what)?;
    push_sequence(out, digits)
}

fn push_commit(out: &mut Vec<u8>, more: &[u8]) -> Result<(), AllocError>
    ensures { OnOk result (out.new.items ≡ out.old.items ++ commit_object more.now) }
{
    open_object(out, b"commit")?;
    push_commit_fields(out, more)?;
    close_object(out)
}

fn push_flush(out: &mut Vec<u8>) -> Result<(), AllocError>
    ensures { OnOk result (out.new.items ≡ out.old.items ++ object_text (codes "flush") []) }
{
    open_object(out, b"flush")?;
    close_object(out)
}

/// An object of one field, a word.
fn push_one(out: &mut Vec<u8>, line: &[u8], name: &[u8], word: &[u8]) -> Result<(), AllocError>
    ensures { OnOk result (out.new.items ≡ out.old.items ++ object_text line.now ((name.now, Text word.now) ∷ [])) }
{
    open_object(out, line)?;
    push_word_field(out, name, word)?;
    close_object(out)
}

fn push_save(out: &mut Vec<u8>, more: &[u8]) -> Result<(), AllocError>
    ensures { OnOk result (out.new.items ≡ out.old.items ++ save_object more.now) }
{
    let (_, why) = words(more);
    push_one(out, b"save", b"refused", why)
}

/// An object of an event and the word of its refusal.
fn push_event(out: &mut Vec<u8>, event: &[u8], why: &[u8]) -> Result<(), AllocError>
    ensures { OnOk result (out.new.items ≡ out.old.items ++ object_text (codes "refused") ((codes "event", Text event.now) ∷ (codes "word", Text why.now) ∷ [])) }
{
    open_object(out, b"refused")?;
    push_word_field(out, b"event", event)?;
    push_word_field(out, b"word", why)?;
    close_object(out)
}

fn push_refused(out: &mut Vec<u8>, more: &[u8]) -> Result<(), AllocError>
    ensures { OnOk result (out.new.items ≡ out.old.items ++ refused_object more.now) }
{
    let (event, why) = words(more);
    push_event(out, event, why)
}

/// Appends the object of a line with this first word and these after it, if it is reported.
pub(crate) fn push_object(out: &mut Vec<u8>, word: &[u8], more: &[u8]) -> Result<(), AllocError>
    ensures { OnOk result (out.new.items ≡ out.old.items ++ object_by word.now more.now) }
{
    if word == b"load".as_slice() {
        return push_load(out, more);
    }
    if word == b"commit".as_slice() {
        return push_commit(out, more);
    }
    if word == b"flush".as_slice() {
        return push_flush(out);
    }
    if word == b"save".as_slice() {
        return push_save(out, more);
    }
    if word == b"refused".as_slice() {
        return push_refused(out, more);
    }
    if word == b"verdict".as_slice() {
        return push_one(out, b"verdict", b"word", more);
    }
    Ok(())
}
