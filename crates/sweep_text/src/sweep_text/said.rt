//! The lines that an event said.

ghost use Rattle.std.specs.Prelude.{◌≡◌, ◌∷◌, [], ◌++◌, map, if◌then◌else◌, OnOk};
ghost use Rattle.std.specs.List.{flat_map, list_any};
ghost use Rattle.sweep_text.specs.sweep_text.Words.{word_of, is_told_word, told_text, recovers_text, commits_text};

use crate::sweep_text::objects::push_object;
use crate::sweep_text::words::{is_told, says_commit, says_recovery, words};
use report_text::line_text::ReportForm;
use std::alloc::AllocError;

/// Appends a line and its LF, if it is reported.
fn push_text(out: &mut Vec<u8>, text: &[u8]) -> Result<(), AllocError>
    ensures { OnOk result (out.new.items ≡ out.old.items ++ (if is_told_word (word_of text.now) then text.now ++ 10 ∷ [] else [])) }
{
    let (word, _) = words(text);
    if is_told(word) {
        out.extend_from_slice(text)?;
        out.push(b'\n')?;
    }
    Ok(())
}

/// Appends a line in one of the two forms, if it is reported.
fn push_told(out: &mut Vec<u8>, form: ReportForm, text: &[u8]) -> Result<(), AllocError>
    ensures { OnOk result (out.new.items ≡ out.old.items ++ told_text form text.now) }
{
    match form {
        ReportForm::Text => push_text(out, text),
        ReportForm::Json => {
            let (word, more) = words(text);
            push_object(out, word, more)
        }
    }
}

/// Appends those lines that are reported.
pub(crate) fn push_said(
    out: &mut Vec<u8>,
    form: ReportForm,
    said: &[&[u8]],
) -> Result<(), AllocError>
    ensures { OnOk result (out.new.items ≡ out.old.items ++ flat_map (told_text form) (map (λ t. t.now) said.now)) }
{
    let mut waiting = said;
    'lines: while let [text, rest @ ..] = waiting {
        push_told(out, form, text)?;
        waiting = rest;
    }
    Ok(())
}

/// Whether one of the lines says that a load took the log.
pub(crate) fn recovered(said: &[&[u8]]) -> bool
    ensures { result ≡ list_any recovers_text (map (λ t. t.now) said.now) }
{
    let mut waiting = said;
    'lines: while let [text, rest @ ..] = waiting {
        if says_recovery(text) {
            return true;
        }
        waiting = rest;
    }
    false
}

/// Whether one of them says that a change is on the disk.
pub(crate) fn committed(said: &[&[u8]]) -> bool
    ensures { result ≡ list_any commits_text (map (λ t. t.now) said.now) }
{
    let mut waiting = said;
    'lines: while let [text, rest @ ..] = waiting {
        if says_commit(text) {
            return true;
        }
        waiting = rest;
    }
    false
}
