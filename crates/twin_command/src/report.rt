//! What `twin` says, in one of the two forms.

ghost use Rattle.std.specs.Prelude.{◌≡◌, [], ◌∷◌, ◌++◌, codes, IfOk, OnOk};
ghost use Rattle.report_text.specs.line_text.Objects.{Number, Text, fields_text, object_text};
ghost use Rattle.twin_command.specs.Told.{load_end, load_text, word_text, told_text, refused_fields, word_json, told_json, told_in};

use command_parts::command_parts::push_count;
use report_text::line_objects::{push_end_object, push_load_object};
use report_text::line_text::{
    ReportForm, close_object, open_object, push_number_field, push_word_field,
};
use std::alloc::{AllocError, Global};

/// What is printed for the default set.
#[derive(Clone, Copy, Debug, PartialEq, Eq)]
pub(crate) enum Word {
    /// No number was given.
    Unasked,
    /// It is that number already.
    Nothing,
    /// There is no key `Select`.
    NoKey,
    /// The changed tree is too large.
    Full,
    /// It was changed, under this sequence number.
    Commit(u32),
}

/// What is printed: the sequence number that was loaded, whether something was repaired, and the word on the default set.
#[derive(Clone, Copy, Debug, PartialEq, Eq)]
pub(crate) struct Told {
    pub(crate) loaded: u32,
    pub(crate) mended: bool,
    pub(crate) word: Word,
}

/// Puts a text after a line.
fn push_text(line: &mut Vec<u8>, text: &str) -> Result<(), AllocError>
    ensures { OnOk result (line.new.items ≡ line.old.items ++ text.now) }
{
    line.extend_from_slice(text.as_bytes())
}

/// How the line of the load ends.
fn load_end(mended: bool) -> &'static str
    ensures { result.now ≡ load_end mended }
{
    if mended { " recovered\n" } else { " clean\n" }
}

/// The line of the load.
fn push_load(alloc: Global, text: &mut Vec<u8>, loaded: u32, mended: bool) -> Result<(), AllocError>
    ensures { OnOk result (text.new.items ≡ text.old.items ++ load_text loaded mended) }
{
    push_count(alloc, text, "load ", loaded)?;
    text.extend_from_slice(load_end(mended).as_bytes())
}

/// The line of a commit.
fn push_commit(alloc: Global, text: &mut Vec<u8>, number: u32) -> Result<(), AllocError>
    ensures { OnOk result (text.new.items ≡ text.old.items ++ word_text (Word.Commit number)) }
{
    push_count(alloc, text, "commit default ", number)?;
    push_text(text, "\n")
}

/// The line of the default set.
fn push_word(alloc: Global, text: &mut Vec<u8>, word: Word) -> Result<(), AllocError>
    ensures { OnOk result (text.new.items ≡ text.old.items ++ word_text word) }
{
    match word {
        Word::Unasked => Ok(()),
        Word::Nothing => text.extend_from_slice(b"default nothing\n"),
        Word::NoKey => text.extend_from_slice(b"refused default no-key\n"),
        Word::Full => text.extend_from_slice(b"refused default full\n"),
        Word::Commit(number) => push_commit(alloc, text, number),
    }
}

/// All lines as text.
fn text(alloc: Global, told: Told) -> Result<Vec<u8>, AllocError>
    ensures { IfOk result (λ l. l.items ≡ told_text told) }
{
    let mut text = Vec::new(alloc);
    push_load(alloc, &mut text, told.loaded, told.mended)?;
    push_word(alloc, &mut text, told.word)?;
    text.extend_from_slice(b"end\n")?;
    Ok(text)
}

// ---- objects

/// A line of a word alone.
fn push_bare_object(text: &mut Vec<u8>, line: &[u8]) -> Result<(), AllocError>
    ensures { OnOk result (text.new.items ≡ text.old.items ++ object_text line.now []) }
{
    open_object(text, line)?;
    close_object(text)
}

fn push_refused_fields(text: &mut Vec<u8>, word: &[u8]) -> Result<(), AllocError>
    ensures { OnOk result (text.new.items ≡ text.old.items ++ fields_text (refused_fields word.now)) }
{
    push_word_field(text, b"command", b"twin")?;
    push_word_field(text, b"word", word)
}

/// The line of a refusal.
fn push_refused_object(text: &mut Vec<u8>, word: &[u8]) -> Result<(), AllocError>
    ensures { OnOk result (text.new.items ≡ text.old.items ++ object_text (codes "refused") (refused_fields word.now)) }
{
    open_object(text, b"refused")?;
    push_refused_fields(text, word)?;
    close_object(text)
}

fn push_commit_fields(text: &mut Vec<u8>, what: &[u8], number: u32) -> Result<(), AllocError>
    ensures { OnOk result (text.new.items ≡ text.old.items ++ fields_text ((codes "what", Text what.now) ∷ (codes "sequence", Number number) ∷ [])) }
{
    push_word_field(text, b"what", what)?;
    push_number_field(text, b"sequence", u64::from(number))
}

/// The line of a commit.
fn push_commit_object(text: &mut Vec<u8>, number: u32) -> Result<(), AllocError>
    ensures { OnOk result (text.new.items ≡ text.old.items ++ word_json (Word.Commit number)) }
{
    open_object(text, b"commit")?;
    push_commit_fields(text, b"default", number)?;
    close_object(text)
}

/// The line of the default set.
fn push_word_json(text: &mut Vec<u8>, word: Word) -> Result<(), AllocError>
    ensures { OnOk result (text.new.items ≡ text.old.items ++ word_json word) }
{
    match word {
        Word::Unasked => Ok(()),
        Word::Nothing => push_bare_object(text, b"default"),
        Word::NoKey => push_refused_object(text, b"no-key"),
        Word::Full => push_refused_object(text, b"full"),
        Word::Commit(number) => push_commit_object(text, number),
    }
}

/// All lines as objects.
fn objects(alloc: Global, told: Told) -> Result<Vec<u8>, AllocError>
    ensures { IfOk result (λ l. l.items ≡ told_json told) }
{
    let mut text = Vec::new(alloc);
    push_load_object(&mut text, told.loaded, told.mended)?;
    push_word_json(&mut text, told.word)?;
    push_end_object(&mut text)?;
    Ok(text)
}

/// All lines.
pub(crate) fn report(alloc: Global, form: ReportForm, told: Told) -> Result<Vec<u8>, AllocError>
    ensures { IfOk result (λ l. l.items ≡ told_in form told) }
{
    match form {
        ReportForm::Text => text(alloc, told),
        ReportForm::Json => objects(alloc, told),
    }
}
