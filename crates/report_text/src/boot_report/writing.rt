//! A line as bytes.

ghost use Rattle.std.specs.Prelude.{◌≡◌, IfOk};
ghost use Rattle.report_words.specs.declared.line.Line.TheVariants as lines;
ghost use Rattle.start_model.specs.Lines.{line_text};

use crate::boot_report::name::{push_name, push_path};
use crate::boot_report::printing::{
    commit_text, event_text, load_text, outcome_text, phase_text, reason_text, save_text, set_text,
    verdict_text,
};
use nt_bytes::Bytes;
use report_words::{CommitWord, EventWord, Line, PhaseWord, RefusedWord, TryWord, Verdict};
use std::alloc::{AllocError, Global};

#[tactic(auto, unfolding(start_model::specs::Lines::line_text))]
fn start(alloc: Global, number: u32) -> Result<Vec<u8>, AllocError>
    ensures { IfOk result (λ b. b.items ≡ line_text (lines.Start number)) }
{
    Ok(format!(in alloc; "start {number}\n")?.into_bytes())
}

#[tactic(auto, unfolding(start_model::specs::Lines::line_text))]
fn entry(alloc: Global, number: u32, path: &[u8]) -> Result<Vec<u8>, AllocError>
    ensures { IfOk result (λ b. b.items ≡ line_text (lines.Entry number path.now)) }
{
    let mut out = format!(in alloc; "entry {number} ")?.into_bytes();
    push_path(&mut out, path)?;
    out.push(b'\n')?;
    Ok(out)
}

#[tactic(auto, unfolding(start_model::specs::Lines::line_text))]
fn load(alloc: Global, sequence: u32, recovered: bool) -> Result<Vec<u8>, AllocError>
    ensures { IfOk result (λ b. b.items ≡ line_text (lines.Load sequence recovered)) }
{
    let word = load_text(recovered);
    Ok(format!(in alloc; "load {sequence} {word}\n")?.into_bytes())
}

#[tactic(auto, unfolding(start_model::specs::Lines::line_text))]
fn set(alloc: Global, number: u32, last_known_good: bool) -> Result<Vec<u8>, AllocError>
    ensures { IfOk result (λ b. b.items ≡ line_text (lines.Set number last_known_good)) }
{
    let word = set_text(last_known_good);
    Ok(format!(in alloc; "set {number} {word}\n")?.into_bytes())
}

#[tactic(auto, unfolding(start_model::specs::Lines::line_text))]
fn commit(alloc: Global, what: CommitWord, sequence: u32) -> Result<Vec<u8>, AllocError>
    ensures { IfOk result (λ b. b.items ≡ line_text (lines.Commit what sequence)) }
{
    let word = commit_text(what);
    Ok(format!(in alloc; "commit {word} {sequence}\n")?.into_bytes())
}

#[tactic(auto, unfolding(start_model::specs::Lines::line_text))]
fn select(
    alloc: Global,
    current: u32,
    default: u32,
    failed: u32,
    good: u32,
) -> Result<Vec<u8>, AllocError>
    ensures { IfOk result (λ b. b.items ≡ line_text (lines.Select current default failed good)) }
{
    Ok(format!(in alloc; "select {current} {default} {failed} {good}\n")?.into_bytes())
}

#[tactic(auto, unfolding(start_model::specs::Lines::line_text))]
fn phase(alloc: Global, word: PhaseWord) -> Result<Vec<u8>, AllocError>
    ensures { IfOk result (λ b. b.items ≡ line_text (lines.Phase word)) }
{
    let word = phase_text(word);
    Ok(format!(in alloc; "phase {word}\n")?.into_bytes())
}

#[tactic(auto, unfolding(start_model::specs::Lines::line_text))]
fn attempt(alloc: Global, name: &[u16], outcome: TryWord) -> Result<Vec<u8>, AllocError>
    ensures { IfOk result (λ b. b.items ≡ line_text (lines.Try name.now outcome)) }
{
    let mut out = Vec::from_slice(alloc, b"try ")?;
    push_name(&mut out, name)?;
    out.push(b' ')?;
    out.extend_from_slice(outcome_text(outcome).as_bytes())?;
    out.push(b'\n')?;
    Ok(out)
}

#[tactic(auto, unfolding(start_model::specs::Lines::line_text))]
fn unmet(alloc: Global, name: &[u16]) -> Result<Vec<u8>, AllocError>
    ensures { IfOk result (λ b. b.items ≡ line_text (lines.Unmet name.now)) }
{
    let mut out = Vec::from_slice(alloc, b"unmet ")?;
    push_name(&mut out, name)?;
    out.push(b'\n')?;
    Ok(out)
}

#[tactic(auto, unfolding(start_model::specs::Lines::line_text))]
fn missing(alloc: Global, name: &[u16]) -> Result<Vec<u8>, AllocError>
    ensures { IfOk result (λ b. b.items ≡ line_text (lines.Vital name.now)) }
{
    let mut out = Vec::from_slice(alloc, b"vital ")?;
    push_name(&mut out, name)?;
    out.extend_from_slice(b" missing\n")?;
    Ok(out)
}

#[tactic(auto, unfolding(start_model::specs::Lines::line_text))]
fn save_refused(alloc: Global, full: bool) -> Result<Vec<u8>, AllocError>
    ensures { IfOk result (λ b. b.items ≡ line_text (lines.SaveRefused full)) }
{
    let word = save_text(full);
    Ok(format!(in alloc; "save refused {word}\n")?.into_bytes())
}

#[tactic(auto, unfolding(start_model::specs::Lines::line_text))]
fn refused(alloc: Global, event: EventWord, why: RefusedWord) -> Result<Vec<u8>, AllocError>
    ensures { IfOk result (λ b. b.items ≡ line_text (lines.Refused event why)) }
{
    let (event, why) = (event_text(event), reason_text(why));
    Ok(format!(in alloc; "refused {event} {why}\n")?.into_bytes())
}

#[tactic(auto, unfolding(start_model::specs::Lines::line_text))]
fn verdict(alloc: Global, word: Verdict) -> Result<Vec<u8>, AllocError>
    ensures { IfOk result (λ b. b.items ≡ line_text (lines.Verdict word)) }
{
    let word = verdict_text(word);
    Ok(format!(in alloc; "verdict {word}\n")?.into_bytes())
}

#[tactic(auto, unfolding(start_model::specs::Lines::line_text))]
fn text(alloc: Global, line: &Line) -> Result<Vec<u8>, AllocError>
    ensures { IfOk result (λ b. b.items ≡ line_text line.now) }
{
    match line {
        Line::Start { number } => start(alloc, *number),
        Line::Entry { number, path } => entry(alloc, *number, path.as_slice()),
        Line::Load {
            sequence,
            recovered,
        } => load(alloc, *sequence, *recovered),
        Line::Set {
            number,
            last_known_good,
        } => set(alloc, *number, *last_known_good),
        Line::Commit { what, sequence } => commit(alloc, *what, *sequence),
        Line::Select {
            current,
            default,
            failed,
            good,
        } => select(alloc, *current, *default, *failed, *good),
        Line::Phase { word } => phase(alloc, *word),
        Line::Try { name, outcome } => attempt(alloc, name.as_slice(), *outcome),
        Line::Unmet { name } => unmet(alloc, name.as_slice()),
        Line::Vital { name } => missing(alloc, name.as_slice()),
        Line::Logon => Vec::from_slice(alloc, b"logon\n"),
        Line::SaveRefused { full } => save_refused(alloc, *full),
        Line::EditOk => Vec::from_slice(alloc, b"edit ok\n"),
        Line::FlushNothing => Vec::from_slice(alloc, b"flush nothing\n"),
        Line::Refused { event, why } => refused(alloc, *event, *why),
        Line::Verdict { word } => verdict(alloc, *word),
        Line::End => Vec::from_slice(alloc, b"end\n"),
    }
}

/// The text of a line, LF at its end.
pub fn line_bytes(alloc: Global, line: &Line) -> Result<Bytes, AllocError>
    ensures exact { IfOk result (λ b. b ≡ line_text line.now) }
{
    Ok(Bytes::from_vec(text(alloc, line)?))
}
