//! The whole report.

ghost use Rattle.std.specs.Prelude.{◌≡◌, ◌≤◌, ◌*◌, ◌+◌, List, ◌++◌, length, map, true, false, OnOk, IfOk};
ghost use Rattle.std.specs.List.{flat_map, list_any};
ghost use Rattle.report_words.specs.declared.line.Line.{Line};
ghost use Rattle.sweep_text.specs.sweep_text.Logged.{AreFew};
ghost use Rattle.sweep_text.specs.sweep_text.Stages.{recovery_stages, commit_stages, calls_in, afters_in};
ghost use Rattle.sweep_text.specs.sweep_text.Calls.{counts_line, end_line, calls_text, ending_text};
ghost use Rattle.sweep_text.specs.sweep_text.Words.{told_text, recovers_text, commits_text};
ghost use Rattle.sweep_text.specs.sweep_text.Report as book;
ghost use Rattle.sweep_text.specs.sweep_text.Report.{stages_by, report_by, AreTexts};

use crate::sweep_text::calls::{push_counts, push_end, push_head, push_keeps};
use crate::sweep_text::logged::Logged;
use crate::sweep_text::said::{committed, push_said, recovered};
use crate::sweep_text::stages::{push_commit, push_recovery};
use nt_bytes::Bytes;
use report_text::line_text::ReportForm;
use std::alloc::{AllocError, Global};

// ---- counts

/// How many calls a recovery makes that takes that many sectors.
fn recovery_count(sectors: &[u32]) -> u32
    requires { length sectors.now ≤ 8388608 }
    ensures count { result ≡ calls_in (recovery_stages sectors.now) }
    ensures is { result ≡ length sectors.now + 3 }
{
    sectors.len() as u32 + 3
}

/// How many calls a commit makes.
fn commit_count(bitmap: u32, sectors: &[u32]) -> u32
    requires bitmap { bitmap ≤ 8388608 }
    requires sectors { length sectors.now ≤ 8388608 }
    ensures count { result ≡ calls_in (commit_stages bitmap sectors.now) }
    ensures is { result ≡ 2 * length sectors.now + bitmap + 7 }
{
    2 * sectors.len() as u32 + bitmap + 7
}

/// How many of the words of a commit's calls are `after`.
fn commit_after(bitmap: u32, sectors: &[u32]) -> u32
    requires { length sectors.now ≤ 8388608 }
    ensures after { result ≡ afters_in (commit_stages bitmap sectors.now) }
    ensures is { result ≡ 4 * length sectors.now + 15 }
{
    4 * sectors.len() as u32 + 15
}

// ---- calls

/// Appends the counts and the end.
fn push_ending(
    out: &mut Vec<u8>,
    form: ReportForm,
    count: u32,
    after: u32,
) -> Result<(), AllocError>
    requires few { count ≤ 1000000000 }
    requires within { after ≤ 4 * count }
    ensures { OnOk result (out.new.items ≡ out.old.items ++ (counts_line form count after ++ end_line form)) }
{
    push_counts(out, form, count, after)?;
    push_end(out, form)
}

/// Appends the stages of a recovery, and the ending.
fn push_recovered(out: &mut Vec<u8>, form: ReportForm, recovery: &Logged) -> Result<(), AllocError>
    requires { AreFew recovery.now }
    ensures { OnOk result (out.new.items ≡ out.old.items
        ++ (calls_text form (recovery_stages recovery.now.sectors) ++ ending_text form (recovery_stages recovery.now.sectors))) }
{
    let sectors = recovery.sectors.as_slice();
    push_keeps(out, form)?;
    push_recovery(out, form, sectors)?;
    push_ending(out, form, recovery_count(sectors), 0)
}

/// Appends the stages of a commit, and the ending.
fn push_committed(
    alloc: Global,
    out: &mut Vec<u8>,
    form: ReportForm,
    commit: &Logged,
) -> Result<(), AllocError>
    requires { AreFew commit.now }
    ensures { OnOk result (out.new.items ≡ out.old.items
        ++ (calls_text form (commit_stages commit.now.bitmap commit.now.sectors) ++ ending_text form (commit_stages commit.now.bitmap commit.now.sectors))) }
{
    let sectors = commit.sectors.as_slice();
    push_keeps(out, form)?;
    push_commit(alloc, out, form, commit.bitmap, sectors, 1, 1)?;
    push_ending(
        out,
        form,
        commit_count(commit.bitmap, sectors),
        commit_after(commit.bitmap, sectors),
    )
}

/// Appends the stages of a recovery and of a commit after it, and the ending.
fn push_both(
    alloc: Global,
    out: &mut Vec<u8>,
    form: ReportForm,
    recovery: &Logged,
    commit: &Logged,
) -> Result<(), AllocError>
    requires recovery { AreFew recovery.now }
    requires commit { AreFew commit.now }
    ensures { OnOk result (out.new.items ≡ out.old.items
        ++ (calls_text form (stages_by true true recovery.now commit.now) ++ ending_text form (stages_by true true recovery.now commit.now))) }
{
    let first = recovery.sectors.as_slice();
    let sectors = commit.sectors.as_slice();
    push_keeps(out, form)?;
    push_recovery(out, form, first)?;
    push_commit(
        alloc,
        out,
        form,
        commit.bitmap,
        sectors,
        1 + first.len() as u32 + 1,
        3,
    )?;
    push_ending(
        out,
        form,
        recovery_count(first) + commit_count(commit.bitmap, sectors),
        commit_after(commit.bitmap, sectors),
    )
}

/// Appends the calls of a recovery and of a commit, as far as there were these, and the ending.
fn push_calls(
    alloc: Global,
    out: &mut Vec<u8>,
    form: ReportForm,
    recovered: bool,
    committed: bool,
    recovery: &Logged,
    commit: &Logged,
) -> Result<(), AllocError>
    requires recovery { AreFew recovery.now }
    requires commit { AreFew commit.now }
    ensures { OnOk result (out.new.items ≡ out.old.items ++ (calls_text form (stages_by recovered committed recovery.now commit.now)
        ++ ending_text form (stages_by recovered committed recovery.now commit.now))) }
{
    match (recovered, committed) {
        (false, false) => push_ending(out, form, 0, 0),
        (true, false) => push_recovered(out, form, recovery),
        (false, true) => push_committed(alloc, out, form, commit),
        (true, true) => push_both(alloc, out, form, recovery, commit),
    }
}

// ---- all

/// Appends the report on lines as texts.
fn push_report(
    alloc: Global,
    out: &mut Vec<u8>,
    form: ReportForm,
    event: &[u8],
    said: &[&[u8]],
    recovery: &Logged,
    commit: &Logged,
) -> Result<(), AllocError>
    requires recovery { AreFew recovery.now }
    requires commit { AreFew commit.now }
    ensures { OnOk result (out.new.items ≡ out.old.items ++ report_by form event.now (flat_map (told_text form) (map (λ t. t.now) said.now))
        (stages_by (list_any recovers_text (map (λ t. t.now) said.now)) (list_any commits_text (map (λ t. t.now) said.now)) recovery.now commit.now)) }
{
    push_head(out, form, event)?;
    push_said(out, form, said)?;
    push_calls(
        alloc,
        out,
        form,
        recovered(said),
        committed(said),
        recovery,
        commit,
    )
}

/// The report on an event of this first word that said these lines, each given without its LF, with what two logs list: the one that a
/// recovery takes, and the one that a commit wrote.
pub fn sweep_report(
    alloc: Global,
    form: ReportForm,
    event: &[u8],
    said: &[&[u8]],
    recovery: &Logged,
    commit: &Logged,
) -> Result<Bytes, AllocError>
    requires recovery { AreFew recovery.now }
    requires commit { AreFew commit.now }
    ensures exact { (lines : List Line) → AreTexts (map (λ t. t.now) said.now) lines
        → IfOk result (λ text. text ≡ book.sweep_report form event.now lines recovery.now commit.now) }
{
    let mut out = Vec::new(alloc);
    push_report(alloc, &mut out, form, event, said, recovery, commit)?;
    Ok(Bytes::from_vec(out))
}
