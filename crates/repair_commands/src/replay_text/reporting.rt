//! The report on a replay.

ghost use Rattle.std.specs.Prelude.{◌≡◌, ◌++◌, OnOk, IfOk};
ghost use Rattle.repair_commands.specs.replay_text.Lines.{printed_lines};
ghost use Rattle.repair_commands.specs.replay_text.Report.{is_fault, has_fault, saving_line, saving_lines, report_of};

use crate::replay_text::printing::push_lines;
use log_replay::{Outcome, ReplayLine};
use nt_bytes::{Bytes, Row};
use report_text::line_text::ReportForm;
use std::alloc::{AllocError, Global};

/// A report, whether something was found, and the result's file with whether it is saved.
#[derive(Drop)]
pub struct Report {
    pub text: Bytes,
    pub found: bool,
    pub saved: bool,
    pub file: Bytes,
}

fn is_fault(line: ReplayLine) -> bool
    ensures { result ≡ is_fault line }
{
    match line {
        ReplayLine::Fault(_, _, _) => true,
        ReplayLine::Sequence(_, _, _) => false,
        ReplayLine::EmptyLog(_) => false,
        ReplayLine::NoEntries(_) => false,
        ReplayLine::Entries(_, _, _, _) => false,
        ReplayLine::OldLog(_, _, _) => false,
        ReplayLine::OtherStamp(_, _) => false,
        ReplayLine::OtherNumber(_, _) => false,
        ReplayLine::Apply(_, _, _) => false,
        ReplayLine::Replayed(_, _, _) => false,
        ReplayLine::Saved(_, _) => false,
        ReplayLine::SaveRefused => false,
        ReplayLine::End => false,
    }
}

fn has_fault(lines: &[ReplayLine]) -> bool
    ensures { result ≡ has_fault lines.now }
{
    for line in lines {
        if is_fault(*line) {
            return true;
        }
    }
    false
}

fn saving_line(outcome: &Outcome) -> ReplayLine
    ensures { result ≡ saving_line outcome.now }
{
    if outcome.first == outcome.second {
        ReplayLine::Saved(outcome.first, outcome.file.len())
    } else {
        ReplayLine::SaveRefused
    }
}

fn push_save(lines: &mut Row<ReplayLine>, asked: bool, saving: ReplayLine) -> Result<(), AllocError>
    ensures { OnOk result (lines.new ≡ lines.old ++ saving_lines asked saving) }
{
    if asked { lines.push(saving) } else { Ok(()) }
}

fn printed(alloc: Global, form: ReportForm, lines: &[ReplayLine]) -> Result<Bytes, AllocError>
    ensures { IfOk result (λ text. text ≡ printed_lines form lines.now) }
{
    let mut text = Vec::new(alloc);
    push_lines(&mut text, form, lines)?;
    Ok(Bytes::from_vec(text))
}

/// The report on what the logs made of a hive, in a form; `asked` says whether the command line asks for the file.
pub fn replay_report(
    alloc: Global,
    form: ReportForm,
    asked: bool,
    outcome: Outcome,
) -> Result<Report, AllocError>
    ensures { IfOk result (λ report. report ≡ report_of form asked outcome) }
{
    let found = has_fault(outcome.lines.as_slice()) || outcome.first != outcome.second;
    let saved = asked && outcome.first == outcome.second;
    let saving = saving_line(&outcome);
    let mut lines = outcome.lines;
    push_save(&mut lines, asked, saving)?;
    lines.push(ReplayLine::End)?;
    let text = printed(alloc, form, lines.as_slice())?;
    Ok(Report {
        text,
        found,
        saved,
        file: outcome.file,
    })
}
