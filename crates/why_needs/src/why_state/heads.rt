//! The first lines about a start.

ghost use Rattle.std.specs.Prelude.{◌≡◌, ◌++◌, map, OnOk};
ghost use Rattle.std.specs.Option.{option_copied};
ghost use Rattle.answer_lines.specs.declared.why_lines.lines.WhyLine.TheVariants.{Vital};
ghost use Rattle.why_needs.specs.why_state.Heads.{is_end, set_lines, verdict_lines, ended_lines, ending_attempt, head_lines};

use answer_lines::why_lines::{WhyLine, WhyLines};
use nt_bytes::Units;
use quiet_run::{Attempt, LastStart};
use report_text::boot_report::{TryWord, Verdict};
use std::alloc::{AllocError, Global};

/// Whether an attempt ended its start.
fn is_end(outcome: TryWord) -> bool
    ensures { result ≡ is_end outcome }
{
    match outcome {
        TryWord::Ok | TryWord::Ignored | TryWord::Logged => false,
        TryWord::FallBack | TryWord::Stop => true,
    }
}

fn push_set(taken: Option<(u32, bool)>, lines: &mut WhyLines) -> Result<(), AllocError>
    ensures { OnOk result (lines.new ≡ lines.old ++ set_lines taken) }
{
    match taken {
        Some((number, on_good)) => lines.push(WhyLine::Set { number, on_good }),
        None => Ok(()),
    }
}

fn push_verdict(verdict: Option<Verdict>, lines: &mut WhyLines) -> Result<(), AllocError>
    ensures { OnOk result (lines.new ≡ lines.old ++ verdict_lines verdict) }
{
    match verdict {
        Some(verdict) => lines.push(WhyLine::Verdict(verdict)),
        None => Ok(()),
    }
}

/// The attempt that ended the start.
fn ending_attempt(attempts: &[Attempt]) -> Option<&Attempt>
    ensures { option_copied result ≡ ending_attempt attempts.now }
{
    attempts.iter().find(|a| is_end(a.outcome))
}

fn push_ended(alloc: Global, attempts: &[Attempt], lines: &mut WhyLines) -> Result<(), AllocError>
    ensures { OnOk result (lines.new ≡ lines.old ++ ended_lines (ending_attempt attempts.now)) }
{
    match ending_attempt(attempts) {
        Some(attempt) => lines.push(WhyLine::EndedBy(attempt.name.copy(alloc)?)),
        None => Ok(()),
    }
}

fn push_vital(alloc: Global, names: &[Units], lines: &mut WhyLines) -> Result<(), AllocError>
    ensures { OnOk result (lines.new ≡ lines.old ++ map Vital names.now) }
{
    for name in names {
        lines.push(WhyLine::Vital(name.copy(alloc)?))?;
    }
    Ok(())
}

/// Puts the first lines about a start after the others.
pub fn push_head(alloc: Global, start: &LastStart, lines: &mut WhyLines) -> Result<(), AllocError>
    ensures { OnOk result (lines.new ≡ lines.old ++ head_lines start.now) }
{
    if start.number == 0 {
        return lines.push(WhyLine::NoBoot);
    }
    lines.push(WhyLine::Start {
        number: start.number,
    })?;
    push_set(start.set, lines)?;
    push_verdict(start.verdict, lines)?;
    push_ended(alloc, start.attempts.as_slice(), lines)?;
    push_vital(alloc, start.missing.as_slice(), lines)
}
