//! The report of a sweep.

ghost use Rattle.std.specs.Prelude.{◌≡◌, List, [], IfOk, unwrap_or};
ghost use Rattle.std.specs.List.{All};
ghost use Rattle.boot_script.specs.boot_script.Script.{HasCounts};
ghost use Rattle.boot_run.specs.Agrees.{LoadsAny};
ghost use Rattle.command_parts.specs.command_parts.Placed.{image_in};
ghost use Rattle.report_words.specs.declared.line.Line.{Line};
ghost use Rattle.sweep_text.specs.sweep_lines.Pieces.{lines_between, pieces_of};
ghost use Rattle.boot_script.specs.sweep_script.Sweep.{events_of, IsUnordered};
ghost use Rattle.sweep_text.specs.sweep_text.Logged.{logged_of};
ghost use Rattle.sweep_text.specs.sweep_text.Report.{sweep_report, AreTexts};
ghost use Rattle.sweep_command.specs.sweep_command.Answer.{IsSweptAs};

use crate::sweep_command::events::play_both;
use crate::sweep_inputs::SweepInputs;
use crate::sweep_run::Played;
use boot_script::sweep_script::first_word;
use nt_bytes::Bytes;
use report_text::line_text::ReportForm;
use std::alloc::{AllocError, Global};
use sweep_text::sweep_lines::lines_between;
use sweep_text::sweep_text::{sectors_of, sweep_report};

/// The bytes of a log, none where there is no log.
fn log_bytes(log: &Option<Bytes>) -> &[u8]
    ensures { result.now ≡ unwrap_or log.now [] }
{
    match log {
        Some(log) => log.as_slice(),
        None => &[],
    }
}

/// The report by what was printed without the event and with it, and by the two logs.
fn report_by(
    alloc: Global,
    form: ReportForm,
    event: &[u8],
    log: &[u8],
    first: &Played,
    second: &Played,
) -> Result<Bytes, AllocError>
    ensures { (lines : List Line) → AreTexts (lines_between (pieces_of first.now.said) (pieces_of second.now.said)) lines
        → IfOk result (λ text. text ≡ sweep_report form event.now lines (logged_of log.now) (logged_of second.now.log)) }
{
    let said = lines_between(alloc, first.said.as_slice(), second.said.as_slice())?;
    let recovery = sectors_of(alloc, log)?;
    let commit = sectors_of(alloc, second.log.as_slice())?;
    sweep_report(alloc, form, event, said.as_slice(), &recovery, &commit)
}

/// The report on a hive that loads.
pub(crate) fn swept_text(
    alloc: Global,
    form: ReportForm,
    inputs: SweepInputs,
) -> Result<Bytes, AllocError>
    requires loads { LoadsAny (image_in inputs.hive) }
    requires counts { All HasCounts (events_of inputs.script) }
    requires unordered { All IsUnordered (events_of inputs.script) }
    ensures { IfOk result (IsSweptAs form inputs) }
{
    let SweepInputs {
        system,
        script,
        ini,
        hive,
    } = inputs;
    let event = first_word(&script.event);
    let (first, second) = play_both(alloc, &ini, &system, &hive, script)?;
    report_by(alloc, form, event, log_bytes(&hive.log), &first, &second)
}
