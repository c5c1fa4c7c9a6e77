//! `twin`: the command line, the files that it names, and which way keeps the hive.

ghost use Rattle.std.specs.Prelude.{◌≡◌};
ghost use Rattle.nt_edge.specs.Disk.{new_state};
ghost use Rattle.command_words.specs.Views.{twin_seen};
ghost use Rattle.command_parts.specs.command_parts.Decides.{DecidesAlone};
ghost use Rattle.command_parts.specs.command_parts.Inputs.{AsksSoMany};
ghost use Rattle.command_parts.specs.command_parts.Views.{saves_seen};
ghost use Rattle.twin_command.specs.Twinned.{stands_by, EndsFiles, DecidesTwin, asks_twin};

use crate::twinning::begin;
use command_parts::command_parts::{HiveFiles, Obstacle, Saves, Status, hive_in, refuse, stopped};
use command_words::{AskedScheme as Kept, TwinWords};
use hive_alt::{LogScheme, TwinScheme};
use nt_edge::{Bench, Host};
use report_text::line_text::ReportForm;
use std::alloc::Global;

/// Goes on by the way that keeps the hive.
fn begin_by<H: Host, B: Bench>(
    alloc: Global,
    form: ReportForm,
    scheme: Kept,
    files: &HiveFiles,
    number: Option<u32>,
    saves: Saves<'_>,
    host: &mut H,
    bench: &mut B,
) -> Status
    requires fresh { B.state bench.old ≡ new_state }
    ensures { DecidesAlone (EndsFiles form (stands_by scheme) files.now number (saves_seen saves.entry) (B.state bench.new)) (saves_seen saves.entry) result
        (H.state host.old) (H.state host.new) (B.state bench.new) }
{
    match scheme {
        Kept::Alt => begin::<TwinScheme, H, B>(alloc, form, files, number, saves, host, bench),
        Kept::Log => begin::<LogScheme, H, B>(alloc, form, files, number, saves, host, bench),
    }
}

/// Loads what two files stand for, repairs it, and changes the default set where the command line has a number; says so in one of the two forms,
/// and saves the two files. Or says the first obstacle. The disk is a new one, and off afterwards.
pub fn twin<H: Host, B: Bench>(
    alloc: Global,
    words: TwinWords<'_>,
    form: ReportForm,
    host: &mut H,
    bench: &mut B,
) -> Status
    requires fresh { B.state bench.old ≡ new_state }
    ensures decides { DecidesTwin form (twin_seen words.entry) result (H.state host.old) (H.state host.new) (B.state bench.new) }
    ensures asked { AsksSoMany (asks_twin (twin_seen words.entry)) result (H.state host.old) (H.state host.new) }
    ensures kept { result ≡ Status.Usage → ⊥ }
{
    let saves = Saves {
        hive: words.save_hive,
        log: words.save_alt,
    };
    match hive_in(alloc, host, words.hive, words.alt) {
        Ok(files) => begin_by(
            alloc,
            form,
            words.scheme,
            &files,
            words.default,
            saves,
            host,
            bench,
        ),
        Err(Obstacle::Refused(why)) => refuse(alloc, host, &why),
        Err(Obstacle::Stopped(stop)) => stopped(stop),
    }
}
