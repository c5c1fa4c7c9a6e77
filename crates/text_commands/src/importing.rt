//! `import`: the inputs in sequence, the change, and the line on it.

ghost use Rattle.std.specs.Prelude.{◌≡◌, map, IfOk};
ghost use Rattle.std.specs.List.{All};
ghost use Rattle.nt_edge.specs.Disk.{new_state};
ghost use Rattle.reg_tree.specs.Fitting.{Fits};
ghost use Rattle.reg_tree.specs.Makes.{step_of};
ghost use Rattle.command_words.specs.Views.{import_seen};
ghost use Rattle.command_parts.specs.command_parts.Placed.{image_in};
ghost use Rattle.command_parts.specs.command_parts.Views.{saves_seen};
ghost use Rattle.text_commands.specs.Asks.{AsksImport};
ghost use Rattle.text_commands.specs.Imported.{DecidesImport};
ghost use Rattle.text_commands.specs.Imports.{GivesText, IsChecked, IsLoadable, TellsFault, DecidesEdits, DecidesText, DecidesFile};

use crate::changing::import_into;
use crate::fault::fault_line;
use crate::printing::said_lines;
use crate::said::How;
use command_parts::command_parts::{
    HiveFiles, Obstacle, Refusal, Saves, Status, file_in, finish, hive_in, judge_cells, refuse,
    stopped, tell,
};
use command_words::{AskedEncoding, ImportWords};
use hive_edit::HiveBytes;
use import_steps::utf16_of;
use nt_bytes::ReadStop;
use nt_edge::{Bench, Host};
use reg_text::{RegFault, RegFaultKind, RegStop, read_reg};
use reg_tree::Steps;
use report_text::line_text::ReportForm;
use std::alloc::{AllocError, Global};

/// Makes the edits, prints what was done, and saves the files.
fn import_steps<H: Host, B: Bench>(
    alloc: Global,
    files: &HiveFiles,
    judged: &mut Option<HiveBytes>,
    how: How,
    steps: Steps,
    saves: Saves<'_>,
    host: &mut H,
    bench: &mut B,
) -> Status
    requires fresh { B.state bench.old ≡ new_state }
    requires fits { All Fits (map step_of steps) }
    ensures { DecidesEdits files.now (saves_seen saves.entry) how (map step_of steps) result (H.state host.old) (H.state host.new) (B.state bench.new) }
{
    let Ok(said) = import_into(alloc, files, judged, how, steps, bench) else {
        return Status::Memory;
    };
    let Ok(lines) = said_lines(alloc, how.form, said) else {
        return Status::Memory;
    };
    finish(lines.as_slice(), saves, host, bench)
}

/// Prints the fault of the text.
fn refuse_text<H: Host>(alloc: Global, fault: RegFault, host: &mut H) -> Status
    ensures { TellsFault fault result (H.state host.old) (H.state host.new) }
{
    match fault_line(alloc, fault) {
        Ok(line) => tell(host, line.as_slice(), Status::RegFault),
        Err(_) => Status::Memory,
    }
}

/// Reads a text in UTF-8.
fn read_utf8(alloc: Global, text: &[u8]) -> Result<Steps, RegStop>
    ensures exact { GivesText AskedEncoding.Utf8 text.now result }
    ensures fits { IfOk result (λ steps. All Fits (map step_of steps)) }
{
    match utf16_of(alloc, text)? {
        Some(wide) => read_reg(alloc, wide.as_slice()),
        None => Err(RegStop::Fault(RegFault {
            kind: RegFaultKind::Mark,
            line: 0,
        })),
    }
}

/// Reads a text that is encoded so.
fn read_text(alloc: Global, encoding: AskedEncoding, text: &[u8]) -> Result<Steps, RegStop>
    ensures exact { GivesText encoding text.now result }
    ensures fits { IfOk result (λ steps. All Fits (map step_of steps)) }
{
    match encoding {
        AskedEncoding::Utf16 => read_reg(alloc, text),
        AskedEncoding::Utf8 => read_utf8(alloc, text),
    }
}

/// Reads the text, and makes its edits.
fn import_text<H: Host, B: Bench>(
    alloc: Global,
    files: &HiveFiles,
    judged: &mut Option<HiveBytes>,
    how: How,
    text: &[u8],
    saves: Saves<'_>,
    host: &mut H,
    bench: &mut B,
) -> Status
    requires fresh { B.state bench.old ≡ new_state }
    requires loads { IsLoadable files.now }
    ensures { DecidesText files.now (saves_seen saves.entry) how text.now result (H.state host.old) (H.state host.new) (B.state bench.new) }
{
    match read_text(alloc, how.encoding, text) {
        Ok(steps) => import_steps(alloc, files, judged, how, steps, saves, host, bench),
        Err(RegStop::Fault(fault)) => refuse_text(alloc, fault, host),
        Err(RegStop::Memory) => Status::Memory,
    }
}

/// Gets the text, and makes its edits.
fn import_file<H: Host, B: Bench>(
    alloc: Global,
    files: &HiveFiles,
    judged: &mut Option<HiveBytes>,
    how: How,
    name: &str,
    saves: Saves<'_>,
    host: &mut H,
    bench: &mut B,
) -> Status
    requires fresh { B.state bench.old ≡ new_state }
    requires loads { IsLoadable files.now }
    ensures { DecidesFile files.now (saves_seen saves.entry) how name.now result (H.state host.old) (H.state host.new) (B.state bench.new) }
{
    match file_in(alloc, host, name) {
        Ok(text) => import_text(
            alloc,
            files,
            judged,
            how,
            text.as_slice(),
            saves,
            host,
            bench,
        ),
        Err(Obstacle::Refused(why)) => refuse(alloc, host, &why),
        Err(Obstacle::Stopped(stop)) => stopped(stop),
    }
}

/// Checks a whole hive with its log, and keeps its cells.
fn check(alloc: Global, files: &HiveFiles) -> Result<HiveBytes, ReadStop>
    ensures { IsChecked (image_in files.now) result }
{
    let (cells, _number, _version) = judge_cells(alloc, files)?;
    Ok(cells)
}

/// Checks the hive, gets the text, and makes its edits.
fn import_hive<H: Host, B: Bench>(
    alloc: Global,
    files: &HiveFiles,
    how: How,
    name: &str,
    saves: Saves<'_>,
    host: &mut H,
    bench: &mut B,
) -> Status
    requires fresh { B.state bench.old ≡ new_state }
    ensures { DecidesFile files.now (saves_seen saves.entry) how name.now result (H.state host.old) (H.state host.new) (B.state bench.new) }
{
    match check(alloc, files) {
        Ok(cells) => {
            let mut judged = Some(cells);
            import_file(alloc, files, &mut judged, how, name, saves, host, bench)
        }
        Err(ReadStop::Fault(fault)) => refuse(alloc, host, &Refusal::HiveFault(fault)),
        Err(ReadStop::Memory) => Status::Memory,
    }
}

/// Gets the hive that the command line names and the text, makes the text's edits as one change, prints what was done in one of the two
/// forms and saves the files; or prints the first obstacle.
pub fn import<H: Host, B: Bench>(
    alloc: Global,
    words: ImportWords<'_>,
    form: ReportForm,
    host: &mut H,
    bench: &mut B,
) -> Status
    requires fresh { B.state bench.old ≡ new_state }
    ensures decides { DecidesImport form (import_seen words.entry) result (H.state host.old) (H.state host.new) (B.state bench.new) }
    ensures asked { AsksImport (import_seen words.entry) result (H.state host.old) (H.state host.new) }
    ensures kept { result ≡ Status.Usage → ⊥ }
{
    let saves = Saves {
        hive: words.save_hive,
        log: words.save_log,
    };
    let how = How {
        form,
        encoding: words.encoding,
        current: words.current,
        lenient: words.lenient,
    };
    match hive_in(alloc, host, words.hive, words.log) {
        Ok(files) => import_hive(alloc, &files, how, words.reg, saves, host, bench),
        Err(Obstacle::Refused(why)) => refuse(alloc, host, &why),
        Err(Obstacle::Stopped(stop)) => stopped(stop),
    }
}
