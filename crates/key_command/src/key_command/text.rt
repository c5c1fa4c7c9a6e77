//! The lines of a key, out of the cells of a hive.

ghost use Rattle.std.specs.Prelude.{◌≡◌, [], unwrap_or};
ghost use Rattle.hive_model.specs.Tree.{Tree};
ghost use Rattle.command_parts.specs.command_parts.Placed.{image_in};
ghost use Rattle.key_command.specs.judged_cells.Judged.{JudgesCells};
ghost use Rattle.key_text.specs.Found.{lines_of};
ghost use Rattle.key_text.specs.Lines.{printed_lines};
ghost use Rattle.key_command.specs.key_command.Texts.{PrintsOf};

use crate::judged_cells::{JudgedCells, judged};
use crate::key_cells::report_in;
use command_parts::command_parts::HiveFiles;
use nt_bytes::{Bytes, Names, ReadStop};
use report_text::line_text::ReportForm;
use std::alloc::Global;

/// The bytes of a log, none where there is no log.
fn log_bytes(log: &Option<Bytes>) -> &[u8]
    ensures { result.now ≡ unwrap_or log.now [] }
{
    match log {
        Some(log) => log.as_slice(),
        None => &[],
    }
}

/// The cells of a hive with its log, judged whole as a start will load it, or its first fault.
fn judged_files(alloc: Global, files: &HiveFiles) -> Result<JudgedCells, ReadStop>
    ensures { JudgesCells (image_in files.now) result }
{
    judged(alloc, files.primary.as_slice(), log_bytes(&files.log))
}

/// The text of the key at a path and of the levels below it that are asked for, or the hive's first fault. The whole hive is
/// judged; of its tree no more is made than that is printed of.
pub(crate) fn text_at(
    alloc: Global,
    files: &HiveFiles,
    form: ReportForm,
    path: &Names,
    depth: u32,
    security: bool,
) -> Result<Bytes, ReadStop>
    ensures { PrintsOf (image_in files.now) (λ (t : Tree). printed_lines form (lines_of t path.now depth security)) result }
{
    let cells = judged_files(alloc, files)?;
    report_in(
        alloc,
        form,
        &cells.source(),
        cells.root,
        path,
        depth,
        security,
    )
}
