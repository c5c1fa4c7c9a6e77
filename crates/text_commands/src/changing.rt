//! `import` on a disk: the edits of a text, made in a hive as one change.

ghost use Rattle.std.specs.Prelude.{◌≡◌, true, false, [], map, IfOk};
ghost use Rattle.std.specs.List.{All};
ghost use Rattle.nt_edge.specs.Disk.{new_state};
ghost use Rattle.reg_tree.specs.Fitting.{Fits};
ghost use Rattle.reg_tree.specs.Makes.{step_of};
ghost use Rattle.command_parts.specs.declared.command_parts.inputs.HiveFiles.{HiveFiles as FilesModel};
ghost use Rattle.command_parts.specs.command_parts.Placed.{placed_disk};
ghost use Rattle.text_commands.specs.Imports.{ChangesHeld, ChangesAwake, ImportsOn, Unmoved};

use crate::making::change_loaded;
use crate::said::{How, Said};
use command_parts::command_parts::{HiveFiles, place};
use hive_edit::HiveBytes;
use hive_store::Hive;
use nt_edge::{Bench, Disk};
use reg_tree::Steps;
use std::alloc::{AllocError, Global};

/// Loads the hive that the disk holds, of cells that may have been judged before, makes the edits and commits it.
fn change<D: Disk>(
    alloc: Global,
    judged: &mut Option<HiveBytes>,
    how: How,
    steps: Steps,
    disk: &mut D,
) -> Result<Said, AllocError>
    requires on { (D.state disk.old).on ≡ true }
    requires still { D.tells ≡ true → (D.state disk.old).flight ≡ [] }
    requires fits { All Fits (map step_of steps) }
    ensures changed { D.tells ≡ true → IfOk result (ChangesHeld how (D.state disk.old).held (map step_of steps) (D.state disk.new)) }
    ensures unmoved { Unmoved result (D.state disk.old) (D.state disk.new) }
{
    match Hive::load_judged(alloc, disk, judged.take()) {
        Ok((hive, _)) => change_loaded(alloc, hive, how, steps, disk),
        Err(_) => Err(AllocError),
    }
}

/// Changes the hive on the disk, which is on, and turns it off.
fn change_awake<B: Bench>(
    alloc: Global,
    judged: &mut Option<HiveBytes>,
    how: How,
    steps: Steps,
    bench: &mut B,
) -> Result<Said, AllocError>
    requires on { (B.state bench.old).on ≡ true }
    requires still { (B.state bench.old).flight ≡ [] }
    requires fits { All Fits (map step_of steps) }
    ensures { ChangesAwake how (map step_of steps) result (B.state bench.old) (B.state bench.new) }
{
    let done = change(alloc, judged, how, steps, bench);
    bench.power_off();
    done
}

/// Wakes the disk, changes the hive on it, and turns it off.
fn change_on<B: Bench>(
    alloc: Global,
    judged: &mut Option<HiveBytes>,
    how: How,
    steps: Steps,
    bench: &mut B,
) -> Result<Said, AllocError>
    requires off { (B.state bench.old).on ≡ false }
    requires fits { All Fits (map step_of steps) }
    ensures changed { (files : FilesModel) → B.state bench.old ≡ placed_disk files → ImportsOn how files (map step_of steps) result (B.state bench.new) }
    ensures off { (B.state bench.new).on ≡ false }
{
    match bench.power_on() {
        Ok(()) => change_awake(alloc, judged, how, steps, bench),
        Err(_) => Err(AllocError),
    }
}

/// Places the hive on a new disk, and changes it there. Its cells that were judged before are taken.
pub fn import_into<B: Bench>(
    alloc: Global,
    files: &HiveFiles,
    judged: &mut Option<HiveBytes>,
    how: How,
    steps: Steps,
    bench: &mut B,
) -> Result<Said, AllocError>
    requires fresh { B.state bench.old ≡ new_state }
    requires fits { All Fits (map step_of steps) }
    ensures changed { ImportsOn how files.now (map step_of steps) result (B.state bench.new) }
    ensures off { (B.state bench.new).on ≡ false }
{
    match place(files, bench) {
        Ok(()) => change_on(alloc, judged, how, steps, bench),
        Err(_) => Err(AllocError),
    }
}
