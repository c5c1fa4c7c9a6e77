//! The stages of a recovery and of a commit.

ghost use Rattle.std.specs.Prelude.{◌≡◌, ◌≤◌, ◌+◌, [], ◌∷◌, ◌++◌, length, codes, OnOk, IfOk};
ghost use Rattle.std.specs.List.{range_with_len};
ghost use Rattle.sweep_text.specs.sweep_text.Stages.{recovery_stages, commit_stages, stage, leaves_before, leaves_either, leaves_after};
ghost use Rattle.sweep_text.specs.sweep_text.Calls.{writes_text, stage_text, stages_text};

use crate::sweep_text::calls::{push_stage, push_sync, push_write};
use nt_bytes::Row;
use report_text::line_text::ReportForm;
use std::alloc::{AllocError, Global};

/// Whether a cut leaves the state after the event, by where in a stage it comes.
#[derive(Clone, Copy, Debug, PartialEq, Eq)]
pub struct Leaves {
    /// In a write.
    pub written: bool,
    /// In the sync, where nothing in flight is kept.
    pub none: bool,
    /// In the sync, where some or all of it is kept, or is unreadable.
    pub others: bool,
}

/// Each cut leaves the state before.
const BEFORE: Leaves = Leaves {
    written: false,
    none: false,
    others: false,
};

/// A cut in the sync leaves the one or the other.
const EITHER: Leaves = Leaves {
    written: false,
    none: false,
    others: true,
};

/// Each cut leaves the state after.
const AFTER: Leaves = Leaves {
    written: true,
    none: true,
    others: true,
};

/// Appends the writes of a file's sectors, the first of which has this number.
fn push_writes(
    out: &mut Vec<u8>,
    form: ReportForm,
    first: u32,
    file: &[u8],
    after: bool,
    sectors: &[u32],
) -> Result<(), AllocError>
    requires { first + length sectors.now ≤ 1000000000 }
    ensures { OnOk result (out.new.items ≡ out.old.items ++ writes_text form first file.now after sectors.now) }
{
    let mut n = first;
    let mut waiting = sectors;
    'writes: while let [sector, rest @ ..] = waiting {
        push_write(out, form, n, file, after, *sector)?;
        n += 1;
        waiting = rest;
    }
    Ok(())
}

/// Appends a stage that writes these sectors of a file, the first of which has this number, and its sync with this one.
fn push_whole(
    out: &mut Vec<u8>,
    form: ReportForm,
    name: &[u8],
    file: &[u8],
    sectors: &[u32],
    leaves: Leaves,
    writes: u32,
    syncs: u32,
) -> Result<(), AllocError>
    requires { writes + length sectors.now ≤ 1000000000 }
    ensures { OnOk result (out.new.items ≡ out.old.items ++ stage_text form writes syncs (stage name.now file.now sectors.now leaves)) }
{
    push_stage(out, form, name)?;
    push_writes(out, form, writes, file, leaves.written, sectors)?;
    push_sync(out, form, syncs, leaves.none, leaves.others)
}

/// Appends the stages of a recovery.
pub(crate) fn push_recovery(
    out: &mut Vec<u8>,
    form: ReportForm,
    sectors: &[u32],
) -> Result<(), AllocError>
    requires { length sectors.now ≤ 8388608 }
    ensures { OnOk result (out.new.items ≡ out.old.items ++ stages_text form 1 1 (recovery_stages sectors.now)) }
{
    let count = sectors.len() as u32;
    push_whole(
        out,
        form,
        b"recover-sectors",
        b"hive",
        sectors,
        BEFORE,
        1,
        1,
    )?;
    push_whole(
        out,
        form,
        b"recover-close",
        b"hive",
        &[0],
        BEFORE,
        1 + count,
        2,
    )
}

/// The numbers from 0 on.
fn numbers(alloc: Global, count: u32) -> Result<Row<u32>, AllocError>
    ensures { IfOk result (λ all. all ≡ range_with_len 0 count) }
{
    let mut all = Row::new(alloc);
    for number in 0..count {
        all.push(number)?;
    }
    Ok(all)
}

/// Appends the stages of a commit, with the numbers of the first write and the first sync.
fn push_stages(
    out: &mut Vec<u8>,
    form: ReportForm,
    log: &[u32],
    sectors: &[u32],
    writes: u32,
    syncs: u32,
) -> Result<(), AllocError>
    requires writes { writes ≤ 100000000 }
    requires syncs { syncs ≤ 100000000 }
    requires log { length log.now ≤ 100000000 }
    requires sectors { length sectors.now ≤ 100000000 }
    ensures { OnOk result (out.new.items ≡ out.old.items
        ++ (stage_text form writes syncs (stage (codes "log") (codes "log") log.now leaves_before)
        ++ (stage_text form (writes + length log.now) (syncs + 1) (stage (codes "open") (codes "hive") (0 ∷ []) leaves_either)
        ++ (stage_text form (writes + length log.now + 1) (syncs + 1 + 1) (stage (codes "sectors") (codes "hive") sectors.now leaves_after)
        ++ stage_text form (writes + length log.now + 1 + length sectors.now) (syncs + 1 + 1 + 1) (stage (codes "close") (codes "hive") (0 ∷ []) leaves_after))))) }
{
    let opened = writes + log.len() as u32;
    let closed = opened + 1 + sectors.len() as u32;
    push_whole(out, form, b"log", b"log", log, BEFORE, writes, syncs)?;
    push_whole(out, form, b"open", b"hive", &[0], EITHER, opened, syncs + 1)?;
    push_whole(
        out,
        form,
        b"sectors",
        b"hive",
        sectors,
        AFTER,
        opened + 1,
        syncs + 1 + 1,
    )?;
    push_whole(
        out,
        form,
        b"close",
        b"hive",
        &[0],
        AFTER,
        closed,
        syncs + 1 + 1 + 1,
    )
}

/// Appends the stages of a commit whose log has that many sectors of bits, with the numbers of the first write and the first sync.
pub(crate) fn push_commit(
    alloc: Global,
    out: &mut Vec<u8>,
    form: ReportForm,
    bitmap: u32,
    sectors: &[u32],
    writes: u32,
    syncs: u32,
) -> Result<(), AllocError>
    requires writes { writes ≤ 100000000 }
    requires syncs { syncs ≤ 100000000 }
    requires bitmap { bitmap ≤ 8388608 }
    requires sectors { length sectors.now ≤ 8388608 }
    ensures { OnOk result (out.new.items ≡ out.old.items ++ stages_text form writes syncs (commit_stages bitmap sectors.now)) }
{
    let log = numbers(alloc, 1 + bitmap + sectors.len() as u32)?;
    push_stages(out, form, log.as_slice(), sectors, writes, syncs)
}
