//! Where the cells of a run begin.

ghost use Rattle.std.specs.Prelude.{◌≡◌, ◌+◌, ◌-◌, ◌/◌, ◌≤◌, ◌++◌, length, take, drop, replicate, false};
ghost use Rattle.std.specs.List.{flat_map};
ghost use Rattle.hive_cells.specs.Reading.{cell_marks};
ghost use Rattle.hive_cells.specs.Held.{run_cells, IsRun};

use nt_bytes::u32_at;

/// Turns these flags off.
fn clear(starts: &mut Vec<bool>, from: usize, to: usize)
    requires ordered { from ≤ to }
    requires within { to ≤ length starts.old.items }
    ensures long { length starts.new.items ≡ length starts.old.items }
    ensures exact { starts.new.items ≡ take from starts.old.items ++ (replicate (to - from) false ++ drop to starts.old.items) }
{
    starts[from..to].fill(false);
}

/// That many flags, each off, where there are as many or more.
pub(crate) fn unmark(starts: &mut Vec<bool>, count: usize)
    requires { count ≤ length starts.old.items }
    ensures { starts.new.items ≡ replicate count false }
{
    starts.truncate(count);
    starts.fill(false);
}

/// Says where the cells of a run begin that lies at this slot, in place of what was marked before.
pub(crate) fn mark_run(starts: &mut Vec<bool>, slot: usize, run: &[u8])
    requires run { IsRun run.now }
    requires within { slot + length run.now / 8 ≤ length starts.old.items }
    ensures long { length starts.new.items ≡ length starts.old.items }
    ensures exact { starts.new.items ≡ take slot starts.old.items
        ++ (flat_map cell_marks (run_cells run.now) ++ drop (slot + length run.now / 8) starts.old.items) }
{
    clear(starts, slot, slot + run.len() / 8);
    let mut at = 0;
    'cells: while at < run.len() {
        starts[slot + at / 8] = true;
        at += (0x1_0000_0000 - u64::from(u32_at(run, at))) as usize;
    }
}
