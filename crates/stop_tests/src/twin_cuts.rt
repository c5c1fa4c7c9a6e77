//! A cut at each sync of a commit to two copies, with each way of leaving what is in flight, and a second one at
//! each sync of the repair after it.

use crate::change::{Bins, Change, is_size};
use crate::orders::Order;
use crate::twins::{mend_with, play};
use hive_alt::{CommitStop, LoadStop};
use mem_edge::MemDisk;
use nt_edge::{DiskCall, Keep};
use std::alloc::Global;
use std::process::Abort;
use std::test::Fail;

/// The ways of leaving what is in flight.
const KEEPS: [Keep; 4] = [Keep::Nothing, Keep::Everything, Keep::OddOnes, Keep::Torn];

/// A change of one bin's second sector, cut at this sync. Answers the disk, the number and the bins data that the start
/// after it finds.
fn cut_at(
    rt: &impl Abort,
    alloc: Global,
    change: &Change,
    n: u32,
    keep: Keep,
) -> Result<(MemDisk, u32, Bins), LoadStop> {
    assert!(rt; change.file.len() <= 33_554_432 && is_size(change.new.len()) && 1 <= n);
    let mut disk = MemDisk::new(alloc);
    let order = Order {
        call: DiskCall::Sync,
        n,
        keep: Some(keep),
    };
    let (answer, after) = play(alloc, &mut disk, change, order)?;
    assert_eq!(rt; answer, Err(CommitStop::PowerLost));
    let found = after?;
    Ok((disk, found.number, found.bins))
}

/// In the first three stages the primary stands as it was, in the last two the second copy has the new data. In the
/// fourth the primary's base block is opened: where that is lost the old data stand, and else, torn too, the new.
#[test]
fn a_cut_at_a_sync_leaves_the_old_or_the_new(rt: HostRuntime) -> Result<(), Fail> {
    let old = (5, Bins::Old);
    let new = (6, Bins::New);
    let rows = [
        (1, [old, old, old, old]),
        (2, [old, old, old, old]),
        (3, [old, old, old, old]),
        (4, [old, new, new, new]),
        (5, [new, new, new, new]),
        (6, [new, new, new, new]),
    ];
    let change = Change::new(rt.alloc(), 1, 1)?;
    for (n, left) in rows {
        for (keep, left) in KEEPS.into_iter().zip(left) {
            let (_disk, number, bins) = cut_at(&rt, rt.alloc(), &change, n, keep)?;
            assert_eq!(rt; (number, bins), left, "{n} {keep:?}");
        }
    }
    Ok(())
}

/// Cuts the repair at this sync, after a commit that was torn.
fn cut_again(
    rt: &impl Abort,
    alloc: Global,
    change: &Change,
    sync: u32,
    order: Order,
) -> Result<(), LoadStop> {
    let (mut disk, number, bins) = cut_at(rt, alloc, change, sync, Keep::Torn)?;
    assert!(rt; 1 <= order.n);
    let (stop, left) = mend_with(alloc, &mut disk, order)?;
    let found = change.found(&left);
    assert_eq!(rt;
        (found.number, found.bins),
        (number, bins),
        "{sync} {order:?}"
    );
    assert_eq!(rt; stop, Some(LoadStop::PowerLost), "{sync} {order:?}");
    Ok(())
}

/// The second copy is repaired by three syncs, the primary by two.
#[test]
fn a_second_cut_leaves_what_was_found(rt: HostRuntime) -> Result<(), Fail> {
    let change = Change::new(rt.alloc(), 1, 1)?;
    for (sync, past) in [(1, 4), (2, 4), (3, 4), (4, 3), (5, 3), (6, 3)] {
        for n in 1..past {
            for keep in KEEPS {
                let order = Order {
                    call: DiskCall::Sync,
                    n,
                    keep: Some(keep),
                };
                cut_again(&rt, rt.alloc(), &change, sync, order)?;
            }
        }
    }
    Ok(())
}
