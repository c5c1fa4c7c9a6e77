//! A repair that is stopped at each call of the disk, and the one after it.

use crate::hives::grown_hive;
use crate::mends::{again, stopped};
use crate::orders::Order;
use mem_edge::MemDisk;
use mend_command::mend_command::MendStatus;
use nt_bytes::Bytes;
use nt_edge::{DiskCall, Keep};
use std::alloc::Global;
use std::process::Abort;
use std::test::Fail;

/// What a stop leaves: a cut with each way of leaving what is in flight, and a fault.
static KEEPS: [Option<Keep>; 5] = [
    Some(Keep::Nothing),
    Some(Keep::Everything),
    Some(Keep::OddOnes),
    Some(Keep::Torn),
    None,
];

/// The status of a stop, and what is printed last.
fn ends(keep: Option<Keep>) -> (MendStatus, &'static [u8]) {
    match keep {
        Some(_) => (MendStatus::Cut, b"power lost\n"),
        None => (MendStatus::Device, b"device fault\n"),
    }
}

/// What the repair after a stop may say: all again, or what a stop in the middle left to do, or nothing more.
fn goes_on(said: &[u8]) -> bool {
    said == b"clean 5 8192\npacked 6 8192 4096\n".as_slice()
        || said == b"recovered 6 4096\n".as_slice()
        || said == b"clean 6 4096\n".as_slice()
}

/// The repair after a stop ends its work.
fn is_ended(rt: &impl Abort, alloc: Global, disk: &mut MemDisk, order: Order) -> Result<(), Fail> {
    let (after, said) = again(alloc, disk)?;
    assert!(rt;
        after == MendStatus::Done && goes_on(said.as_slice()),
        "{order:?}"
    );
    Ok(())
}

/// The one after that has nothing to do.
fn is_clean(rt: &impl Abort, alloc: Global, disk: &mut MemDisk, order: Order) -> Result<(), Fail> {
    let (last, said) = again(alloc, disk)?;
    assert_eq!(rt; last, MendStatus::Done, "{order:?}");
    assert_eq!(rt; said.as_slice(), b"clean 6 4096\n".as_slice(), "{order:?}");
    Ok(())
}

/// Repairs a hive that has grown with a stop at this call. Answers whether it came. The repair after it ends its work.
fn stop_at(rt: &impl Abort, alloc: Global, file: &Bytes, order: Order) -> Result<bool, Fail> {
    let mut disk = MemDisk::new(alloc);
    assert!(rt; file.len() <= 33_554_432 && 1 <= order.n);
    let (status, said) = stopped(alloc, &mut disk, file.as_slice(), order)?;
    let (stop, line) = ends(order.keep);
    if status == MendStatus::Done {
        return Ok(false);
    }
    assert!(rt;
        status == stop && said.as_slice().ends_with(line),
        "{order:?}"
    );
    is_ended(rt, alloc, &mut disk, order)?;
    is_clean(rt, alloc, &mut disk, order)?;
    Ok(true)
}

/// How many stops come, one at each call of this kind.
fn stops(rt: &impl Abort, alloc: Global, call: DiskCall, keep: Option<Keep>) -> Result<u32, Fail> {
    let file = grown_hive(alloc)?;
    for n in 1..40 {
        if !stop_at(rt, alloc, &file, Order { call, n, keep })? {
            return Ok(n - 1);
        }
    }
    Ok(40)
}

/// How many stops come at calls of a kind: sixteen sectors of bins data and the base block are read; four are written, and each
/// of the four stages is synced.
static COUNTS: [(DiskCall, u32); 3] = [
    (DiskCall::Read, 17),
    (DiskCall::Write, 4),
    (DiskCall::Sync, 4),
];

fn each_kind(rt: &impl Abort, alloc: Global, keep: Option<Keep>) -> Result<(), Fail> {
    for (call, count) in COUNTS.iter() {
        let come = stops(rt, alloc, *call, keep)?;
        assert_eq!(rt; come, *count, "{keep:?}");
    }
    Ok(())
}

fn each_keep(rt: &impl Abort, alloc: Global) -> Result<(), Fail> {
    for keep in KEEPS.iter() {
        each_kind(rt, alloc, *keep)?;
    }
    Ok(())
}

#[test]
fn a_stop_at_each_call_leaves_the_tree(rt: HostRuntime) -> Result<(), Fail> {
    each_keep(&rt, rt.alloc())
}
