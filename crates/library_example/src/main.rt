//! What a program can do with the crates: it opens a hive and reads a value, lists the services of the default control set, plans the first phase of
//! its start, and commits an edit. docs/library.md goes through it.
#![tactic(auto)]

mod changing;
mod listing;

use crate::changing::commit;
use crate::listing::say_default;
use generated_hive::generated_hive;
use hive_store::check_images;
use standard_host::say_out;
use std::process::ExitCode;

/// Opens a hive, and says what its default set has.
fn open(rt: &HostRuntime, hive: &[u8]) -> Option<()> {
    match check_images(rt.alloc(), hive, &[]) {
        Ok((tree, _number, _version)) => say_default(rt, &tree),
        Err(_) => None,
    }
}

/// Says the number under which an edit of a hive is committed.
fn edit(rt: &HostRuntime, hive: &[u8]) -> Option<()> {
    match commit(rt.alloc(), hive)? {
        2 => say_out(rt, b"committed 2\n").ok(),
        _ => None,
    }
}

fn play(rt: &HostRuntime) -> Option<()> {
    let hive = generated_hive(rt.alloc(), 3).ok()?;
    open(rt, hive.as_slice())?;
    edit(rt, hive.as_slice())
}

fn main(rt: HostRuntime) -> ExitCode {
    match play(&rt) {
        Some(()) => ExitCode::from(0),
        None => ExitCode::from(1),
    }
}
