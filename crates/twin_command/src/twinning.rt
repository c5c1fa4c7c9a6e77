//! A change of the default set, on a new disk that holds two files.

ghost use Rattle.std.specs.Prelude.{◌≡◌, false, [], unwrap_or, Err, IfOk, OnErr};
ghost use Rattle.nt_bytes.specs.declared.fault.HiveFault.{HiveFault};
ghost use Rattle.hive_alt.specs.Changes.{IsLost, IsFailed};
ghost use Rattle.hive_alt.specs.declared.change.ChangeStop.TheVariants as stops;
ghost use Rattle.nt_edge.specs.Disk.{new_state};
ghost use Rattle.command_parts.specs.command_parts.Placed.{image_in, placed_disk};
ghost use Rattle.command_parts.specs.command_parts.Views.{saves_seen};
ghost use Rattle.command_parts.specs.command_parts.Decides.{DecidesAlone};
ghost use Rattle.hive_alt.specs.Plans.{ChecksFor};
ghost use Rattle.twin_command.specs.Awake.{IsAwake, ToldOf, ToldBy, done_word};
ghost use Rattle.twin_command.specs.Twinned.{SomeFound, TwinnedAs, EndsFiles};
ghost use Rattle.command_parts.specs.command_parts.Leaves.{IsPartDone};

use crate::report::{Told, Word, report};
use command_parts::command_parts::{HiveFiles, Refusal, Saves, Status, finish, place, refuse};
use hive_alt::{ChangeStop, Changed, Scheme, change_default, check_kept};
use nt_bytes::{Bytes, ReadStop};
use nt_edge::{Bench, Host};
use report_text::line_text::ReportForm;
use std::alloc::{AllocError, Global};

/// The bytes of a second file, none where there is none.
fn second_bytes(second: &Option<Bytes>) -> &[u8]
    ensures { result.now ≡ unwrap_or second.now [] }
{
    match second {
        Some(second) => second.as_slice(),
        None => &[],
    }
}

/// Checks what the two files stand for, and keeps no memory.
fn check<S: Scheme>(alloc: Global, files: &HiveFiles) -> Result<(), ReadStop>
    ensures { ChecksFor S.stands (image_in files.now) result }
{
    check_kept::<S>(alloc, files.primary.as_slice(), second_bytes(&files.log))
}

/// The word for a change that was done.
fn done_word(number: Option<u32>, committed: Option<u32>) -> Word
    ensures { result ≡ done_word number committed }
{
    match (number, committed) {
        (None, _) => Word::Unasked,
        (Some(_), None) => Word::Nothing,
        (Some(_), Some(sequence)) => Word::Commit(sequence),
    }
}

/// What is reported of a change that was not stopped by the disk.
fn told_by(number: Option<u32>, done: Result<Changed, ChangeStop>) -> Result<Told, AllocError>
    requires sound { (fault : HiveFault) → done ≡ Err (stops.Fault fault) → ⊥ }
    requires powered { IsLost done → ⊥ }
    requires working { IsFailed done → ⊥ }
    ensures { ToldBy number done result }
{
    match done {
        Ok(done) => Ok(Told {
            loaded: done.loaded,
            mended: done.mended,
            word: done_word(number, done.committed),
        }),
        Err(ChangeStop::NoSelect { loaded, mended }) => Ok(Told {
            loaded,
            mended,
            word: Word::NoKey,
        }),
        Err(ChangeStop::Full { loaded, mended }) => Ok(Told {
            loaded,
            mended,
            word: Word::Full,
        }),
        Err(ChangeStop::Memory) => Err(AllocError),
        Err(ChangeStop::Fault(_)) => unreachable!(),
        Err(ChangeStop::PowerLost { loaded: _ }) => unreachable!(),
        Err(ChangeStop::Device { loaded: _ }) => unreachable!(),
    }
}

/// Changes the default set on a disk that is on, and turns it off.
fn change_awake<S: Scheme, B: Bench>(
    alloc: Global,
    number: Option<u32>,
    bench: &mut B,
) -> Result<Told, AllocError>
    requires awake { IsAwake (B.state bench.old) }
    requires some { SomeFound S.stands (B.state bench.old).held }
    ensures told { IfOk result (λ t. ToldOf S.stands number t (B.state bench.old) (B.state bench.new)) }
    ensures part { OnErr result ((B.state bench.new).history ≡ (B.state bench.old).history) }
    ensures off { (B.state bench.new).on ≡ false }
{
    let done = change_default::<S, B>(alloc, bench, number);
    bench.power_off();
    told_by(number, done)
}

/// Wakes the disk, which holds the files, and changes the default set on it.
fn change<S: Scheme, B: Bench>(
    alloc: Global,
    files: &HiveFiles,
    number: Option<u32>,
    bench: &mut B,
) -> Result<Told, AllocError>
    requires placed { B.state bench.old ≡ placed_disk files.now }
    requires some { SomeFound S.stands (image_in files.now) }
    ensures told { IfOk result (λ t. TwinnedAs S.stands files.now number t (B.state bench.new)) }
    ensures part { OnErr result (IsPartDone files.now 0 (B.state bench.new)) }
    ensures off { (B.state bench.new).on ≡ false }
{
    match bench.power_on() {
        Ok(()) => change_awake::<S, B>(alloc, number, bench),
        Err(_) => Err(AllocError),
    }
}

/// Places the files on a new disk, and changes the default set on it.
fn place_and_change<S: Scheme, B: Bench>(
    alloc: Global,
    files: &HiveFiles,
    number: Option<u32>,
    bench: &mut B,
) -> Result<Told, AllocError>
    requires fresh { B.state bench.old ≡ new_state }
    requires some { SomeFound S.stands (image_in files.now) }
    ensures told { IfOk result (λ t. TwinnedAs S.stands files.now number t (B.state bench.new)) }
    ensures part { OnErr result (IsPartDone files.now 0 (B.state bench.new)) }
    ensures off { (B.state bench.new).on ≡ false }
{
    match place(files, bench) {
        Ok(()) => change::<S, B>(alloc, files, number, bench),
        Err(_) => Err(AllocError),
    }
}

/// Says what a change came to, and saves what the disk then holds.
fn tell_and_save<S: Scheme, H: Host, B: Bench>(
    alloc: Global,
    form: ReportForm,
    told: Told,
    files: &HiveFiles,
    number: Option<u32>,
    saves: Saves<'_>,
    host: &mut H,
    bench: &mut B,
) -> Status
    requires off { (B.state bench.old).on ≡ false }
    requires twinned { TwinnedAs S.stands files.now number told (B.state bench.old) }
    ensures { DecidesAlone (EndsFiles form S.stands files.now number (saves_seen saves.entry) (B.state bench.new)) (saves_seen saves.entry) result
        (H.state host.old) (H.state host.new) (B.state bench.new) }
{
    match report(alloc, form, told) {
        Ok(text) => finish(text.as_slice(), saves, host, bench),
        Err(_) => Status::Memory,
    }
}

/// Changes the default set of checked files, says what that came to, and saves what the disk then holds.
fn tell_change<S: Scheme, H: Host, B: Bench>(
    alloc: Global,
    form: ReportForm,
    files: &HiveFiles,
    number: Option<u32>,
    saves: Saves<'_>,
    host: &mut H,
    bench: &mut B,
) -> Status
    requires fresh { B.state bench.old ≡ new_state }
    requires some { SomeFound S.stands (image_in files.now) }
    ensures { DecidesAlone (EndsFiles form S.stands files.now number (saves_seen saves.entry) (B.state bench.new)) (saves_seen saves.entry) result
        (H.state host.old) (H.state host.new) (B.state bench.new) }
{
    match place_and_change::<S, B>(alloc, files, number, bench) {
        Ok(told) => tell_and_save::<S, H, B>(alloc, form, told, files, number, saves, host, bench),
        Err(_) => Status::Memory,
    }
}

/// Checks the files, and changes the default set; or says their first fault.
pub(crate) fn begin<S: Scheme, H: Host, B: Bench>(
    alloc: Global,
    form: ReportForm,
    files: &HiveFiles,
    number: Option<u32>,
    saves: Saves<'_>,
    host: &mut H,
    bench: &mut B,
) -> Status
    requires fresh { B.state bench.old ≡ new_state }
    ensures { DecidesAlone (EndsFiles form S.stands files.now number (saves_seen saves.entry) (B.state bench.new)) (saves_seen saves.entry) result
        (H.state host.old) (H.state host.new) (B.state bench.new) }
{
    match check::<S>(alloc, files) {
        Ok(()) => tell_change::<S, H, B>(alloc, form, files, number, saves, host, bench),
        Err(ReadStop::Fault(fault)) => refuse(alloc, host, &Refusal::HiveFault(fault)),
        Err(ReadStop::Memory) => Status::Memory,
    }
}
