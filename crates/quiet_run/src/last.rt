//! What is known of a start.

ghost use Rattle.std.specs.Prelude.{◌≡◌};
ghost use Rattle.quiet_run.specs.Watch.{fresh_start};

use boot_phases::boot_phases::Phase;
use nt_bytes::{Names, Row, Units};
use reg_tree::Key;
use report_text::boot_report::{TryWord, Verdict};
use std::alloc::Global;

/// An attempt of an entry, by its name as the registry spells it.
#[derive(Drop)]
pub struct Attempt {
    pub name: Units,
    pub outcome: TryWord,
}

/// Attempts in their order.
pub type AttemptRow = Row<Attempt>;

/// A phase that began.
#[derive(Drop)]
pub struct BegunPhase {
    pub phase: Phase,
    /// The set that the start took, as the phase read it.
    pub set: Key,
    /// How many attempts the start had made before.
    pub from: usize,
}

/// Phases in their order.
pub type BegunPhases = Row<BegunPhase>;

/// What is known of a start.
#[derive(Drop)]
pub struct LastStart {
    /// Counted from 1; 0 where no boot was accepted.
    pub number: u32,
    /// The number of the set that it took, and whether it took LastKnownGood, where it came to that.
    pub set: Option<(u32, bool)>,
    pub phases: BegunPhases,
    pub attempts: AttemptRow,
    /// Whether the last of the phases ended: none of its waiting entries was ready any more.
    pub ended: bool,
    /// The vital names without which the boot phase ended, as the script has them.
    pub missing: Names,
    /// How it ended, or would have with the script; none before that.
    pub verdict: Option<Verdict>,
}

/// The last start of a script, and the set that it took as the live tree had it in the end.
#[derive(Drop)]
pub struct QuietRun {
    pub start: LastStart,
    pub set: Key,
}

/// A start that begins.
pub(crate) fn fresh_start(alloc: Global, number: u32) -> LastStart
    ensures { result ≡ fresh_start number }
{
    LastStart {
        number,
        set: None,
        phases: BegunPhases::new(alloc),
        attempts: AttemptRow::new(alloc),
        ended: false,
        missing: Names::new(alloc),
        verdict: None,
    }
}
