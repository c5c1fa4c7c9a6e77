//! What a boot starts where each attempt goes well, and what differs between two such boots.

ghost use Rattle.std.specs.Prelude.{◌≡◌, ◌++◌, [], map, IfOk, OnOk};
ghost use Rattle.std.specs.Option.{option_copied, option_map_or};
ghost use Rattle.hive_model.specs.Valid.{HoldsKeys};
ghost use Rattle.safe_boot.specs.Lines.{line_of};
ghost use Rattle.set_diff.specs.Boots.{boot_step, boot_from, no_boot, started, boot_of, attempt_names, attempt_named, phase_rank, phase_lines, phases_lines};

use answer_lines::diff_lines::{DiffLine, DiffLines};
use boot_phases::boot_phases::Phase;
use nt_bytes::{Names, Row, Units};
use nt_names::name_places::NamePlaces;
use reg_tree::Key;
use safe_boot::{SafeLine, safe_start};
use std::alloc::{AllocError, Global};

/// A name that is attempted in a phase.
#[derive(Drop)]
pub struct Attempt {
    pub phase: Phase,
    pub name: Units,
}

/// A boot in which each attempt goes well.
#[derive(Drop)]
pub struct QuietBoot {
    /// The phase that it is in.
    pub phase: Phase,
    pub attempts: Row<Attempt>,
    /// What was never ready.
    pub unmet: Names,
}

impl QuietBoot {
    fn new(alloc: Global) -> QuietBoot
        ensures { result ≡ no_boot }
    {
        QuietBoot {
            phase: Phase::Boot,
            attempts: Row::new(alloc),
            unmet: Names::new(alloc),
        }
    }

    /// Takes one more line.
    #[tactic(auto, using(crate::proofs::BootLemmas::phase_step))]
    fn step(&mut self, alloc: Global, line: &SafeLine) -> Result<(), AllocError>
        ensures { OnOk result (self.new ≡ boot_step self.old (line_of line.now)) }
    {
        match line {
            SafeLine::Phase(phase) => {
                self.phase = *phase;
                Ok(())
            }
            SafeLine::Started(name) => self.start(name.copy(alloc)?),
            SafeLine::Unmet(name) => self.unmet.push(name.copy(alloc)?),
        }
    }

    /// Takes an attempt.
    fn start(&mut self, name: Units) -> Result<(), AllocError>
        ensures { OnOk result (self.new ≡ started self.old name) }
    {
        let phase = self.phase;
        self.attempts.push(Attempt { phase, name })
    }

    /// Takes more lines, the first one first.
    fn steps(&mut self, alloc: Global, lines: &[SafeLine]) -> Result<(), AllocError>
        ensures { OnOk result (self.new ≡ boot_from self.old (map line_of lines.now)) }
    {
        let mut rest = lines;
        'lines: loop {
            let [line, more @ ..] = rest else {
                return Ok(());
            };
            self.step(alloc, line)?;
            rest = more;
        }
    }
}

/// The boot of a set in which each attempt goes well. Takes n log n time in the services.
pub(crate) fn boot_of(alloc: Global, set: &Key) -> Result<QuietBoot, AllocError>
    requires { HoldsKeys set.now }
    ensures { IfOk result (λ b. b ≡ boot_of set.now) }
{
    let lines = safe_start(alloc, set, None)?;
    boot_from(alloc, lines.as_slice())
}

/// The boot of these lines.
fn boot_from(alloc: Global, lines: &[SafeLine]) -> Result<QuietBoot, AllocError>
    ensures { IfOk result (λ b. b ≡ boot_from no_boot (map line_of lines.now)) }
{
    let mut boot = QuietBoot::new(alloc);
    boot.steps(alloc, lines)?;
    Ok(boot)
}

/// The names of the attempts.
pub(crate) fn attempt_names(alloc: Global, attempts: &[Attempt]) -> Result<Names, AllocError>
    ensures { IfOk result (λ n. n ≡ attempt_names attempts.now) }
{
    let mut names = Names::new(alloc);
    for attempt in attempts {
        names.push(attempt.name.copy(alloc)?)?;
    }
    Ok(names)
}

// ---- names that both boots attempt

/// Appends each name that both boots attempt, in two phases. `places` are those of the names of the other boot's attempts.
pub(crate) fn put_phases(
    alloc: Global,
    attempts: &[Attempt],
    others: &[Attempt],
    places: &NamePlaces,
    lines: &mut DiffLines,
) -> Result<(), AllocError>
    requires { places.now ≡ attempt_names others.now }
    ensures { OnOk result (lines.new ≡ lines.old ++ phases_lines attempts.now others.now) }
{
    for attempt in attempts {
        put_paired(
            alloc,
            attempt,
            attempt_named(others, places, attempt),
            lines,
        )?;
    }
    Ok(())
}

/// The other boot's attempt of this one's name.
fn attempt_named<'a>(
    others: &'a [Attempt],
    places: &NamePlaces,
    attempt: &Attempt,
) -> Option<&'a Attempt>
    requires { places.now ≡ attempt_names others.now }
    ensures { option_copied result ≡ attempt_named others.now attempt.now.name }
{
    let place = places.place_of(attempt.name.as_slice())?;
    others.get(place)
}

fn put_paired(
    alloc: Global,
    attempt: &Attempt,
    other: Option<&Attempt>,
    lines: &mut DiffLines,
) -> Result<(), AllocError>
    ensures { OnOk result (lines.new ≡ lines.old ++ option_map_or (phase_lines attempt.now) (option_copied other.entry) []) }
{
    match other {
        Some(other) => put_phase(alloc, attempt, other, lines),
        None => Ok(()),
    }
}

fn put_phase(
    alloc: Global,
    a: &Attempt,
    b: &Attempt,
    lines: &mut DiffLines,
) -> Result<(), AllocError>
    ensures { OnOk result (lines.new ≡ lines.old ++ phase_lines a.now b.now) }
{
    if phase_rank(a.phase) == phase_rank(b.phase) {
        return Ok(());
    }
    lines.push(DiffLine::StartPhase {
        first: a.phase,
        second: b.phase,
        name: a.name.copy(alloc)?,
    })
}

/// A number of its own for each phase.
fn phase_rank(phase: Phase) -> u8
    ensures { result ≡ phase_rank phase }
{
    match phase {
        Phase::Boot => 0,
        Phase::System => 1,
        Phase::Automatic => 2,
        Phase::Done => 3,
    }
}
