//! Whose turn is when in the quiet start of a set: the start in which each attempt goes well.

ghost use Rattle.std.specs.Prelude.{◌≡◌, map, IfOk, OnOk};
ghost use Rattle.hive_model.specs.Valid.{HoldsKeys};
ghost use Rattle.safe_boot.specs.Lines.{line_of};
ghost use Rattle.service_list.specs.Turns.{no_turns, attempted, left, turn_step, turns_from, turns_of, turn_names, turn_at, place_at};

use boot_phases::boot_phases::Phase;
use nt_bytes::{Names, Row, Units};
use nt_names::name_places::NamePlaces;
use reg_tree::Key;
use safe_boot::{SafeLine, safe_start};
use std::alloc::{AllocError, Global};
use std::marker::Model;

/// The place of an entry in the quiet start.
#[derive(Clone, Copy)]
pub enum Place {
    /// It is attempted in this phase; the number counts from 1 over all phases.
    Attempted { phase: Phase, number: u64 },
    /// This phase takes it, and leaves it unmet.
    Unmet(Phase),
    /// No phase takes it.
    Untaken,
}

/// A name of which the start tells, and its place.
#[derive(Drop)]
pub struct Turn {
    pub name: Units,
    pub place: Place,
}

/// What a start told up to a moment.
#[derive(Drop)]
pub(crate) struct Telling {
    /// The phase that it is in.
    phase: Phase,
    turns: Row<Turn>,
    /// The places of the attempts among the turns.
    attempts: Row<usize>,
}

impl Telling {
    fn new(alloc: Global) -> Telling
        ensures { result ≡ no_turns }
    {
        Telling {
            phase: Phase::Boot,
            turns: Row::new(alloc),
            attempts: Row::new(alloc),
        }
    }

    /// Takes one more line.
    #[tactic(auto, using(crate::proofs::TurnLemmas::phase_step))]
    fn step(&mut self, alloc: Global, line: &SafeLine) -> Result<(), AllocError>
        ensures { OnOk result (self.new ≡ turn_step self.old (line_of line.now)) }
    {
        match line {
            SafeLine::Phase(phase) => {
                self.phase = *phase;
                Ok(())
            }
            SafeLine::Started(name) => self.attempt(name.copy(alloc)?),
            SafeLine::Unmet(name) => self.leave(name.copy(alloc)?),
        }
    }

    /// Takes an attempt.
    fn attempt(&mut self, name: Units) -> Result<(), AllocError>
        ensures { OnOk result (self.new ≡ attempted self.old name) }
    {
        self.attempts.push(self.turns.len())?;
        let place = Place::Attempted {
            phase: self.phase,
            number: self.attempts.len() as u64,
        };
        self.turns.push(Turn { name, place })
    }

    /// Takes a name that stays unmet.
    fn leave(&mut self, name: Units) -> Result<(), AllocError>
        ensures { OnOk result (self.new ≡ left self.old name) }
    {
        let place = Place::Unmet(self.phase);
        self.turns.push(Turn { name, place })
    }

    /// Takes more lines, the first one first.
    fn steps(&mut self, alloc: Global, lines: &[SafeLine]) -> Result<(), AllocError>
        ensures { OnOk result (self.new ≡ turns_from self.old (map line_of lines.now)) }
    {
        let mut rest = lines;
        'lines: loop {
            let [line, more @ ..] = rest else {
                return Ok(());
            };
            self.step(alloc, line)?;
            rest = more;
        }
    }
}

/// The turns of a start, each found by its name without a scan.
#[derive(Drop)]
pub(crate) struct Turns {
    turns: Row<Turn>,
    names: NamePlaces,
}

impl Model for Turns {
    ghost use Rattle.std.specs.Prelude.{◌≡◌, List};
    ghost use Rattle.service_list.specs.declared.turns.Turn.{Turn as Told};
    ghost use Rattle.service_list.specs.Turns.{turn_names};

    ghost Value = { List Told };

    ghost view = { λ a. a.turns };

    ghost invariant = { λ a. a.names ≡ turn_names a.turns };
}

fn turn_names(alloc: Global, turns: &[Turn]) -> Result<Names, AllocError>
    ensures { IfOk result (λ n. n ≡ turn_names turns.now) }
{
    let mut names = Names::new(alloc);
    for turn in turns {
        names.push(turn.name.copy(alloc)?)?;
    }
    Ok(names)
}

/// The turns of these lines.
fn told_from(alloc: Global, lines: &[SafeLine]) -> Result<Telling, AllocError>
    ensures { IfOk result (λ t. t ≡ turns_from no_turns (map line_of lines.now)) }
{
    let mut telling = Telling::new(alloc);
    telling.steps(alloc, lines)?;
    Ok(telling)
}

#[tactic(auto, unfolding(crate::specs::Turns::turns_of))]
fn told_of(alloc: Global, set: &Key) -> Result<Telling, AllocError>
    requires { HoldsKeys set.now }
    ensures { IfOk result (λ t. t.turns ≡ turns_of set.now) }
{
    let lines = safe_start(alloc, set, None)?;
    told_from(alloc, lines.as_slice())
}

impl Turns {
    /// Takes n log n time.
    fn new(alloc: Global, turns: Row<Turn>) -> Result<Turns, AllocError>
        ensures { IfOk result (λ t. t ≡ turns) }
    {
        let names = turn_names(alloc, turns.as_slice())?;
        let names = NamePlaces::new(alloc, names)?;
        Ok(Turns { turns, names })
    }

    /// The turns of the quiet start of a set. Takes n log n time in the services.
    pub(crate) fn of(alloc: Global, set: &Key) -> Result<Turns, AllocError>
        requires { HoldsKeys set.now }
        ensures { IfOk result (λ t. t ≡ turns_of set.now) }
    {
        let telling = told_of(alloc, set)?;
        Turns::new(alloc, telling.turns)
    }

    /// Where a name has its turn, or behind all where it has none.
    pub(crate) fn turn_at(&self, name: &[u16]) -> usize
        ensures { result ≡ turn_at self.now name.now }
    {
        match self.names.place_of(name) {
            Some(at) => at,
            None => self.turns.len(),
        }
    }

    /// The place that stands there.
    pub(crate) fn place_at(&self, at: usize) -> Place
        ensures { result ≡ place_at self.now at }
    {
        match self.turns.get(at) {
            Some(turn) => turn.place,
            None => Place::Untaken,
        }
    }
}
