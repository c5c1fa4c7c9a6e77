//! At which stage an entry is started.

ghost use Rattle.std.specs.Prelude.{◌≡◌, ◌<◌, ◌||◌, map, IfOk};
ghost use Rattle.hive_model.specs.Valid.{HoldsKeys};
ghost use Rattle.start_model.specs.Entries.{Boot, System, Automatic, is_driver, is_service};
ghost use Rattle.boot_phases.specs.boot_phases.Phases.{phase_in};
ghost use Rattle.service_check.specs.Stages.{names_taken, takes, taken_names, stage_in, stage_rank, is_taken, is_upto};

use crate::names::has_name;
use boot_phases::boot_phases::{Phase, plan};
use boot_phases::service_entries::Entry;
use nt_bytes::Names;
use nt_names::name_places::NamePlaces;
use reg_tree::Key;
use std::alloc::{AllocError, Global};
use std::marker::Model;

/// When an entry is started: in the phase that takes it, or on demand.
#[derive(Clone, Copy)]
pub enum Stage {
    Boot,
    System,
    Automatic,
    Demand,
}

/// An entry with its stage, where it has one.
#[derive(Drop)]
pub struct Staged {
    pub entry: Entry,
    pub stage: Option<Stage>,
}

/// The names of what the phases take of a set, each found without a scan.
#[derive(Drop)]
pub(crate) struct TakenNames {
    boot: NamePlaces,
    system: NamePlaces,
    automatic: NamePlaces,
}

impl Model for TakenNames {
    ghost use Rattle.service_check.specs.Stages.{Taken};

    ghost Value = { Taken };

    ghost view = { λ a. record { boot = a.boot; system = a.system; automatic = a.automatic } };
}

impl TakenNames {
    /// Those of a set.
    pub(crate) fn of(alloc: Global, set: &Key) -> Result<TakenNames, AllocError>
        requires { HoldsKeys set.now }
        ensures { IfOk result (λ t. t ≡ taken_names set.now) }
    {
        Ok(TakenNames {
            boot: names_taken(alloc, set, Phase::Boot)?,
            system: names_taken(alloc, set, Phase::System)?,
            automatic: names_taken(alloc, set, Phase::Automatic)?,
        })
    }

    /// The stage of an entry.
    pub(crate) fn stage(&self, entry: &Entry) -> Option<Stage>
        ensures { result ≡ stage_in self.now entry.now }
    {
        if takes(&self.boot, entry) {
            Some(Stage::Boot)
        } else if takes(&self.system, entry) {
            Some(Stage::System)
        } else if takes(&self.automatic, entry) {
            Some(Stage::Automatic)
        } else if entry.start == 3 && is_run(entry) {
            Some(Stage::Demand)
        } else {
            None
        }
    }
}

fn names_taken(alloc: Global, set: &Key, phase: Phase) -> Result<NamePlaces, AllocError>
    requires { HoldsKeys set.now }
    ensures { IfOk result (λ n. n ≡ names_taken set.now (phase_in phase)) }
{
    let entries = plan(alloc, set, phase, &[])?;
    let names = names_of(alloc, entries.as_slice())?;
    NamePlaces::new(alloc, names)
}

/// The names of the entries.
fn names_of(alloc: Global, entries: &[Entry]) -> Result<Names, AllocError>
    ensures { IfOk result (λ n. n ≡ map (λ e. e.name) entries.now) }
{
    let mut names = Names::new(alloc);
    for entry in entries {
        names.push(entry.name.copy(alloc)?)?;
    }
    Ok(names)
}

fn takes(names: &NamePlaces, entry: &Entry) -> bool
    ensures { result ≡ takes names.now entry.now }
{
    has_name(names, &entry.name)
}

/// Whether the entry is a driver or a service.
fn is_run(entry: &Entry) -> bool
    ensures { result ≡ (is_driver entry.now.kind || is_service entry.now.kind) }
{
    is_driver(entry.kind) || is_service(entry.kind)
}

/// Whether this Type is that of a driver.
pub(crate) fn is_driver(kind: u32) -> bool
    ensures { result ≡ is_driver kind }
{
    kind & 0x0b != 0
}

/// Whether this Type is that of a service.
pub(crate) fn is_service(kind: u32) -> bool
    ensures { result ≡ is_service kind }
{
    kind & 0x30 != 0 && kind & 0x0b == 0
}

impl Stage {
    /// What comes earlier is less.
    pub(crate) fn rank(self) -> u8
        ensures rank { result ≡ stage_rank self }
        ensures small { result < 4 }
    {
        match self {
            Stage::Boot => 0,
            Stage::System => 1,
            Stage::Automatic => 2,
            Stage::Demand => 3,
        }
    }
}

/// Whether a phase takes what has this stage.
pub(crate) fn is_taken(stage: Option<Stage>) -> bool
    ensures { result ≡ is_taken stage }
{
    match stage {
        Some(Stage::Boot | Stage::System | Stage::Automatic) => true,
        Some(Stage::Demand) | None => false,
    }
}

/// Whether a phase takes what has this stage, and none after `last`.
pub(crate) fn is_upto(last: Stage, stage: Option<Stage>) -> bool
    ensures { result ≡ is_upto last stage }
{
    match stage {
        Some(own) => is_taken(stage) && own.rank() <= last.rank(),
        None => false,
    }
}
