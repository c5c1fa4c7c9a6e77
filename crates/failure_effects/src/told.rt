//! What a start says of the entries that it takes.

ghost use Rattle.std.specs.Prelude.{◌≡◌, IfOk};
ghost use Rattle.boot_machine.specs.boot_machine.Views.{tried_in};
ghost use Rattle.failure_effects.specs.Played.{told_of, is_started, is_unmet, started_in, unmet_in, failure_in, failed_by};

use boot_machine::boot_machine::Tried;
use boot_phases::error_control::Judgement;
use nt_bytes::{Names, Row, Units};
use std::alloc::{AllocError, Global};

/// What a start made of an entry that it took.
#[derive(Clone, Copy, Debug, PartialEq, Eq)]
pub enum Fate {
    /// It was attempted, and started.
    Started,
    /// It was attempted, and failed.
    Failed(Judgement),
    /// It was never ready.
    Unmet,
}

/// An entry, by its name, and what a start made of it.
#[derive(Drop)]
pub struct Told {
    pub name: Units,
    pub fate: Fate,
}

/// What a start says, in order.
pub type ToldRow = Row<Told>;

/// What is reported of an attempt.
#[tactic(auto, using(crate::proofs::PlayLemmas::judgement_again))]
pub(crate) fn told_of(tried: Tried) -> Told
    ensures { result ≡ told_of (tried_in tried) }
{
    Told {
        name: tried.name,
        fate: if tried.ok {
            Fate::Started
        } else {
            Fate::Failed(tried.judgement)
        },
    }
}

/// Whether it was started.
pub(crate) fn is_started(fate: Fate) -> bool
    ensures { result ≡ is_started fate }
{
    match fate {
        Fate::Started => true,
        Fate::Failed(_) | Fate::Unmet => false,
    }
}

fn is_unmet(fate: Fate) -> bool
    ensures { result ≡ is_unmet fate }
{
    match fate {
        Fate::Unmet => true,
        Fate::Failed(_) | Fate::Started => false,
    }
}

/// The names of the entries that were started, in order.
pub(crate) fn started_in(alloc: Global, told: &[Told]) -> Result<Names, AllocError>
    ensures { IfOk result (λ names. names ≡ started_in told.now) }
{
    let mut names = Names::new(alloc);
    for one in told {
        if is_started(one.fate) {
            names.push(one.name.copy(alloc)?)?;
        }
    }
    Ok(names)
}

/// The names of the entries that were never ready, in order.
pub(crate) fn unmet_in(alloc: Global, told: &[Told]) -> Result<Names, AllocError>
    ensures { IfOk result (λ names. names ≡ unmet_in told.now) }
{
    let mut names = Names::new(alloc);
    for one in told {
        if is_unmet(one.fate) {
            names.push(one.name.copy(alloc)?)?;
        }
    }
    Ok(names)
}

/// What follows from the first failure, if one is reported.
pub(crate) fn failure_in(told: &[Told]) -> Option<Judgement>
    ensures { result ≡ failure_in told.now }
{
    let mut rest = told;
    'told: loop {
        let [one, more @ ..] = rest else {
            return None;
        };
        match failed_by(one.fate) {
            Some(judgement) => return Some(judgement),
            None => rest = more,
        }
    }
}

fn failed_by(fate: Fate) -> Option<Judgement>
    ensures { result ≡ failed_by fate }
{
    match fate {
        Fate::Failed(judgement) => Some(judgement),
        Fate::Started | Fate::Unmet => None,
    }
}
