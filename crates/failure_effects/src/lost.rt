//! Who is lost in another start.

ghost use Rattle.std.specs.Prelude.{◌≡◌, ◌++◌, IfOk, OnOk};
ghost use Rattle.failure_effects.specs.Lost.{other_of, has_name, is_lost, lost_in, lost_line, lost_lines, goes_on};

use crate::lines::{EffectLine, EffectLines};
use crate::told::{Told, failure_in, is_started, started_in, unmet_in};
use boot_phases::error_control::Judgement;
use nt_bytes::{Names, Units, same_folded};
use nt_names::name_places::NamePlaces;
use std::alloc::{AllocError, Global};

/// What counts of another start. Its names are found without a scan.
#[derive(Drop)]
pub struct Other {
    pub started: NamePlaces,
    pub unmet: NamePlaces,
    /// What follows from its failure.
    pub failure: Option<Judgement>,
}

/// What counts of what a start said. Takes n log n time.
pub(crate) fn other_of(alloc: Global, told: &[Told]) -> Result<Other, AllocError>
    ensures { IfOk result (λ other. other ≡ other_of told.now) }
{
    Ok(Other {
        started: NamePlaces::new(alloc, started_in(alloc, told)?)?,
        unmet: NamePlaces::new(alloc, unmet_in(alloc, told)?)?,
        failure: failure_in(told),
    })
}

pub(crate) fn has_name(names: &NamePlaces, name: &[u16]) -> bool
    ensures { result ≡ has_name names.now name.now }
{
    names.place_of(name).is_some()
}

/// Whether an entry other than this name was started, and isn't in the other start.
fn is_lost(other: &Other, name: &[u16], told: &Told) -> bool
    ensures { result ≡ is_lost other.now name.now told.now }
{
    is_started(told.fate)
        && !same_folded(name, told.name.as_slice())
        && !has_name(&other.started, told.name.as_slice())
}

/// The names of the lost, in the order of the plain start.
pub(crate) fn lost_in(
    alloc: Global,
    plain: &[Told],
    other: &Other,
    name: &[u16],
) -> Result<Names, AllocError>
    ensures { IfOk result (λ names. names ≡ lost_in plain.now other.now name.now) }
{
    let mut names = Names::new(alloc);
    for told in plain {
        if is_lost(other, name, told) {
            names.push(told.name.copy(alloc)?)?;
        }
    }
    Ok(names)
}

/// What is printed of one of the lost.
fn lost_line(alloc: Global, other: &Other, name: &Units) -> Result<EffectLine, AllocError>
    ensures { IfOk result (λ line. line ≡ lost_line other.now name.now) }
{
    if has_name(&other.unmet, name.as_slice()) {
        Ok(EffectLine::Unmet(name.copy(alloc)?))
    } else {
        Ok(EffectLine::Untaken(name.copy(alloc)?))
    }
}

/// Says who is lost.
pub(crate) fn push_lost(
    alloc: Global,
    other: &Other,
    lost: &[Units],
    lines: &mut EffectLines,
) -> Result<(), AllocError>
    ensures { OnOk result (lines.new ≡ lines.old ++ lost_lines other.now lost.now) }
{
    for name in lost {
        lines.push(lost_line(alloc, other, name)?)?;
    }
    Ok(())
}

/// Whether the start goes on after the failure.
pub(crate) fn goes_on(judgement: Judgement) -> bool
    ensures { result ≡ goes_on judgement }
{
    match judgement {
        Judgement::Ignore | Judgement::Log => true,
        Judgement::FallBack | Judgement::Stop => false,
    }
}
