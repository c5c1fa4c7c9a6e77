//! The names without which no start passes its boot phase.

ghost use Rattle.std.specs.Prelude.{◌≡◌, not, filter, IfOk, OnOk, OnErr};
ghost use Rattle.std.specs.List.{list_any};
ghost use Rattle.nt_bytes.specs.Folding.{folds_same};
ghost use Rattle.start_model.specs.Ready.{has_name};
ghost use Rattle.start_model.specs.Machine.{with_vital};

use dependencies::{Started, services_met};
use nt_bytes::{Names, Units, same_folded};
use std::alloc::{AllocError, Global};

/// Puts a name at the end, unless one that folds the same stands there.
pub(crate) fn require(vital: &mut Names, name: Units) -> Result<(), AllocError>
    ensures ok { OnOk result (vital.new ≡ with_vital vital.old name) }
    ensures kept { OnErr result (vital.new ≡ vital.old) }
{
    if stands_among(vital.as_slice(), name.as_slice()) {
        return Ok(());
    }
    vital.push(name)
}

/// Whether a name that folds the same is there.
fn stands_among(names: &[Units], name: &[u16]) -> bool
    ensures { result ≡ list_any (folds_same name.now) names.now }
{
    names.iter().any(|n| same_folded(name, n.as_slice()))
}

/// The vital names that no started entry has, in their order.
pub(crate) fn missing(
    alloc: Global,
    vital: &[Units],
    started: &Started,
) -> Result<Names, AllocError>
    ensures { IfOk result (λ names. names ≡ filter (λ name. not (has_name started.now name)) vital.now) }
{
    let mut names = Names::new(alloc);
    for name in vital {
        if is_missing(name, started) {
            names.push(name.copy(alloc)?)?;
        }
    }
    Ok(names)
}

/// Whether no started entry has the name.
fn is_missing(name: &Units, started: &Started) -> bool
    ensures { result ≡ not (has_name started.now name.now) }
{
    !services_met(std::slice::from_ref(name), started)
}
