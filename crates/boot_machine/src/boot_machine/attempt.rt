//! An attempt of an entry.

ghost use Rattle.std.specs.Prelude.{◌≡◌, true, IfOk, OnErr, Some, if◌then◌else◌};
ghost use Rattle.boot_phases.specs.error_control.Judgement.{judgement_in};
ghost use Rattle.start_model.specs.Judge.{Ignore, judgement_of};
ghost use Rattle.start_model.specs.Machine.{MachineState, next_in, attempt_in};
ghost use Rattle.boot_machine.specs.boot_machine.Steps.{is_there};
ghost use Rattle.boot_machine.specs.boot_machine.Views.{tried_in};

use crate::boot_machine::failures::Failures;
use crate::boot_machine::start::Start;
use crate::boot_machine::tried::Tried;
use boot_phases::error_control::{Judgement, judge};
use std::alloc::{AllocError, Global};

/// Attempts the first ready entry. It fails where a failure of its name is to come, which is then taken.
pub(crate) fn attempt(
    alloc: Global,
    start: &mut Start,
    failures: &mut Failures,
    usable: bool,
) -> Result<Tried, AllocError>
    requires { is_there (next_in start.old) ≡ true }
    ensures attempt { IfOk result (λ t. (m : MachineState) → m.failures ≡ failures.old → attempt_in m start.old usable
        ≡ Some (record m { start = Some start.new; failures = failures.new }, tried_in t)) }
    ensures kept { OnErr result (start.new ≡ start.old) }
    ensures failures_kept { OnErr result (failures.new ≡ failures.old) }
{
    let on_good = start.on_good();
    let (entry, ok) = start.attempt_next(alloc, failures)?;
    let judgement = judged(ok, entry.control, on_good, usable);
    Ok(Tried {
        name: entry.name,
        ok,
        judgement,
    })
}

/// What follows from an attempt.
fn judged(ok: bool, control: u32, on_good: bool, usable: bool) -> Judgement
    ensures { judgement_in result ≡ (if ok then Ignore else judgement_of control on_good usable) }
{
    if ok {
        Judgement::Ignore
    } else {
        judge(control, on_good, usable)
    }
}
