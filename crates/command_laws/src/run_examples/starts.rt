//! The runs, each with what is printed of it.

ghost use Rattle.std.specs.Prelude.{◌≡◌, ◌⊎◌, IfOk};
ghost use Rattle.std.specs.List.{Contains};
ghost use Rattle.command_laws.specs.run_examples.Reports.{plain_report, cut_report, ordered_reports};

use crate::run_examples::calling::{Ran, run};
use ntboot_cli::Status;
use std::alloc::{AllocError, Global};

/// One start up to a good logon, and off: the call ends as done, unless there is no memory; and where it is done, exactly this was
/// printed.
pub fn a_plain_start(alloc: Global) -> Result<Ran, AllocError>
    ensures ended { IfOk result (λ ran. (ran.status ≡ Status.Done) ⊎ (ran.status ≡ Status.Memory)) }
    ensures said { IfOk result (λ ran. ran.status ≡ Status.Done → ran.said ≡ plain_report) }
{
    run(alloc, "boot\ngo\nlogon\noff\n")
}

/// One start whose power is cut while no write is in flight, and another, which finds what the first one committed: exactly this was
/// printed.
pub fn a_start_behind_a_cut(alloc: Global) -> Result<Ran, AllocError>
    ensures ended { IfOk result (λ ran. (ran.status ≡ Status.Done) ⊎ (ran.status ≡ Status.Memory)) }
    ensures said { IfOk result (λ ran. ran.status ≡ Status.Done → ran.said ≡ cut_report) }
{
    run(alloc, "boot\ngo\ncut now none\nboot\ngo\n")
}

/// Two starts, with a cut of the power ordered before them: what was printed is one of seven texts. That the cut comes, and in which
/// operation, is not promised; nor is whether the disk then kept an interrupted change, or needs its log.
pub fn a_cut_that_was_ordered(alloc: Global) -> Result<Ran, AllocError>
    ensures ended { IfOk result (λ ran. (ran.status ≡ Status.Done) ⊎ (ran.status ≡ Status.Memory)) }
    ensures said { IfOk result (λ ran. ran.status ≡ Status.Done → Contains ordered_reports ran.said) }
{
    run(alloc, "cut sync 1 none\nboot\nboot\n")
}
