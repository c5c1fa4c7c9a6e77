//! How a command ends that answers by what a hive loads as.

ghost use Rattle.std.specs.Prelude.{◌≡◌, ℕ, Err, IsOk, Result};
ghost use Rattle.nt_edge.specs.Host.{HostState};
ghost use Rattle.command_parts.specs.command_parts.Leaves.{AsksBy, AsksUntil, IsBadUsage, stop_in};
ghost use Rattle.command_parts.specs.command_parts.OnHive.{DecidesOnHive, Question, SeeksAnswer, told_answer};
ghost use Rattle.command_parts.specs.command_parts.Refusals.{IsToldAs, LacksAsHost};

use crate::command_parts::refusal::{Obstacle, Refusal, refuse, stopped, tell};
use crate::command_parts::status::Status;
use nt_bytes::Bytes;
use nt_edge::Host;
use std::alloc::Global;

/// A report, and whether it shows that something was found.
#[derive(Debug, Drop)]
pub struct Told {
    pub text: Bytes,
    pub found: bool,
}

impl Told {
    /// A report of all that was asked for.
    pub fn done(text: Bytes) -> Told
        ensures { told_answer result ≡ record { status = Status.Done; text = text } }
    {
        Told { text, found: false }
    }

    /// Its status.
    fn status(&self) -> Status
        ensures { result ≡ (told_answer self.now).status }
    {
        if self.found {
            Status::Found
        } else {
            Status::Done
        }
    }
}

/// Prints a report, or the line of the first obstacle, or nothing where the host or the memory stopped the search.
pub fn answer<H: Host>(alloc: Global, host: &mut H, told: Result<Told, Obstacle>) -> Status
    ensures decides { (wanted : Result Question Refusal) (before : HostState)
        → SeeksAnswer wanted told before (H.state host.old) → DecidesOnHive wanted result before (H.state host.new) }
    ensures asked { (n before : ℕ) → AsksUntil n told before (H.state host.old).gets
        → AsksBy n (stop_in result) before (H.state host.new).gets }
    ensures usage { result ≡ Status.Usage → told ≡ Err (Obstacle.Refused Refusal.Usage) }
    ensures refused { IsBadUsage told → IsToldAs Status.Usage result }
    ensures own { IsOk told → LacksAsHost result (H.state host.old) (H.state host.new) }
{
    match told {
        Ok(told) => tell(host, told.text.as_slice(), told.status()),
        Err(Obstacle::Refused(why)) => refuse(alloc, host, &why),
        Err(Obstacle::Stopped(stop)) => stopped(stop),
    }
}
