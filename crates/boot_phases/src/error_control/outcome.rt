//! The judgement of a failure.

ghost use Rattle.std.specs.Prelude.{◌≡◌};
ghost use Rattle.start_model.specs.Judge.{judgement_of};
ghost use Rattle.boot_phases.specs.error_control.Judgement.{judgement_in};

/// What follows from a failed attempt.
#[derive(Clone, Copy, Debug, PartialEq, Eq)]
pub enum Judgement {
    /// The start goes on, and nobody is notified.
    Ignore,
    /// The start goes on, and the failure is logged.
    Log,
    /// The start ends, and the next one takes LastKnownGood.
    FallBack,
    /// The start ends.
    Stop,
}

/// Judges a failure of an entry with this ErrorControl, where a number above 3 is taken for 1.
/// `on_last_known_good`: this start took LastKnownGood. `usable`: LastKnownGood names a set of the live tree.
pub fn judge(control: u32, on_last_known_good: bool, usable: bool) -> Judgement
    ensures { judgement_in result ≡ judgement_of control on_last_known_good usable }
{
    let falls_back = !on_last_known_good && usable;
    match control {
        0 => Judgement::Ignore,
        2 if falls_back => Judgement::FallBack,
        3 if falls_back => Judgement::FallBack,
        3 => Judgement::Stop,
        _ => Judgement::Log,
    }
}
