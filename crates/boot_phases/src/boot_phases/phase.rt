//! The phases of a start.

ghost use Rattle.std.specs.Prelude.{◌≡◌};
ghost use Rattle.start_model.specs.Order.{tags_count_in};
ghost use Rattle.boot_phases.specs.boot_phases.Phases.{phase_in};

/// The phases of a start, in their order. In the last one nothing is taken.
#[derive(Clone, Copy, Debug, PartialEq, Eq)]
pub enum Phase {
    /// Drivers of Start 0.
    Boot,
    /// Drivers of Start 1.
    System,
    /// Drivers and services of Start 2, and those of Start 3 that they need.
    Automatic,
    /// All phases are over.
    Done,
}

/// Whether tags count in the order of the phase.
pub(crate) fn tags_count(phase: Phase) -> bool
    ensures { result ≡ tags_count_in (phase_in phase) }
{
    match phase {
        Phase::Boot | Phase::System => true,
        Phase::Automatic | Phase::Done => false,
    }
}
