//! The phases of a start: which is next, what is taken or done in them, and the word of each.

ghost use Rattle.std.specs.Prelude.{◌≡◌};
ghost use Rattle.boot_phases.specs.boot_phases.Phases.{phase_in};
ghost use Rattle.report_words.specs.declared.line.Line.TheVariants.{Phase as PhaseLine};
ghost use Rattle.start_model.specs.Machine.{phase_after, is_done, takes_logons};
ghost use Rattle.start_model.specs.Starter.{phase_line};
ghost use Rattle.boot_machine.specs.boot_machine.Steps.{is_last_phase};

use boot_phases::boot_phases::Phase;
use report_text::boot_report::PhaseWord;

/// The phase after a phase.
pub(crate) fn phase_after(phase: Phase) -> Phase
    ensures { phase_in result ≡ phase_after (phase_in phase) }
{
    match phase {
        Phase::Boot => Phase::System,
        Phase::System => Phase::Automatic,
        Phase::Automatic | Phase::Done => Phase::Done,
    }
}

/// Whether all phases are over.
pub(crate) fn is_done(phase: Phase) -> bool
    ensures { result ≡ is_done (phase_in phase) }
{
    match phase {
        Phase::Done => true,
        Phase::Boot | Phase::System | Phase::Automatic => false,
    }
}

/// Whether no entries are taken after the phase.
pub(crate) fn is_last(phase: Phase) -> bool
    ensures { result ≡ is_last_phase (phase_in phase) }
{
    match phase {
        Phase::Automatic | Phase::Done => true,
        Phase::Boot | Phase::System => false,
    }
}

/// Whether a user may log on in the phase.
pub(crate) fn takes_logons(phase: Phase) -> bool
    ensures { result ≡ takes_logons (phase_in phase) }
{
    match phase {
        Phase::Automatic | Phase::Done => true,
        Phase::Boot | Phase::System => false,
    }
}

/// The word of the report for a phase.
pub fn phase_word(phase: Phase) -> PhaseWord
    ensures { PhaseLine result ≡ phase_line (phase_in phase) }
{
    match phase {
        Phase::Boot => PhaseWord::Boot,
        Phase::System => PhaseWord::System,
        Phase::Automatic => PhaseWord::Automatic,
        Phase::Done => PhaseWord::Done,
    }
}
