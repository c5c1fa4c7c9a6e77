//! What the `ready` line says of the order of attempts.

ghost use Rattle.state_laws.specs.state_laws.Moment.{AttemptsAreExplained};

/// Of each name that was attempted in the last phase that has it, the `ready` line reports a moment of that phase: before it not all needs of the entry were
/// met, and afterwards they were. Each attempt between that moment and its own is of an entry that stands before it in the plan. A hive must be able to hold
/// the sets that the phases read.
pub fn only_those_before_it_are_attempted_while_an_entry_is_ready()
    ensures { AttemptsAreExplained }
{}
