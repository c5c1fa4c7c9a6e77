//! What the numbers of nodes say.

ghost use Rattle.graph_laws.specs.graph_laws.Attempts.{NumberIsAttempt, AttemptHasNumber};

/// A node with the number N is of an entry, whose first `try` line in the last start of the run's report is the N-th, and its state is as that line says:
/// started, or failed (`attempt`). The node of an entry that started or failed has a number (`number`). It is so whether a name is asked for or not.
pub fn numbers_are_of_attempts()
    ensures attempt { NumberIsAttempt }
    ensures number { AttemptHasNumber }
{}
