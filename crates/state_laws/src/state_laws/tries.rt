//! What the `try` lines have to do with the states of names.

ghost use Rattle.state_laws.specs.state_laws.Tries.{NamesAreTriedOnce, TriesAreStates};

/// Where a hive can hold the sets that the phases read: no two `try` lines of the last start are of one name (`once`), and the N-th of them is what the state of
/// its name reports: `started N` or `failed N J`, as the attempt went (`state`).
pub fn each_try_line_is_what_a_state_says()
    ensures once { NamesAreTriedOnce }
    ensures state { TriesAreStates }
{}
