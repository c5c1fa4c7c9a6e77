//! The laws. Each has its statement in `specs/Turned.antt`.

ghost use Rattle.diff_laws.specs.turned_laws.Turned.{SidesTurn, AllSidesTurn, ExitStays};

/// With the two sets exchanged, the lines about one set alone are those about the other one, with its side for the other. Without all keys and
/// values they are so word by word and in the same order, whatever the hives (`sets`). With them (`all`) they are the same lines, each with its type
/// and data, in some order and but for the case of names in paths, since pairs of keys come in the first set's order and are spelled as it has
/// them. For this each key of the two hives must be one that a hive can hold.
pub fn exchanged_sets_have_their_sides_exchanged()
    ensures sets { SidesTurn }
    ensures all { AllSidesTurn }
{}

/// With the two sets exchanged the exit is the same, with all keys and values and without. Each key of the two hives must be one that a hive can
/// hold.
pub fn exchanged_sets_have_the_same_exit()
    ensures { ExitStays }
{}
