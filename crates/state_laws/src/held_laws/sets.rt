//! The sets of the last start.

ghost use Rattle.state_laws.specs.held_laws.Sets.{ReadSetsAreHeld, LastSetIsHeld, PremiseOfStates, PremiseOfLoaded};

/// Where a hive can hold the tree on which a script is played, it can hold each set that a phase of the last start read (`phases`), and the set that the start
/// took, as the live tree has it in the end (`set`). So the premise of the laws of states, needs and nodes holds of such a tree (`premise`).
pub fn the_sets_of_a_valid_tree_can_be_held()
    ensures phases { ReadSetsAreHeld }
    ensures set { LastSetIsHeld }
    ensures premise { PremiseOfStates }
{}

/// That premise holds of each state that an image of bytes loads as.
pub fn the_sets_of_a_loaded_tree_can_be_held()
    ensures { PremiseOfLoaded }
{}
