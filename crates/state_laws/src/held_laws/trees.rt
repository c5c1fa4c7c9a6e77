//! The trees of a run.

ghost use Rattle.state_laws.specs.held_laws.Trees.{LoadedIsValid, LiveStaysValid, SettledStaysValid};

/// The tree that an image of bytes loads as is one that a hive can hold.
pub fn a_loaded_tree_is_valid()
    ensures { LoadedIsValid }
{}

/// On a disk without cuts and faults: where a hive can hold the tree on which a script is played, it can hold the live tree after the script (`live`), and the
/// tree that the disk loads as then (`settled`). The first events of a script are a script too, so this holds after each event.
pub fn a_run_leaves_a_valid_tree()
    ensures live { LiveStaysValid }
    ensures settled { SettledStaysValid }
{}
