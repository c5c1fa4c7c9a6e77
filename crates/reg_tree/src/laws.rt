//! What holds of edits.

ghost use Rattle.reg_tree.specs.Fitting.{EditedIsValid};

/// A tree that a hive can hold is one again after steps that fit and are not refused.
pub fn an_edited_tree_is_valid()
    ensures { EditedIsValid }
{}
