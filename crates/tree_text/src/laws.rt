//! What the definitions amount to.

ghost use Rattle.std.specs.Prelude.{◌≡◌, ◌+◌};
ghost use Rattle.nt_bytes.specs.declared.version.HiveVersion.TheVariants.{V3};
ghost use Rattle.hive_model.specs.Size.{bulk_of};
ghost use Rattle.hive_model.specs.Tree.{Tree, key_count};
ghost use Rattle.tree_text.specs.TreeText.{tree_text, shown_text};
ghost use Rattle.tree_text.specs.LineCount.{line_count};
ghost use Rattle.hive_model.specs.Tree.{item_count};
ghost use Rattle.tree_text.specs.OneDriver.{one_driver, one_driver_text};

/// A system with one driver, byte for byte.
pub fn a_system_with_one_driver_is_shown()
    ensures bulk { bulk_of V3 one_driver ≡ 776 }
    ensures text { shown_text 5 776 one_driver ≡ one_driver_text }
{}

/// The text has a line for each key and each value: no name can make a line of its own.
pub fn each_key_and_value_is_a_line()
    ensures { (t : Tree) → line_count (tree_text t) ≡ key_count t + item_count t }
{}
