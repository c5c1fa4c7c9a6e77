//! The lines of `show` by their objects.

ghost use Rattle.std.specs.Prelude.{◌≡◌, ◌+◌, ℕ, List, ◌++◌, length};
ghost use Rattle.hive_model.specs.Tree.{Tree, key_count, item_count};
ghost use Rattle.tree_text.specs.TreeObjects.{TreeLine, line_json, lines_json, key_lines};
ghost use Rattle.json_laws.specs.TreeLines.{IsTreeLine, AreTreeLines};
ghost use Rattle.json_laws.specs.Objects.{IsPrintableLine};

/// The object of a line of `show` determines the line, and where it ends.
pub fn an_object_tells_its_key_or_value()
    ensures { (a b : TreeLine) (after more : List ℕ) → IsTreeLine a → IsTreeLine b → line_json a ++ after ≡ line_json b ++ more
        → (a ≡ b) × (after ≡ more) }
{}

/// The objects of what is shown tell all its lines: two hives with the same objects have the same keys and values, level by level.
pub fn objects_tell_what_is_shown()
    ensures { (ks ls : List TreeLine) → AreTreeLines ks → AreTreeLines ls → lines_json ks ≡ lines_json ls → ks ≡ ls }
{}

/// The object of a line of `show` is one line of printable ASCII.
pub fn a_key_or_value_is_printed_in_ascii()
    ensures { (l : TreeLine) → IsTreeLine l → IsPrintableLine (line_json l) }
{}

/// Each key and each value has an object, as each has a line of the text: there are the same number of both.
pub fn each_key_and_value_is_an_object()
    ensures { (level : ℕ) (t : Tree) → length (key_lines level t) ≡ key_count t + item_count t }
{}
