//! What is printed of a part of a tree.

ghost use Rattle.std.specs.Prelude.{◌≡◌, ◌+◌, ℕ, Bool, List, Some};
ghost use Rattle.hive_model.specs.Tree.{Tree};
ghost use Rattle.key_command.specs.hive_levels.Cut.{along, cut};
ghost use Rattle.key_text.specs.Blocks.{key_lines};
ghost use Rattle.key_text.specs.Found.{lines_of, true_path};

/// Of a key that is cut one level below the last that is printed the lines are those of the whole key.
pub fn cut_levels_print_alike()
    ensures { (security : Bool) (depth : ℕ) (path : List (List ℕ)) (t : Tree)
        → key_lines security depth path (cut (depth + 1) t) ≡ key_lines security depth path t }
{}

/// Of the keys on the way to a key, by their names alone, and of that key so cut the lines are those of the whole tree.
pub fn the_way_to_a_key_prints_alike()
    ensures { (t : Tree) (path way : List (List ℕ)) (depth : ℕ) (security : Bool) → true_path t path ≡ Some way
        → lines_of (along way (depth + 1) t) way depth security ≡ lines_of t path depth security }
{}
