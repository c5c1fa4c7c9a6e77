//! What a text determines.

ghost use Rattle.std.specs.Prelude.{◌≡◌, ◌<◌, ◌≤◌, ◌+◌, ℕ, Bool, true, false, List, Some, option_map};
ghost use Rattle.hive_model.specs.Tree.{Tree};
ghost use Rattle.hive_model.specs.Valid.{levels};
ghost use Rattle.report_text.specs.declared.line_text.form.ReportForm.{ReportForm};
ghost use Rattle.key_text.specs.Found.{lines_of};
ghost use Rattle.key_text.specs.Lines.{KeyLine, printed_lines};
ghost use Rattle.report_laws.specs.key_laws.Lines.{FitLines};
ghost use Rattle.report_laws.specs.key_laws.Shown.{Place, place_of, shown_of, bare_at};
ghost use Rattle.report_laws.specs.key_laws.Trees.{IsHeld};

/// A text determines its lines: two sequences of lines that fit the fields of a hive have one text only where they are equal.
pub fn a_text_determines_its_lines()
    ensures { (form : ReportForm) (a b : List KeyLine) → FitLines a → FitLines b → printed_lines form a ≡ printed_lines form b → a ≡ b }
{}

/// The lines of a tree that a hive can hold fit the fields of a hive.
pub fn the_lines_of_a_key_fit()
    ensures { (root : Tree) (path : List (List ℕ)) (depth : ℕ) (security : Bool) → IsHeld root → FitLines (lines_of root path depth security) }
{}

/// A text determines all that it shows: whether there is such a key, its path as it is spelled, and of it and of each level to the
/// depth the name, stamp, flags, class, values and, where they are asked for, descriptors; and of the next level the names in order.
pub fn a_text_determines_what_it_shows()
    ensures { (form : ReportForm) (root other : Tree) (path way : List (List ℕ)) (depth : ℕ) (security : Bool) → IsHeld root → IsHeld other
        → printed_lines form (lines_of root path depth security) ≡ printed_lines form (lines_of other way depth security)
        → shown_of root path depth security ≡ shown_of other way depth security }
{}

/// A depth past the last level below a key adds nothing to its lines.
pub fn a_depth_past_the_last_level_adds_nothing()
    ensures { (root : Tree) (path : List (List ℕ)) (depth deep : ℕ) (security : Bool) (place : Place) → place_of root path ≡ Some place
        → levels place.found ≤ depth + 1 → depth ≤ deep → lines_of root path deep security ≡ lines_of root path depth security }
{}

/// With descriptors and a depth of at least the levels below a key, a text determines the key whole: where another text with
/// descriptors, of any depth, is the same, its path leads to a key that is equal throughout, spelled the same.
pub fn a_text_determines_its_key()
    ensures { (form : ReportForm) (root other : Tree) (path way : List (List ℕ)) (depth deep : ℕ) (place : Place) → IsHeld root → IsHeld other
        → place_of root path ≡ Some place → levels place.found ≤ depth + 1
        → printed_lines form (lines_of root path depth true) ≡ printed_lines form (lines_of other way deep true)
        → place_of other way ≡ Some place }
{}

/// Without descriptors a text of at least the levels below a key determines, in the same way, all of the key but them.
pub fn a_text_without_descriptors_determines_the_rest()
    ensures { (form : ReportForm) (root other : Tree) (path way : List (List ℕ)) (depth deep : ℕ) (place : Place) → IsHeld root → IsHeld other
        → place_of root path ≡ Some place → levels place.found ≤ depth + 1
        → printed_lines form (lines_of root path depth false) ≡ printed_lines form (lines_of other way deep false)
        → option_map bare_at (place_of other way) ≡ Some (bare_at place) }
{}

/// Texts of different depths are equal only where neither cuts a key off: the lesser depth is at least the levels below the key.
pub fn texts_of_different_depths_show_all()
    ensures { (form : ReportForm) (root other : Tree) (path way : List (List ℕ)) (depth deep : ℕ) (security : Bool) (place : Place)
        → IsHeld root → IsHeld other → place_of root path ≡ Some place → depth < deep
        → printed_lines form (lines_of root path depth security) ≡ printed_lines form (lines_of other way deep security)
        → levels place.found ≤ depth + 1 }
{}
