//! What the definitions amount to.

ghost use Rattle.std.specs.Prelude.{◌≡◌, ◌↔◌, ◌<◌, ◌^◌, ℕ, Bool, true, false, List, ◌∷◌, None, slice_index};
ghost use Rattle.std.specs.List.{All};
ghost use Rattle.nt_bytes.specs.Folding.{folds_same};
ghost use Rattle.nt_bytes.specs.Front.{IsFront};
ghost use Rattle.nt_bytes.specs.Text.{is_backslash};
ghost use Rattle.hive_model.specs.Tree.{Head, Tree, find_key};
ghost use Rattle.hive_model.specs.Edit.{has_child};
ghost use Rattle.start_model.specs.Sets.{select_numbers_of, set_name, is_usable};
ghost use Rattle.report_text.specs.declared.line_text.form.ReportForm.{ReportForm};
ghost use Rattle.report_text.specs.line_text.Paths.{is_plain, joined_path, written_path};
ghost use Rattle.key_text.specs.Lines.{printed_lines};
ghost use Rattle.key_text.specs.Blocks.{key_lines, block_lines, AreAlike};
ghost use Rattle.key_text.specs.Data.{form_of, data_of};
ghost use Rattle.key_text.specs.Dates.{IsDate, day_of, date_of};
ghost use Rattle.key_text.specs.Found.{current, found_key, no_key_lines, lines_of, spelled};
ghost use Rattle.key_text.specs.Stamps.{stamp_text};
ghost use Rattle.key_text.specs.Words.{path_in};

/// What is printed of a key without those below it is the beginning of what is printed with any depth.
pub fn a_deeper_report_begins_with_the_key()
    ensures { (form : ReportForm) (security : Bool) (depth : ℕ) (path : List (List ℕ)) (t : Tree)
        → IsFront (printed_lines form (key_lines security depth path t)) (printed_lines form (key_lines security 0 path t)) }
{}

/// Where the root has no key `CurrentControlSet` and Default names a set, a path through `CurrentControlSet` and the one through that
/// set's own name are answered alike.
pub fn the_current_set_is_the_default_one()
    ensures { (root : Tree) (name : List ℕ) (rest : List (List ℕ)) (depth : ℕ) (security : Bool) → folds_same current name ≡ true
        → has_child current root ≡ false → is_usable root (select_numbers_of root).default ≡ true
        → lines_of root (name ∷ rest) depth security ≡ lines_of root (set_name (select_numbers_of root).default ∷ rest) depth security }
{}

/// That there is no such key is printed exactly where the path leads to none.
pub fn no_key_is_printed_where_none_is_found()
    ensures { (root : Tree) (path : List (List ℕ)) (depth : ℕ) (security : Bool)
        → (lines_of root path depth security ≡ no_key_lines) ↔ (found_key root path ≡ None) }
{}

/// The form in which data are printed determines the data, whatever their type.
pub fn a_form_determines_its_data()
    ensures { (kind : ℕ) (bytes : List ℕ) → ((i : ℕ) → slice_index bytes i < 256) → data_of (form_of kind bytes) ≡ bytes }
{}

/// The date of a day is one of the calendar, and stands for that day. So no two days have one date.
pub fn a_date_stands_for_its_day()
    ensures { (day : ℕ) → IsDate (date_of day) × (day_of (date_of day) ≡ day) }
{}

/// The path that is printed of a key leads to that key again.
pub fn a_printed_path_finds_its_key()
    ensures { (root : Tree) (path : List (List ℕ)) (t : Tree) → find_key path root ≡ Some t → found_key root (spelled path root) ≡ Some t }
{}

/// A path that is printed without quotes is read back as it was, where no name has a backslash.
pub fn a_plain_path_is_read_back()
    ensures { (first : List ℕ) (rest : List (List ℕ)) → All (λ name. All (λ u. is_backslash u ≡ false) name) (first ∷ rest)
        → is_plain (joined_path (first ∷ rest)) ≡ true → path_in (Some (written_path (first ∷ rest))) ≡ first ∷ rest }
{}

/// Two stamps of 64 bits have one text only where they are equal.
pub fn a_stamp_has_a_text_of_its_own()
    ensures { (a b : ℕ) → a < 2 ^ 64 → b < 2 ^ 64 → stamp_text a ≡ stamp_text b → a ≡ b }
{}

/// The lines of a key with its descriptor determine the key, but for what is below its children.
pub fn the_lines_of_a_key_determine_it()
    ensures { (path way : List (List ℕ)) (h k : Head) (ts us : List Tree)
        → ((i : ℕ) → slice_index h.class i < 256) → ((i : ℕ) → slice_index k.class i < 256)
        → block_lines true path h ts ≡ block_lines true way k us → AreAlike path way h k ts us }
{}
