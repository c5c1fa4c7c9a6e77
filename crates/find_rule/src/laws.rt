//! What the definitions amount to.

ghost use Rattle.std.specs.Prelude.{◌≡◌, ◌↔◌, ◌≤◌, ◌+◌, ◌*◌, ℕ, Bool, true, false, List, ◌∷◌, [], ◌++◌, length, map, filter, Option, Some, None, not, Contains, codes};
ghost use Rattle.std.specs.List.{flat_map};
ghost use Rattle.nt_bytes.specs.Folding.{folds_same};
ghost use Rattle.hive_model.specs.Tree.{Item, Tree, head, children, find_key, key_count, item_count};
ghost use Rattle.hive_model.specs.Valid.{HoldsKeys, levels};
ghost use Rattle.report_text.specs.declared.line_text.form.ReportForm.{ReportForm};
ghost use Rattle.report_text.specs.declared.line_text.form.ReportForm.TheVariants as forms;
ghost use Rattle.report_text.specs.line_text.Objects.{Texts, object_text};
ghost use Rattle.report_text.specs.line_text.Paths.{joined_path, is_plain, written_path};
ghost use Rattle.line_laws.specs.Layouts.{HaveValues};
ghost use Rattle.line_parts.specs.Parts.{printed, printed_lines};
ghost use Rattle.key_text.specs.Blocks.{title_line, key_lines};
ghost use Rattle.key_text.specs.Found.{found_key, spelled};
ghost use Rattle.key_text.specs.Lines.{value_fields, printed as printed_by_key};
ghost use Rattle.key_text.specs.Words.{path_in};
ghost use Rattle.find_rule.specs.declared.wanted.Wanted.{Wanted};
ghost use Rattle.find_rule.specs.Matching.{HasWithin, stands};
ghost use Rattle.find_rule.specs.Hits.{Hit, KeyName, ValueName, Data, is_hit, hits, hits_at, hits_of, places, values_places};
ghost use Rattle.find_rule.specs.Lines.{hit_line, report_lines};
ghost use Rattle.find_rule.specs.Places.{IsKeyAt, StandsIn};
ghost use Rattle.find_rule.specs.Narrower.{is_name, in_names_alone, in_data_alone, exactly, loosely};
ghost use Rattle.find_rule.specs.AsKey.{has_key_line, key_line_of, says_place};
ghost use Rattle.find_rule.specs.Cases.{AreSameNames, with_text};

/// Something occurs in something else where that is it with something before and after, which may be nothing; and exactly where it is it.
pub fn what_stands_there_is_a_part()
    ensures part { (part whole : List ℕ) → (stands false part whole ≡ true) ↔ HasWithin part whole }
    ensures whole { (part whole : List ℕ) → (stands true part whole ≡ true) ↔ (part ≡ whole) }
{}

/// A hit is printed exactly where there is such a place in the part, and it is hit.
pub fn each_hit_is_told_and_nothing_else()
    ensures { (w : Wanted) (path : List (List ℕ)) (t : Tree) (h : Hit)
        → Contains (hits w path t) h ↔ (Contains (places path t) h × (is_hit w h ≡ true)) }
{}

/// The places of a part are the names and the values of all its keys, at any depth: a path from there that leads to a key has the places of
/// that key. There is one for the name of each key, and two for each value, so that none is there twice.
pub fn nothing_in_the_part_is_left_out()
    ensures keys { (way path : List (List ℕ)) (t c : Tree) → find_key way t ≡ Some c
        → Contains (places path t) (KeyName (path ++ spelled way t) (head c).name) }
    ensures values { (way path : List (List ℕ)) (t c : Tree) (v : Item) → find_key way t ≡ Some c → Contains (head c).values v
        → Contains (places path t) (ValueName (path ++ spelled way t) v.name) × Contains (places path t) (Data (path ++ spelled way t) v) }
    ensures once { (path : List (List ℕ)) (t : Tree) → length (places path t) ≡ key_count t + 2 * item_count t }
{}

/// A hit is where its line says: at its path there is a key of that name, or with such a value.
pub fn each_hit_is_where_its_line_says()
    ensures { (w : Wanted) (path : List (List ℕ)) (root t : Tree) (h : Hit) → HoldsKeys root → find_key path root ≡ Some t
        → Contains (hits w (spelled path root) t) h → StandsIn root h }
{}

/// A path that is printed without quotes, given as a word, means the same key again.
pub fn a_path_without_quotes_is_found_again()
    ensures { (root c : Tree) (path : List (List ℕ)) → IsKeyAt root path c → is_plain (joined_path path) ≡ true
        → found_key root (path_in (Some (written_path path))) ≡ Some c }
{}

/// Of a text alone the hits in names and those in data are all hits, parted.
pub fn names_and_data_part_the_hits()
    ensures names { (w : Wanted) (path : List (List ℕ)) (t : Tree) → w.names ≡ true → w.strings ≡ true → w.bytes ≡ None
        → filter is_name (hits w path t) ≡ hits (in_names_alone w) path t }
    ensures strings { (w : Wanted) (path : List (List ℕ)) (t : Tree) → w.names ≡ true → w.strings ≡ true → w.bytes ≡ None
        → filter (λ h. not (is_name h)) (hits w path t) ≡ hits (in_data_alone w) path t }
{}

/// What is hit exactly is among what is hit otherwise.
pub fn exact_hits_are_among_the_others()
    ensures { (w : Wanted) (path : List (List ℕ)) (t : Tree)
        → hits (exactly w) path t ≡ filter (is_hit (exactly w)) (hits (loosely w) path t) }
{}

/// The hits of a key are those of its own name and values, and then those of each child in order: of a child of the root they are those of
/// its name as the path.
pub fn the_hits_of_a_key_are_its_own_and_its_childrens()
    ensures child { (w : Wanted) (root c : Tree) → HoldsKeys root → Contains (children root) c
        → hits_at w root ((head c).name ∷ []) ≡ Some (hits w ((head c).name ∷ []) c) }
    ensures parted { (w : Wanted) (path : List (List ℕ)) (t : Tree)
        → hits w path t ≡ hits_of w (KeyName path (head t).name ∷ values_places path (head t).values)
        ++ flat_map (λ c. hits w (path ++ (head c).name ∷ []) c) (children t) }
{}

/// A text with letters of another case is found at the same places, and a path with such letters means the same part.
pub fn letters_of_either_case_are_one()
    ensures text { (w : Wanted) (text other : List ℕ) (path : List (List ℕ)) (t : Tree) → folds_same text other ≡ true
        → hits (with_text w text) path t ≡ hits (with_text w other) path t }
    ensures path { (w : Wanted) (root : Tree) (path other : List (List ℕ)) → AreSameNames path other → hits_at w root path ≡ hits_at w root other }
{}

/// The names of keys and the data in a part, as `key` prints them to that depth, are its lines of keys and values, in its order.
pub fn places_stand_in_the_order_of_key()
    ensures { (security : Bool) (depth : ℕ) (path : List (List ℕ)) (t : Tree) → levels t ≤ depth + 1
        → map key_line_of (filter has_key_line (places path t)) ≡ filter says_place (key_lines security depth path t) }
{}

/// The line of a key's name is that of `key`; the object of data has the fields of a value there, and the path after them.
pub fn lines_are_those_of_key()
    ensures names { (form : ReportForm) (path : List (List ℕ)) (name : List ℕ)
        → printed form (hit_line (KeyName path name)) ≡ printed_by_key form (title_line path name) }
    ensures fields { (path : List (List ℕ)) (v : Item)
        → printed forms.Json (hit_line (Data path v)) ≡ object_text (codes "data") (value_fields v ++ (codes "path", Texts path) ∷ []) }
{}

/// Two reports with the same objects have the same text, byte for byte, where their numbers are of 64 bits and their texts of UTF-16 units.
pub fn objects_tell_the_report()
    ensures { (found other : Option (List Hit)) → HaveValues (report_lines found) → HaveValues (report_lines other)
        → printed_lines forms.Json (report_lines found) ≡ printed_lines forms.Json (report_lines other)
        → printed_lines forms.Text (report_lines found) ≡ printed_lines forms.Text (report_lines other) }
{}
