//! Who leans on a name.

ghost use Rattle.std.specs.Prelude.{◌≡◌, ℕ, true, List, map};
ghost use Rattle.std.specs.List.{Contains, flat_map};
ghost use Rattle.start_model.specs.Entries.{Entry};
ghost use Rattle.failure_effects.specs.declared.told.Told.{Told};
ghost use Rattle.failure_effects.specs.Leans.{first_layer, needs_one, leans_lines};
ghost use Rattle.whatif_laws.specs.Leaning.{name_in, leaning_on, needs_entry, IsOther};

/// The lines of those who lean on a name are those of the entries that do, each in its turn.
pub fn a_line_stands_for_each_that_leans()
    ensures { (plain : List Told) (name : List ℕ) (entries : List Entry)
        → flat_map name_in (leans_lines plain name entries) ≡ map (λ (e : Entry). e.name) (leaning_on name entries) }
{}

/// An entry of the set other than the name leans on it where it needs the name itself, and where it needs an entry that does; so each that
/// reaches the name by needs has a line.
pub fn whoever_needs_one_that_leans_leans()
    ensures itself { (name : List ℕ) (entries : List Entry) (e : Entry) → IsOther name entries e → needs_one (first_layer name entries) e ≡ true
        → Contains (leaning_on name entries) e }
    ensures another { (name : List ℕ) (entries : List Entry) (e : Entry) (m : Entry) → IsOther name entries e → Contains (leaning_on name entries) m
        → needs_entry e m ≡ true → Contains (leaning_on name entries) e }
{}
