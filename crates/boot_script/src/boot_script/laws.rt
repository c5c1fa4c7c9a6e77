//! What holds of a script, its lines and their words.

ghost use Rattle.std.specs.Prelude.{◌≡◌, ◌↔◌, ℕ, List, Ok};
ghost use Rattle.boot_script.specs.declared.boot_script.event.Event.{Event};
ghost use Rattle.boot_script.specs.boot_script.Script.{script_of};
ghost use Rattle.boot_script.specs.boot_script.Spelling.{IsLineOf, IsScript};
ghost use Rattle.boot_script.specs.boot_script.Words.{words_of};

/// The words that are found in a line are those of which it is written.
pub fn words_are_those_written()
    ensures { (words : List (List ℕ)) (line : List ℕ) → (words_of line ≡ Ok words) ↔ IsLineOf words line }
{}

/// A text is read as a script exactly where it spells its events: quoted words, leading zeros, spaces,
/// comments and empty lines included.
pub fn a_script_reads_as_what_it_spells()
    ensures reads { (text : List ℕ) (events : List Event) → IsScript text events → script_of text ≡ Ok events }
    ensures spelled { (text : List ℕ) (events : List Event) → script_of text ≡ Ok events → IsScript text events }
{}
