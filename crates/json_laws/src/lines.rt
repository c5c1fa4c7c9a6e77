//! The lines of a start by their objects.

ghost use Rattle.std.specs.Prelude.{◌≡◌, ℕ, List, ◌++◌};
ghost use Rattle.std.specs.List.{flat_map};
ghost use Rattle.report_words.specs.declared.line.Line.{Line};
ghost use Rattle.report_text.specs.line_objects.Objects.{line_json};
ghost use Rattle.json_laws.specs.Lines.{IsStartLine, AreStartLines};
ghost use Rattle.json_laws.specs.Objects.{IsPrintableLine};

/// The object of a line of a start determines the line, and where it ends: two lines with one object are one line, and so have one text.
pub fn an_object_tells_its_line()
    ensures { (a b : Line) (after more : List ℕ) → IsStartLine a → IsStartLine b → line_json a ++ after ≡ line_json b ++ more → (a ≡ b) × (after ≡ more) }
{}

/// The objects of a report tell all its lines.
pub fn objects_tell_their_lines()
    ensures { (ks ls : List Line) → AreStartLines ks → AreStartLines ls → flat_map line_json ks ≡ flat_map line_json ls → ks ≡ ls }
{}

/// The object of a line of a start is one line of printable ASCII.
pub fn a_line_is_printed_in_ascii()
    ensures { (l : Line) → IsStartLine l → IsPrintableLine (line_json l) }
{}
