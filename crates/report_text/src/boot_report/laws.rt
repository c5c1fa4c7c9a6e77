//! What holds of a report as a whole.

ghost use Rattle.std.specs.Prelude.{◌≡◌, ℕ, ◌==◌, true, not, List, ◌++◌};
ghost use Rattle.std.specs.List.{list_all};
ghost use Rattle.report_words.specs.declared.line.Line.{Line};
ghost use Rattle.start_model.specs.Lines.{text_of};
ghost use Rattle.start_model.specs.Fits.{outcomes_of, outcomes_in};

/// How the operations of the disk ended is read off the text of a report, also where a last line is
/// cut off before its LF.
pub fn a_report_tells_how_the_disk_fared()
    ensures { (lines : List Line) (rest : List ℕ) → list_all (λ c. not (c == 10)) rest ≡ true → outcomes_of (text_of lines ++ rest) ≡ outcomes_in lines }
{}
