//! Reports by their objects.

ghost use Rattle.std.specs.Prelude.{◌≡◌, ℕ, List};
ghost use Rattle.std.specs.List.{AllByRecursion};
ghost use Rattle.report_text.specs.declared.line_text.form.ReportForm.{ReportForm};
ghost use Rattle.report_text.specs.declared.line_text.form.ReportForm.TheVariants as forms;
ghost use Rattle.json_laws.specs.Objects.{IsPrintableLine};
ghost use Rattle.json_laws.specs.Reports.{Said, Reader, IsReport, HaveValues, printed};

/// Two reports that one reader reads and that have the same objects have the same text, byte for byte.
pub fn the_objects_of_a_report_tell_its_text()
    ensures { (reader : Reader) (a b : ReportForm → List ℕ) (ks ls : List Said) → IsReport reader a ks → IsReport reader b ls
        → HaveValues ks → HaveValues ls → a forms.Json ≡ b forms.Json → a forms.Text ≡ b forms.Text }
{}

/// Each line of such a report is one object, a line of printable ASCII.
pub fn each_line_of_a_report_is_an_object()
    ensures { (reader : Reader) (report : ReportForm → List ℕ) (lines : List Said) → IsReport reader report lines → HaveValues lines
        → AllByRecursion (λ (s : Said). IsPrintableLine (printed forms.Json s)) lines }
{}
