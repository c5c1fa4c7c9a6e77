//! What the objects of lines tell.

ghost use Rattle.std.specs.Prelude.{◌≡◌, List};
ghost use Rattle.std.specs.List.{AllByRecursion};
ghost use Rattle.report_text.specs.declared.line_text.form.ReportForm.TheVariants as forms;
ghost use Rattle.json_laws.specs.Objects.{IsPrintableLine};
ghost use Rattle.line_parts.specs.Parts.{Line, printed, printed_lines};
ghost use Rattle.line_laws.specs.Layouts.{Layouts, AreToldBy, HaveValues};

/// Lines whose layouts their objects tell are determined by the objects: their words, keys, values and all.
pub fn objects_tell_the_lines()
    ensures { (layouts : Layouts) (ks ls : List Line) → AreToldBy layouts ks → AreToldBy layouts ls → HaveValues ks → HaveValues ls
        → printed_lines forms.Json ks ≡ printed_lines forms.Json ls → ks ≡ ls }
{}

/// So two reports with the same objects have the same text, byte for byte.
pub fn one_report_in_both_forms()
    ensures { (layouts : Layouts) (ks ls : List Line) → AreToldBy layouts ks → AreToldBy layouts ls → HaveValues ks → HaveValues ls
        → printed_lines forms.Json ks ≡ printed_lines forms.Json ls → printed_lines forms.Text ks ≡ printed_lines forms.Text ls }
{}

/// Each object of such lines is one line of printable ASCII.
pub fn each_object_is_a_printable_line()
    ensures { (layouts : Layouts) (ls : List Line) → AreToldBy layouts ls → HaveValues ls
        → AllByRecursion (λ l. IsPrintableLine (printed forms.Json l)) ls }
{}
