//! What the objects of a report tell.

ghost use Rattle.std.specs.Prelude.{◌≡◌, List, map};
ghost use Rattle.report_text.specs.declared.line_text.form.ReportForm.TheVariants as forms;
ghost use Rattle.line_laws.specs.Layouts.{HaveValues};
ghost use Rattle.device_rule.specs.declared.lines.DeviceLine.{DeviceLine};
ghost use Rattle.device_command.specs.Lines.{said_of, printed_lines};

/// Two reports with the same objects have the same text, byte for byte, where their numbers are of 64 bits and their texts of UTF-16 units.
pub fn objects_tell_the_report()
    ensures { (ks ls : List DeviceLine) → HaveValues (map said_of ks) → HaveValues (map said_of ls)
        → printed_lines forms.Json ks ≡ printed_lines forms.Json ls → printed_lines forms.Text ks ≡ printed_lines forms.Text ls }
{}
