//! What the definitions amount to.

ghost use Rattle.std.specs.Prelude.{◌≡◌, ◌<◌, ◌^◌, ℕ, take, Some};
ghost use Rattle.refusal_reason.specs.reason_lines.Texts.{Text};
ghost use Rattle.refusal_reason.specs.reason_lines.Kinds.{PartReason, boot_ini_rows, part_reason, reason_in, reg_rows, script_rows};
ghost use Rattle.refusal_reason.specs.reason_lines.Files.{missing_name};
ghost use Rattle.refusal_reason.specs.reason_lines.Heard.{heard_of, of_boot_ini, of_hive, of_other, of_reg, of_script};
ghost use Rattle.refusal_reason.specs.reason_lines.Printed.{boot_ini_fault, hive_fault, no_file, other_fault, reg_fault, script_fault};

/// The first 128 bytes of a printed fault say which one it is: its text, the reason of its word, and its number; and the line for a file
/// that is absent says its name.
pub fn printed_faults_are_heard()
    ensures hive { (kind : Text) (at : ℕ) (found : PartReason) → at < 2 ^ 32 → part_reason kind ≡ Some found
        → heard_of (take 128 (hive_fault kind at)) ≡ of_hive found.part found.reason at }
    ensures other { (kind : Text) (at : ℕ) (found : PartReason) → at < 2 ^ 32 → part_reason kind ≡ Some found
        → heard_of (take 128 (other_fault kind at)) ≡ of_other found.part found.reason at }
    ensures script { (kind reason : Text) (line : ℕ) → line < 2 ^ 32 → reason_in script_rows kind ≡ Some reason
        → heard_of (take 128 (script_fault kind line)) ≡ of_script reason line }
    ensures reg { (kind reason : Text) (line : ℕ) → line < 2 ^ 32 → reason_in reg_rows kind ≡ Some reason
        → heard_of (take 128 (reg_fault kind line)) ≡ of_reg reason line }
    ensures no_file { (name : Text) → missing_name (no_file name) ≡ Some name }
    ensures boot_ini { (kind reason : Text) → reason_in boot_ini_rows kind ≡ Some reason
        → heard_of (take 128 (boot_ini_fault kind)) ≡ of_boot_ini reason }
{}
