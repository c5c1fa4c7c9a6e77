//! What the definitions amount to.

ghost use Rattle.std.specs.Prelude.{◌≡◌, ◌<◌, ◌^◌, codes, false, is_some, List, take, true};
ghost use Rattle.nt_bytes.specs.declared.fault.HiveFault.{HiveFault};
ghost use Rattle.nt_edge.specs.Host.{Files, HostState};
ghost use Rattle.boot_script.specs.declared.boot_script.stop.ScriptFault.{ScriptFault};
ghost use Rattle.command_parts.specs.command_parts.Refusals.{refusal_text};
ghost use Rattle.command_parts.specs.declared.command_parts.refusal.Refusal.TheVariants as refusals;
ghost use Rattle.refusal_reason.specs.reason_lines.Texts.{Text};
ghost use Rattle.command_parts.specs.declared.command_parts.status.Status.{Status};
ghost use Rattle.refusal_reason.specs.reason_lines.Files.{option_for, place_of};
ghost use Rattle.refusal_reason.specs.reason_lines.Lines.{absent_for, memory_line};
ghost use Rattle.refusal_reason.specs.reason_lines.Heard.{heard_of, of_boot_ini, of_script};
ghost use Rattle.refusal_reason.specs.declared.refusal_reason.notes.Notes.{Notes};
ghost use Rattle.refusal_reason.specs.refusal_reason.Laws.{SaysHive, SaysScript, absent_line_of, is_fault, is_refusal, refusal_line};
ghost use Rattle.refusal_reason.specs.refusal_reason.Notes.{IsNoted};
ghost use Rattle.refusal_reason.specs.refusal_reason.Reasons.{line_on};

/// The line on a refusal is one of the command line, of what was printed and of the files. Where not all could be said, or there was no memory to
/// note it, the line says that memory was lacking.
pub fn a_refusal_is_explained_by_words_and_files()
    ensures known { (words : List Text) (state : HostState) (notes : Notes) (status : Status) → IsNoted words state notes → state.tells ≡ true
        → is_refusal status ≡ true → notes.whole ≡ true → line_on words status notes state.files ≡ refusal_line words status state.said state.files }
    ensures lost { (words : List Text) (files : Files) (notes : Notes) (status : Status) → is_fault status ≡ true → notes.whole ≡ false
        → line_on words status notes files ≡ memory_line }
{}

/// Where the refusal for an absent file was printed, that line has its name, and the first option that names it.
pub fn an_absent_file_is_named()
    ensures { (words : List Text) (name : Text) → is_some (place_of words name) ≡ true
        → absent_line_of words (refusal_text (refusals.NoFile name)) ≡ absent_for (option_for words name) name }
{}

/// Each refusal for a fault says it, in its first 128 bytes: no fault is without a reason.
pub fn a_refusal_says_its_fault()
    ensures script { (fault : ScriptFault) → fault.line < 2 ^ 32 → SaysScript (refusal_text (refusals.ScriptFault fault)) fault }
    ensures no_sweep { heard_of (take 128 (refusal_text refusals.NoSweep)) ≡ of_script (codes "no line sweep with an event after it") 0 }
    ensures too_long { heard_of (take 128 (refusal_text refusals.IniTooLong)) ≡ of_boot_ini (codes "longer than 65536 bytes") }
    ensures too_many { heard_of (take 128 (refusal_text refusals.IniTooManyEntries)) ≡ of_boot_ini (codes "more than 64 entries") }
    ensures hive { (fault : HiveFault) → fault.at < 2 ^ 32 → SaysHive (refusal_text (refusals.HiveFault fault)) fault }
{}
