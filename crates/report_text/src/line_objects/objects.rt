//! The objects of a start in which nothing fails.

ghost use Rattle.std.specs.Prelude.{◌≡◌, [], ◌∷◌, ◌++◌, false, codes, OnOk};
ghost use Rattle.report_text.specs.line_text.Objects.{Number, Text, fields_text, object_text};
ghost use Rattle.report_words.specs.declared.words.TryWord.TheVariants as tries;
ghost use Rattle.report_words.specs.declared.line.Line.TheVariants as lines;
ghost use Rattle.report_text.specs.line_objects.Objects.{line_json};

use crate::boot_report::{PhaseWord, Verdict, load_text, phase_text, verdict_text};
use crate::line_text::{
    close_object, open_object, push_number_field, push_text_field, push_word_field,
};
use std::alloc::AllocError;

/// Appends an object of one word after that of the line.
pub fn push_word_object(
    out: &mut Vec<u8>,
    line: &[u8],
    name: &[u8],
    word: &[u8],
) -> Result<(), AllocError>
    ensures { OnOk result (out.new.items ≡ out.old.items ++ object_text line.now ((name.now, Text word.now) ∷ [])) }
{
    open_object(out, line)?;
    push_word_field(out, name, word)?;
    close_object(out)
}

fn push_entry_fields(out: &mut Vec<u8>, number: u32, path: &[u8]) -> Result<(), AllocError>
    ensures { OnOk result (out.new.items ≡ out.old.items ++ fields_text ((codes "number", Number number) ∷ (codes "path", Text path.now) ∷ [])) }
{
    push_number_field(out, b"number", u64::from(number))?;
    push_word_field(out, b"path", path)
}

/// Appends the line of an entry of boot.ini.
pub fn push_entry_object(out: &mut Vec<u8>, number: u32, path: &[u8]) -> Result<(), AllocError>
    ensures { OnOk result (out.new.items ≡ out.old.items ++ line_json (lines.Entry number path.now)) }
{
    open_object(out, b"entry")?;
    push_entry_fields(out, number, path)?;
    close_object(out)
}

fn push_load_fields(out: &mut Vec<u8>, sequence: u32, state: &[u8]) -> Result<(), AllocError>
    ensures { OnOk result (out.new.items ≡ out.old.items ++ fields_text ((codes "sequence", Number sequence) ∷ (codes "state", Text state.now) ∷ [])) }
{
    push_number_field(out, b"sequence", u64::from(sequence))?;
    push_word_field(out, b"state", state)
}

fn push_state_object(out: &mut Vec<u8>, sequence: u32, state: &[u8]) -> Result<(), AllocError>
    ensures { OnOk result (out.new.items ≡ out.old.items ++ object_text (codes "load") ((codes "sequence", Number sequence) ∷ (codes "state", Text state.now) ∷ [])) }
{
    open_object(out, b"load")?;
    push_load_fields(out, sequence, state)?;
    close_object(out)
}

/// Appends the line of a load, by the log where the hive had to be recovered.
pub fn push_load_object(out: &mut Vec<u8>, sequence: u32, recovered: bool) -> Result<(), AllocError>
    ensures { OnOk result (out.new.items ≡ out.old.items ++ line_json (lines.Load sequence recovered)) }
{
    push_state_object(out, sequence, load_text(recovered).as_bytes())
}

fn push_set_fields(out: &mut Vec<u8>, number: u32) -> Result<(), AllocError>
    ensures { OnOk result (out.new.items ≡ out.old.items ++ fields_text ((codes "number", Number number) ∷ (codes "by", Text (codes "default")) ∷ [])) }
{
    push_number_field(out, b"number", u64::from(number))?;
    push_word_field(out, b"by", b"default")
}

/// Appends the line of a control set that Default names.
pub fn push_set_object(out: &mut Vec<u8>, number: u32) -> Result<(), AllocError>
    ensures { OnOk result (out.new.items ≡ out.old.items ++ line_json (lines.Set number false)) }
{
    open_object(out, b"set")?;
    push_set_fields(out, number)?;
    close_object(out)
}

/// Appends the line of a phase.
pub fn push_phase_object(out: &mut Vec<u8>, phase: PhaseWord) -> Result<(), AllocError>
    ensures { OnOk result (out.new.items ≡ out.old.items ++ line_json (lines.Phase phase)) }
{
    push_word_object(out, b"phase", b"name", phase_text(phase).as_bytes())
}

fn push_ok_fields(out: &mut Vec<u8>, name: &[u16]) -> Result<(), AllocError>
    ensures { OnOk result (out.new.items ≡ out.old.items ++ fields_text ((codes "name", Text name.now) ∷ (codes "outcome", Text (codes "ok")) ∷ [])) }
{
    push_text_field(out, b"name", name)?;
    push_word_field(out, b"outcome", b"ok")
}

/// Appends the line of an attempt that went well.
pub fn push_ok_object(out: &mut Vec<u8>, name: &[u16]) -> Result<(), AllocError>
    ensures { OnOk result (out.new.items ≡ out.old.items ++ line_json (lines.Try name.now tries.Ok)) }
{
    open_object(out, b"try")?;
    push_ok_fields(out, name)?;
    close_object(out)
}

/// Appends the line of an entry that was never ready.
pub fn push_unmet_object(out: &mut Vec<u8>, name: &[u16]) -> Result<(), AllocError>
    ensures { OnOk result (out.new.items ≡ out.old.items ++ line_json (lines.Unmet name.now)) }
{
    open_object(out, b"unmet")?;
    push_text_field(out, b"name", name)?;
    close_object(out)
}

/// Appends the line of a verdict.
pub fn push_verdict_object(out: &mut Vec<u8>, verdict: Verdict) -> Result<(), AllocError>
    ensures { OnOk result (out.new.items ≡ out.old.items ++ line_json (lines.Verdict verdict)) }
{
    push_word_object(out, b"verdict", b"word", verdict_text(verdict).as_bytes())
}

/// Appends the last line.
pub fn push_end_object(out: &mut Vec<u8>) -> Result<(), AllocError>
    ensures { OnOk result (out.new.items ≡ out.old.items ++ line_json lines.End) }
{
    open_object(out, b"end")?;
    close_object(out)
}
