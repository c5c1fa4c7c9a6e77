//! The text of a line.

ghost use Rattle.std.specs.Prelude.{◌≡◌, ◌==◌, ◌<◌, if◌then◌else◌, ◌++◌, [], length, map, take, codes, OnOk};
ghost use Rattle.std.specs.List.{flat_map, join_by};
ghost use Rattle.std.specs.Fmt.{decimal};
ghost use Rattle.hex.specs.Hex.{encode_lower};
ghost use Rattle.start_model.specs.Lines.{name_text, path_text};
ghost use Rattle.report_text.specs.line_text.Quoted.{quoted, quoted_list};
ghost use Rattle.report_text.specs.line_text.Paths.{written, written_path};
ghost use Rattle.line_parts.specs.Parts.{after_space, after_space_if_some, cut_digits, cut_after_space, hex_digits, record_head, part_text};
ghost use Rattle.line_parts.specs.Views.{seen, all_seen};

use crate::part::Part;
use nt_bytes::Units;
use report_text::boot_report::push_name;
use report_text::line_text::{
    push_hex, push_number, push_numbers, push_path, push_quoted, push_quoted_texts, push_written,
};
use std::alloc::{AllocError, Global};

fn say_word(out: &mut Vec<u8>, word: &[u8]) -> Result<(), AllocError>
    ensures { OnOk result (out.new.items ≡ out.old.items ++ after_space word.now) }
{
    out.push(b' ')?;
    out.extend_from_slice(word)
}

fn say_number(out: &mut Vec<u8>, number: u64) -> Result<(), AllocError>
    ensures { OnOk result (out.new.items ≡ out.old.items ++ after_space (decimal number)) }
{
    out.push(b' ')?;
    push_number(out, number)
}

fn say_name(out: &mut Vec<u8>, name: &[u16]) -> Result<(), AllocError>
    ensures { OnOk result (out.new.items ≡ out.old.items ++ after_space (name_text name.now)) }
{
    out.push(b' ')?;
    push_name(out, name)
}

fn say_quoted(out: &mut Vec<u8>, text: &[u16]) -> Result<(), AllocError>
    ensures { OnOk result (out.new.items ≡ out.old.items ++ after_space (quoted text.now)) }
{
    out.push(b' ')?;
    push_quoted(out, text)
}

fn say_written(out: &mut Vec<u8>, text: &[u16]) -> Result<(), AllocError>
    ensures { OnOk result (out.new.items ≡ out.old.items ++ after_space (written text.now)) }
{
    out.push(b' ')?;
    push_written(out, text)
}

fn say_path(alloc: Global, out: &mut Vec<u8>, path: &[Units]) -> Result<(), AllocError>
    ensures { OnOk result (out.new.items ≡ out.old.items ++ after_space (written_path path.now)) }
{
    out.push(b' ')?;
    push_path(alloc, out, path)
}

// As `report_text` has it for itself.
fn push_boot_path(out: &mut Vec<u8>, path: &[u8]) -> Result<(), AllocError>
    ensures { OnOk result (out.new.items ≡ out.old.items ++ path_text path.now) }
{
    for c in path {
        out.push(if (0x20..=0x7e).contains(c) { *c } else { b'?' })?;
    }
    Ok(())
}

fn say_boot_path(out: &mut Vec<u8>, path: &[u8]) -> Result<(), AllocError>
    ensures { OnOk result (out.new.items ≡ out.old.items ++ after_space (path_text path.now)) }
{
    out.push(b' ')?;
    push_boot_path(out, path)
}

fn say_texts(out: &mut Vec<u8>, texts: &[Units]) -> Result<(), AllocError>
    ensures { OnOk result (out.new.items ≡ out.old.items ++ after_space (if length texts.now == 0 then codes "-" else quoted_list texts.now)) }
{
    out.push(b' ')?;
    if texts.is_empty() {
        return out.extend_from_slice(b"-");
    }
    push_quoted_texts(out, texts)
}

fn say_numbers(out: &mut Vec<u8>, numbers: &[u32]) -> Result<(), AllocError>
    ensures { OnOk result (out.new.items ≡ out.old.items ++ after_space (if length numbers.now == 0 then codes "-" else join_by decimal (codes ",") numbers.now)) }
{
    out.push(b' ')?;
    if numbers.is_empty() {
        return out.extend_from_slice(b"-");
    }
    push_numbers(out, numbers)
}

fn say_each(out: &mut Vec<u8>, texts: &[Units]) -> Result<(), AllocError>
    ensures { OnOk result (out.new.items ≡ out.old.items ++ flat_map (λ t. after_space (quoted t)) texts.now) }
{
    for text in texts {
        say_quoted(out, text.as_slice())?;
    }
    Ok(())
}

fn say_counted(out: &mut Vec<u8>, texts: &[Units]) -> Result<(), AllocError>
    ensures { OnOk result (out.new.items ≡ out.old.items ++ after_space (decimal (length texts.now)) ++ flat_map (λ t. after_space (quoted t)) texts.now) }
{
    say_number(out, texts.len() as u64)?;
    say_each(out, texts)
}

fn say_digits(alloc: Global, out: &mut Vec<u8>, bytes: &[u8]) -> Result<(), AllocError>
    ensures { OnOk result (out.new.items ≡ out.old.items ++ after_space_if_some (encode_lower bytes.now)) }
{
    let digits = hex::encode(alloc, bytes)?;
    if digits.is_empty() {
        return Ok(());
    }
    say_word(out, digits.as_bytes())
}

/// The first 64 digits.
fn first_digits(digits: &[u8]) -> &[u8]
    requires { 64 < length digits.now }
    ensures { result.now ≡ take 64 digits.now }
{
    &digits[..64]
}

fn say_first_digits(out: &mut Vec<u8>, digits: &[u8]) -> Result<(), AllocError>
    requires { 64 < length digits.now }
    ensures { OnOk result (out.new.items ≡ out.old.items ++ after_space (take 64 digits.now ++ codes "..")) }
{
    say_word(out, first_digits(digits))?;
    out.extend_from_slice(b"..")
}

fn say_cut_digits(out: &mut Vec<u8>, digits: &[u8]) -> Result<(), AllocError>
    ensures { OnOk result (out.new.items ≡ out.old.items ++ after_space (cut_digits digits.now)) }
{
    if 64 < digits.len() {
        return say_first_digits(out, digits);
    }
    say_word(out, digits)
}

fn say_cut(alloc: Global, out: &mut Vec<u8>, bytes: &[u8]) -> Result<(), AllocError>
    ensures { OnOk result (out.new.items ≡ out.old.items ++ cut_after_space (encode_lower bytes.now)) }
{
    let digits = hex::encode(alloc, bytes)?;
    if digits.is_empty() {
        return Ok(());
    }
    say_cut_digits(out, digits.as_bytes())
}

fn say_hex(alloc: Global, out: &mut Vec<u8>, bytes: &[u8]) -> Result<(), AllocError>
    ensures { OnOk result (out.new.items ≡ out.old.items ++ hex_digits bytes.now) }
{
    out.extend_from_slice(b" 0x")?;
    push_hex(alloc, out, bytes)
}

fn say_both(alloc: Global, out: &mut Vec<u8>, number: u64, bytes: &[u8]) -> Result<(), AllocError>
    ensures { OnOk result (out.new.items ≡ out.old.items ++ after_space (decimal number) ++ hex_digits bytes.now) }
{
    say_number(out, number)?;
    say_hex(alloc, out, bytes)
}

fn say_unless(out: &mut Vec<u8>, word: &[u8], flag: bool) -> Result<(), AllocError>
    ensures { OnOk result (out.new.items ≡ out.old.items ++ (if flag then [] else after_space word.now)) }
{
    if flag {
        return Ok(());
    }
    say_word(out, word)
}

fn say_words(out: &mut Vec<u8>, words: &[&[u8]]) -> Result<(), AllocError>
    ensures { OnOk result (out.new.items ≡ out.old.items ++ flat_map after_space (map (λ w. w.now) words.now)) }
{
    for word in words {
        say_word(out, word)?;
    }
    Ok(())
}

fn say_bracket(out: &mut Vec<u8>, word: &[u8]) -> Result<(), AllocError>
    ensures { OnOk result (out.new.items ≡ out.old.items ++ codes " (" ++ word.now) }
{
    out.extend_from_slice(b" (")?;
    out.extend_from_slice(word)
}

fn say_record(out: &mut Vec<u8>, head: &[u8], name: &[u16]) -> Result<(), AllocError>
    ensures { OnOk result (out.new.items ≡ out.old.items ++ record_head head.now name.now) }
{
    say_word(out, head)?;
    say_name(out, name)
}

#[tactic(auto, unfolding(crate::specs::Parts::part_text))]
fn push_part(alloc: Global, out: &mut Vec<u8>, part: &Part<'_>) -> Result<(), AllocError>
    ensures { OnOk result (out.new.items ≡ out.old.items ++ part_text (seen part.now)) }
{
    match part {
        Part::Said(word) | Part::Word(_, word) => say_word(out, word),
        Part::Number(_, number) => say_number(out, *number),
        Part::Name(_, name) => say_name(out, name),
        Part::Quoted(_, text) => say_quoted(out, text),
        Part::Written(_, text) => say_written(out, text),
        Part::Path(_, path) => say_path(alloc, out, path),
        Part::BootPath(_, path) => say_boot_path(out, path),
        Part::Texts(_, texts) => say_texts(out, texts),
        Part::Numbers(_, numbers) => say_numbers(out, numbers),
        Part::Counted(_, texts) => say_counted(out, texts),
        Part::Digits(_, bytes) => say_digits(alloc, out, bytes),
        Part::Cut(_, bytes) => say_cut(alloc, out, bytes),
        Part::Hex(_, number) => say_hex(alloc, out, &number.to_be_bytes()),
        Part::WideHex(_, number) => say_hex(alloc, out, &number.to_be_bytes()),
        Part::Dword(_, number) => say_both(alloc, out, u64::from(*number), &number.to_be_bytes()),
        Part::Qword(_, number) => say_both(alloc, out, *number, &number.to_be_bytes()),
        Part::Unless(_, word, flag) => say_unless(out, word, *flag),
        Part::Words(_, words) => say_words(out, words),
        Part::Nothing(_) => say_word(out, b"-"),
        Part::Absent(_) => Ok(()),
        Part::Hidden(_, _) => Ok(()),
        Part::Bracket(_, _, word) => say_bracket(out, word),
        Part::BracketEnd => out.extend_from_slice(b")"),
        Part::Records(_, head, _, name) => say_record(out, head, name),
        Part::NextRecord(head, _, name) => say_record(out, head, name),
        Part::RecordsEnd => Ok(()),
        Part::NoRecords(_) => Ok(()),
    }
}

fn push_each(alloc: Global, out: &mut Vec<u8>, parts: &[Part<'_>]) -> Result<(), AllocError>
    ensures { OnOk result (out.new.items ≡ out.old.items ++ flat_map (λ p. part_text (seen p)) parts.now) }
{
    for part in parts {
        push_part(alloc, out, part)?;
    }
    Ok(())
}

fn push_parts(alloc: Global, out: &mut Vec<u8>, parts: &[Part<'_>]) -> Result<(), AllocError>
    ensures { OnOk result (out.new.items ≡ out.old.items ++ flat_map part_text (all_seen parts.now)) }
{
    push_each(alloc, out, parts)
}

/// Appends a line as a text.
pub(crate) fn push_text(
    alloc: Global,
    out: &mut Vec<u8>,
    head: &[u8],
    parts: &[Part<'_>],
) -> Result<(), AllocError>
    ensures { OnOk result (out.new.items ≡ out.old.items ++ head.now ++ flat_map part_text (all_seen parts.now) ++ codes "\n") }
{
    out.extend_from_slice(head)?;
    push_parts(alloc, out, parts)?;
    out.push(b'\n')?;
    Ok(())
}
