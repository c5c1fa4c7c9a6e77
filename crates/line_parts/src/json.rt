//! The object of a line.

ghost use Rattle.std.specs.Prelude.{◌≡◌, [], ◌++◌, map, codes, OnOk};
ghost use Rattle.std.specs.List.{flat_map};
ghost use Rattle.hex.specs.Hex.{encode_lower};
ghost use Rattle.report_text.specs.line_text.Objects.{Text, Texts, key_text, field_text, opening_text};
ghost use Rattle.report_text.specs.line_text.Quoted.{more_quoted, quoted_list};
ghost use Rattle.line_parts.specs.Pieces.{Opens, ListOpens, NextOpens, first_field, piece_text, pieces_text};
ghost use Rattle.line_parts.specs.Parts.{part_pieces, pieces_of};
ghost use Rattle.line_parts.specs.Views.{seen, all_seen};

use crate::part::Part;
use report_text::line_text::{
    close_object, open_object, push_flag_field, push_null_field, push_number_field,
    push_numbers_field, push_quoted, push_quoted_word, push_text_field, push_texts_field,
    push_word_field,
};
use std::alloc::{AllocError, Global};

// As `report_text` has it for itself.
fn push_key(out: &mut Vec<u8>, key: &[u8]) -> Result<(), AllocError>
    ensures { OnOk result (out.new.items ≡ out.old.items ++ key_text key.now) }
{
    out.extend_from_slice(b",\"")?;
    out.extend_from_slice(key)?;
    out.extend_from_slice(b"\":")
}

fn push_digits_field(
    alloc: Global,
    out: &mut Vec<u8>,
    key: &[u8],
    bytes: &[u8],
) -> Result<(), AllocError>
    ensures { OnOk result (out.new.items ≡ out.old.items ++ field_text key.now (Text (encode_lower bytes.now))) }
{
    let digits = hex::encode(alloc, bytes)?;
    push_word_field(out, key, digits.as_bytes())
}

fn push_more_words(out: &mut Vec<u8>, words: &[&[u8]]) -> Result<(), AllocError>
    ensures { OnOk result (out.new.items ≡ out.old.items ++ more_quoted (map (λ w. w.now) words.now)) }
{
    for word in words {
        out.push(b',')?;
        push_quoted_word(out, word)?;
    }
    Ok(())
}

fn push_words(out: &mut Vec<u8>, words: &[&[u8]]) -> Result<(), AllocError>
    ensures { OnOk result (out.new.items ≡ out.old.items ++ quoted_list (map (λ w. w.now) words.now)) }
{
    let [first, rest @ ..] = words else {
        return Ok(());
    };
    push_quoted_word(out, first)?;
    push_more_words(out, rest)
}

fn push_words_field(out: &mut Vec<u8>, key: &[u8], words: &[&[u8]]) -> Result<(), AllocError>
    ensures { OnOk result (out.new.items ≡ out.old.items ++ field_text key.now (Texts (map (λ w. w.now) words.now))) }
{
    push_key(out, key)?;
    out.push(b'[')?;
    push_words(out, words)?;
    out.push(b']')?;
    Ok(())
}

fn push_empty_field(out: &mut Vec<u8>, key: &[u8]) -> Result<(), AllocError>
    ensures { OnOk result (out.new.items ≡ out.old.items ++ field_text key.now (Texts [])) }
{
    push_key(out, key)?;
    out.extend_from_slice(b"[]")
}

// ---- records, up to their first field

fn open_record(out: &mut Vec<u8>, key: &[u8]) -> Result<(), AllocError>
    ensures { OnOk result (out.new.items ≡ out.old.items ++ codes "{\"" ++ key.now ++ codes "\":") }
{
    out.extend_from_slice(b"{\"")?;
    out.extend_from_slice(key)?;
    out.extend_from_slice(b"\":")
}

fn push_first_word(out: &mut Vec<u8>, key: &[u8], word: &[u8]) -> Result<(), AllocError>
    ensures { OnOk result (out.new.items ≡ out.old.items ++ first_field key.now word.now) }
{
    open_record(out, key)?;
    push_quoted_word(out, word)
}

fn push_first_name(out: &mut Vec<u8>, key: &[u8], name: &[u16]) -> Result<(), AllocError>
    ensures { OnOk result (out.new.items ≡ out.old.items ++ first_field key.now name.now) }
{
    open_record(out, key)?;
    push_quoted(out, name)
}

fn push_opening(out: &mut Vec<u8>, key: &[u8], first: &[u8], word: &[u8]) -> Result<(), AllocError>
    ensures { OnOk result (out.new.items ≡ out.old.items ++ piece_text (Opens key.now first.now word.now)) }
{
    push_key(out, key)?;
    push_first_word(out, first, word)
}

fn push_list_opening(
    out: &mut Vec<u8>,
    key: &[u8],
    first: &[u8],
    name: &[u16],
) -> Result<(), AllocError>
    ensures { OnOk result (out.new.items ≡ out.old.items ++ piece_text (ListOpens key.now first.now name.now)) }
{
    push_key(out, key)?;
    out.push(b'[')?;
    push_first_name(out, first, name)
}

fn push_next_opening(out: &mut Vec<u8>, first: &[u8], name: &[u16]) -> Result<(), AllocError>
    ensures { OnOk result (out.new.items ≡ out.old.items ++ piece_text (NextOpens first.now name.now)) }
{
    out.extend_from_slice(b"},")?;
    push_first_name(out, first, name)
}

// ---- parts

#[tactic(auto, unfolding(crate::specs::Parts::part_pieces))]
fn push_part(alloc: Global, out: &mut Vec<u8>, part: &Part<'_>) -> Result<(), AllocError>
    ensures { OnOk result (out.new.items ≡ out.old.items ++ pieces_text (part_pieces (seen part.now))) }
{
    match part {
        Part::Said(_) => Ok(()),
        Part::Number(key, number) | Part::Qword(key, number) => push_number_field(
            out, key, *number,
        ),
        Part::Dword(key, number) | Part::WideHex(key, number) => {
            push_number_field(out, key, u64::from(*number))
        }
        Part::Hex(key, number) => push_number_field(out, key, u64::from(*number)),
        Part::Word(key, word) | Part::BootPath(key, word) | Part::Hidden(key, word) => {
            push_word_field(out, key, word)
        }
        Part::Name(key, text) | Part::Quoted(key, text) | Part::Written(key, text) => {
            push_text_field(out, key, text)
        }
        Part::Path(key, texts) | Part::Texts(key, texts) | Part::Counted(key, texts) => {
            push_texts_field(out, key, texts)
        }
        Part::Numbers(key, numbers) => push_numbers_field(out, key, numbers),
        Part::Digits(key, bytes) | Part::Cut(key, bytes) => {
            push_digits_field(alloc, out, key, bytes)
        }
        Part::Unless(key, _, flag) => push_flag_field(out, key, *flag),
        Part::Words(key, words) => push_words_field(out, key, words),
        Part::Nothing(key) | Part::Absent(key) => push_null_field(out, key),
        Part::Bracket(key, first, word) => push_opening(out, key, first, word),
        Part::BracketEnd => out.extend_from_slice(b"}"),
        Part::Records(key, _, first, name) => push_list_opening(out, key, first, name),
        Part::NextRecord(_, first, name) => push_next_opening(out, first, name),
        Part::RecordsEnd => out.extend_from_slice(b"}]"),
        Part::NoRecords(key) => push_empty_field(out, key),
    }
}

fn push_each(alloc: Global, out: &mut Vec<u8>, parts: &[Part<'_>]) -> Result<(), AllocError>
    ensures { OnOk result (out.new.items ≡ out.old.items ++ flat_map (λ p. pieces_text (part_pieces (seen p))) parts.now) }
{
    for part in parts {
        push_part(alloc, out, part)?;
    }
    Ok(())
}

fn push_parts(alloc: Global, out: &mut Vec<u8>, parts: &[Part<'_>]) -> Result<(), AllocError>
    ensures { OnOk result (out.new.items ≡ out.old.items ++ pieces_text (pieces_of (all_seen parts.now))) }
{
    push_each(alloc, out, parts)
}

/// Appends a line as an object.
pub(crate) fn push_object(
    alloc: Global,
    out: &mut Vec<u8>,
    word: &[u8],
    parts: &[Part<'_>],
) -> Result<(), AllocError>
    ensures { OnOk result (out.new.items ≡ out.old.items ++ opening_text word.now ++ pieces_text (pieces_of (all_seen parts.now)) ++ codes "}\n") }
{
    open_object(out, word)?;
    push_parts(alloc, out, parts)?;
    close_object(out)
}
