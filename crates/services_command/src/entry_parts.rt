//! The line of an entry, as its parts.

ghost use Rattle.std.specs.Prelude.{◌≡◌, ◌++◌, ◌∷◌, [], map, OnOk, IfOk};
ghost use Rattle.std.specs.List.{flat_map};
ghost use Rattle.line_parts.specs.Views.{seen, all_seen};
ghost use Rattle.services_command.specs.Lines.{kind_word, phase_word, mark_word, raw_parts, string_parts, data_parts, bracket_parts, field_parts, named_parts, head_parts, value_parts, place_parts, own_parts, next_parts, override_parts, front_parts};

use answer_lines::why_lines::EntryKind;
use boot_phases::boot_phases::Phase;
use key_text::DataForm;
use line_parts::Part;
use service_list::{Field, Mark, NumberFields, Override, Place, ServiceEntry, TextFields};
use std::alloc::{AllocError, Global};

// ---- words

fn kind_word(kind: EntryKind) -> &'static [u8]
    ensures { result.now ≡ kind_word kind }
{
    match kind {
        EntryKind::Driver => b"driver",
        EntryKind::Service => b"service",
        EntryKind::Other => b"other",
    }
}

fn phase_word(phase: Phase) -> &'static [u8]
    ensures { result.now ≡ phase_word phase }
{
    match phase {
        Phase::Boot => b"boot",
        Phase::System => b"system",
        Phase::Automatic => b"automatic",
        Phase::Done => b"done",
    }
}

fn mark_word(mark: Mark) -> &'static [u8]
    ensures { result.now ≡ mark_word mark }
{
    match mark {
        Mark::NoImage => b"no-image",
        Mark::ImageOutside => b"image-outside",
        Mark::NoDll => b"no-dll",
        Mark::DllOutside => b"dll-outside",
    }
}

pub(crate) fn mark_words(alloc: Global, marks: &[Mark]) -> Result<Vec<&'static [u8]>, AllocError>
    ensures { IfOk result (λ w. map (λ word. word.now) w.items ≡ map mark_word marks.now) }
{
    let mut words = Vec::new(alloc);
    for mark in marks {
        words.push(mark_word(*mark))?;
    }
    Ok(words)
}

// ---- fields

/// Appends a part.
pub(crate) fn put<'a>(parts: &mut Vec<Part<'a>>, part: Part<'a>) -> Result<(), AllocError>
    ensures { OnOk result (all_seen parts.new.items ≡ all_seen parts.old.items ++ seen part.entry ∷ []) }
{
    parts.push(part)?;
    Ok(())
}

/// Appends two parts.
fn put_two<'a>(
    parts: &mut Vec<Part<'a>>,
    first: Part<'a>,
    second: Part<'a>,
) -> Result<(), AllocError>
    ensures { OnOk result (all_seen parts.new.items ≡ all_seen parts.old.items ++ seen first.entry ∷ seen second.entry ∷ []) }
{
    put(parts, first)?;
    put(parts, second)
}

fn put_raw<'a>(parts: &mut Vec<Part<'a>>, bytes: &'a [u8]) -> Result<(), AllocError>
    ensures { OnOk result (all_seen parts.new.items ≡ all_seen parts.old.items ++ raw_parts bytes.now) }
{
    put(parts, Part::Said(b"hex"))?;
    put(parts, Part::Number(b"length", bytes.len() as u64))?;
    put(parts, Part::Cut(b"hex", bytes))
}

fn put_units<'a>(parts: &mut Vec<Part<'a>>, units: &'a [u16], ended: bool) -> Result<(), AllocError>
    ensures { OnOk result (all_seen parts.new.items ≡ all_seen parts.old.items ++ string_parts units.now ended) }
{
    put_two(
        parts,
        Part::Quoted(b"text", units),
        Part::Unless(b"ended", b"unended", ended),
    )
}

fn put_data<'a>(parts: &mut Vec<Part<'a>>, form: &'a DataForm) -> Result<(), AllocError>
    ensures { OnOk result (all_seen parts.new.items ≡ all_seen parts.old.items ++ data_parts form.now) }
{
    match form {
        DataForm::Dword(number) => put(parts, Part::Dword(b"number", *number)),
        DataForm::Qword(number) => put(parts, Part::Qword(b"number", *number)),
        DataForm::Strings(items) => put(parts, Part::Counted(b"list", items.as_slice())),
        DataForm::Ended(units) => put_units(parts, units.as_slice(), true),
        DataForm::Unended(units) => put_units(parts, units.as_slice(), false),
        DataForm::Raw(bytes) => put_raw(parts, bytes.as_slice()),
    }
}

fn put_bracket<'a>(
    parts: &mut Vec<Part<'a>>,
    key: &'a [u8],
    kind: &'a [u8],
    form: &'a DataForm,
) -> Result<(), AllocError>
    ensures { OnOk result (all_seen parts.new.items ≡ all_seen parts.old.items ++ bracket_parts key.now kind.now form.now) }
{
    put(parts, Part::Bracket(key, b"type", kind))?;
    put_data(parts, form)?;
    put(parts, Part::BracketEnd)
}

/// Appends a field.
fn put_field<'a>(
    parts: &mut Vec<Part<'a>>,
    key: &'a [u8],
    field: &'a Field,
) -> Result<(), AllocError>
    ensures { OnOk result (all_seen parts.new.items ≡ all_seen parts.old.items ++ field_parts key.now field.now) }
{
    match field {
        Field::Missing => put(parts, Part::Nothing(key)),
        Field::Number(number) => put(parts, Part::Number(key, u64::from(*number))),
        Field::Text(units) => put(parts, Part::Quoted(key, units.as_slice())),
        Field::Other { kind, form } => put_bracket(parts, key, kind.as_slice(), form),
    }
}

/// Appends a field after a word that the text alone has.
fn put_named<'a>(
    parts: &mut Vec<Part<'a>>,
    word: &'a [u8],
    key: &'a [u8],
    field: &'a Field,
) -> Result<(), AllocError>
    ensures { OnOk result (all_seen parts.new.items ≡ all_seen parts.old.items ++ named_parts word.now key.now field.now) }
{
    put(parts, Part::Said(word))?;
    put_field(parts, key, field)
}

// ---- an entry

fn put_head<'a>(parts: &mut Vec<Part<'a>>, entry: &'a ServiceEntry) -> Result<(), AllocError>
    ensures { OnOk result (all_seen parts.new.items ≡ all_seen parts.old.items ++ head_parts entry.now) }
{
    put_two(
        parts,
        Part::Word(b"kind", kind_word(entry.kind)),
        Part::Quoted(b"name", entry.name.as_slice()),
    )
}

fn put_values<'a>(
    parts: &mut Vec<Part<'a>>,
    numbers: &'a NumberFields,
    texts: &'a TextFields,
) -> Result<(), AllocError>
    ensures { OnOk result (all_seen parts.new.items ≡ all_seen parts.old.items ++ value_parts numbers.now texts.now) }
{
    put_named(parts, b"start", b"start", &numbers.start)?;
    put_named(parts, b"type", b"type", &numbers.service_type)?;
    put_named(parts, b"control", b"control", &numbers.control)?;
    put_named(parts, b"group", b"group", &texts.group)?;
    put_named(parts, b"tag", b"tag", &numbers.tag)?;
    put_named(parts, b"account", b"account", &texts.account)?;
    put_named(parts, b"image", b"image", &texts.image)?;
    put_named(parts, b"dll", b"dll", &texts.dll)
}

fn put_attempt<'a>(parts: &mut Vec<Part<'a>>, phase: Phase, number: u64) -> Result<(), AllocError>
    ensures { OnOk result (all_seen parts.new.items ≡ all_seen parts.old.items ++ place_parts (Place.Attempted phase number)) }
{
    put_two(
        parts,
        Part::Word(b"phase", phase_word(phase)),
        Part::Number(b"number", number),
    )
}

fn put_unmet(parts: &mut Vec<Part<'_>>, phase: Phase) -> Result<(), AllocError>
    ensures { OnOk result (all_seen parts.new.items ≡ all_seen parts.old.items ++ place_parts (Place.Unmet phase)) }
{
    put(parts, Part::Word(b"phase", phase_word(phase)))?;
    put_two(parts, Part::Said(b"unmet"), Part::Absent(b"number"))
}

fn put_place(parts: &mut Vec<Part<'_>>, place: Place) -> Result<(), AllocError>
    ensures { OnOk result (all_seen parts.new.items ≡ all_seen parts.old.items ++ place_parts place) }
{
    match place {
        Place::Attempted { phase, number } => put_attempt(parts, phase, number),
        Place::Unmet(phase) => put_unmet(parts, phase),
        Place::Untaken => put_two(parts, Part::Nothing(b"phase"), Part::Absent(b"number")),
    }
}

/// Appends the parts up to the stamp.
pub(crate) fn put_front<'a>(
    parts: &mut Vec<Part<'a>>,
    entry: &'a ServiceEntry,
) -> Result<(), AllocError>
    ensures { OnOk result (all_seen parts.new.items ≡ all_seen parts.old.items ++ front_parts entry.now) }
{
    put_head(parts, entry)?;
    put_values(parts, &entry.numbers, &entry.texts)?;
    put(parts, Part::Said(b"order"))?;
    put_place(parts, entry.place)
}

/// Appends the library of the key itself.
pub(crate) fn put_own<'a>(parts: &mut Vec<Part<'a>>, own: &'a Field) -> Result<(), AllocError>
    ensures { OnOk result (all_seen parts.new.items ≡ all_seen parts.old.items ++ own_parts own.now) }
{
    match own {
        Field::Missing => put(parts, Part::Absent(b"own")),
        Field::Number(_) | Field::Text(_) | Field::Other { kind: _, form: _ } => {
            put_named(parts, b"own-dll", b"own", own)
        }
    }
}

fn put_next<'a>(parts: &mut Vec<Part<'a>>, next: &'a Override) -> Result<(), AllocError>
    ensures { OnOk result (all_seen parts.new.items ≡ all_seen parts.old.items ++ next_parts next.now) }
{
    put(
        parts,
        Part::NextRecord(b"override", b"name", next.name.as_slice()),
    )?;
    put_field(parts, b"value", &next.value)
}

fn put_more<'a>(parts: &mut Vec<Part<'a>>, overrides: &'a [Override]) -> Result<(), AllocError>
    ensures { OnOk result (all_seen parts.new.items ≡ all_seen parts.old.items ++ flat_map next_parts overrides.now) }
{
    for next in overrides {
        put_next(parts, next)?;
    }
    Ok(())
}

fn put_first<'a>(
    parts: &mut Vec<Part<'a>>,
    first: &'a Override,
    more: &'a [Override],
) -> Result<(), AllocError>
    ensures { OnOk result (all_seen parts.new.items ≡ all_seen parts.old.items ++ override_parts (first.now ∷ more.now)) }
{
    put(
        parts,
        Part::Records(b"override", b"override", b"name", first.name.as_slice()),
    )?;
    put_field(parts, b"value", &first.value)?;
    put_more(parts, more)?;
    put(parts, Part::RecordsEnd)
}

/// Appends the overrides.
pub(crate) fn put_overrides<'a>(
    parts: &mut Vec<Part<'a>>,
    overrides: &'a [Override],
) -> Result<(), AllocError>
    ensures { OnOk result (all_seen parts.new.items ≡ all_seen parts.old.items ++ override_parts overrides.now) }
{
    match overrides {
        [] => put(parts, Part::NoRecords(b"override")),
        [first, more @ ..] => put_first(parts, first, more),
    }
}
