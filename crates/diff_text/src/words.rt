//! Words of the lines.

ghost use Rattle.std.specs.Prelude.{◌≡◌};
ghost use Rattle.diff_text.specs.Words.{side_word, field_word, sequence_word, part_word, part_name, key_field_word, phase_word, line_word};

use answer_lines::diff_lines::{DiffField, DiffLine, KeyField, Part, Sequence, Side};
use boot_phases::boot_phases::Phase;

pub(crate) fn side_word(side: Side) -> &'static [u8]
    ensures { result.now ≡ side_word side }
{
    match side {
        Side::First => b"first",
        Side::Second => b"second",
    }
}

pub(crate) fn field_word(field: DiffField) -> &'static [u8]
    ensures { result.now ≡ field_word field }
{
    match field {
        DiffField::Start => b"Start",
        DiffField::Type => b"Type",
        DiffField::ErrorControl => b"ErrorControl",
        DiffField::Group => b"Group",
        DiffField::Tag => b"Tag",
        DiffField::DependOnService => b"DependOnService",
        DiffField::DependOnGroup => b"DependOnGroup",
        DiffField::ImagePath => b"ImagePath",
        DiffField::ObjectName => b"ObjectName",
    }
}

fn sequence_word(sequence: Sequence) -> &'static [u8]
    ensures { result.now ≡ sequence_word sequence }
{
    match sequence {
        Sequence::Registry => b"registry",
        Sequence::Groups => b"groups",
        Sequence::Starts => b"start-order",
    }
}

fn part_word(part: Part) -> &'static [u8]
    ensures { result.now ≡ part_word part }
{
    match part {
        Part::Group => b"group-only",
        Part::Start => b"start-only",
        Part::Unmet => b"unmet-only",
    }
}

/// What the name of a part is called in an object.
pub(crate) fn part_name(part: Part) -> &'static [u8]
    ensures { result.now ≡ part_name part }
{
    match part {
        Part::Group => b"group",
        Part::Start | Part::Unmet => b"name",
    }
}

pub(crate) fn key_field_word(field: KeyField) -> &'static [u8]
    ensures { result.now ≡ key_field_word field }
{
    match field {
        KeyField::Name => b"name",
        KeyField::Class => b"class",
        KeyField::Security => b"security",
        KeyField::Values => b"values",
        KeyField::Keys => b"keys",
    }
}

pub(crate) fn phase_word(phase: Phase) -> &'static [u8]
    ensures { result.now ≡ phase_word phase }
{
    match phase {
        Phase::Boot => b"boot",
        Phase::System => b"system",
        Phase::Automatic => b"automatic",
        Phase::Done => b"done",
    }
}

/// The first word of a line.
pub(crate) fn line_word(line: &DiffLine) -> &'static [u8]
    ensures { result.now ≡ line_word line.now }
{
    match line {
        DiffLine::NoSet { .. } => b"no-set",
        DiffLine::Sets { .. } => b"sets",
        DiffLine::Only { .. } => b"only",
        DiffLine::Differs { .. } => b"differs",
        DiffLine::Parts { sequence, .. } => sequence_word(*sequence),
        DiffLine::Lone { part, .. } => part_word(*part),
        DiffLine::Tags { .. } => b"tags",
        DiffLine::StartPhase { .. } => b"start-phase",
        DiffLine::StartsSame => b"starts",
        DiffLine::KeyDiffers { .. } => b"key-differs",
        DiffLine::ValueDiffers { .. } => b"value-differs",
        DiffLine::ValueOnly { .. } => b"value-only",
        DiffLine::Data { side, .. } => side_word(*side),
        DiffLine::KeyOnly { .. } => b"key-only",
        DiffLine::Stamps { .. } => b"stamps",
        DiffLine::Flags { .. } => b"flags",
        DiffLine::Same => b"same",
        DiffLine::Differ { .. } => b"differ",
        DiffLine::End => b"end",
    }
}
