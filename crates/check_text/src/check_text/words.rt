//! Words of the lines.

ghost use Rattle.std.specs.Prelude.{◌≡◌};
ghost use Rattle.check_text.specs.check_text.Lines.{select_word, field_word, fault_word, line_word};

use answer_lines::check_lines::{CheckLine, Fault, Field, SelectWord};

pub(crate) fn select_word(word: SelectWord) -> &'static [u8]
    ensures { result.now ≡ select_word word }
{
    match word {
        SelectWord::Current => b"Current",
        SelectWord::Default => b"Default",
        SelectWord::Failed => b"Failed",
        SelectWord::LastKnownGood => b"LastKnownGood",
    }
}

pub(crate) fn field_word(field: Field) -> &'static [u8]
    ensures { result.now ≡ field_word field }
{
    match field {
        Field::Start => b"Start",
        Field::Type => b"Type",
        Field::ErrorControl => b"ErrorControl",
        Field::Group => b"Group",
        Field::Tag => b"Tag",
        Field::DependOnService => b"DependOnService",
        Field::DependOnGroup => b"DependOnGroup",
    }
}

pub(crate) fn fault_word(fault: &Fault) -> &'static [u8]
    ensures { result.now ≡ fault_word fault.now }
{
    match fault {
        Fault::NoStart => b"no-start",
        Fault::NoType => b"no-type",
        Fault::Malformed(_) => b"malformed",
        Fault::Beyond(_) => b"beyond",
        Fault::Kind(_) => b"kind",
        Fault::TooEarly(_) => b"too-early",
        Fault::NoControl => b"no-control",
        Fault::ControlBeyond(_) => b"control-beyond",
        Fault::NoImage => b"no-image",
        Fault::NoService { need: _ } => b"no-service",
        Fault::Never { start: _, need: _ } => b"never",
        Fault::Later { start: _, need: _ } => b"later",
        Fault::NoMember { group: _ } => b"no-member",
        Fault::TagUnlisted { tag: _, group: _ } => b"tag-unlisted",
    }
}

pub(crate) fn line_word(line: &CheckLine) -> &'static [u8]
    ensures { result.now ≡ line_word line.now }
{
    match line {
        CheckLine::Select { word: _, number: _ } => b"select",
        CheckLine::CurrentSetKey => b"current-set-key",
        CheckLine::Set { number: _ } => b"set",
        CheckLine::NoSet { number: _ } => b"no-set",
        CheckLine::NoServices => b"no-services",
        CheckLine::NoList => b"no-list",
        CheckLine::About { fault, name: _ } => fault_word(fault),
        CheckLine::GroupUnlisted { count: _, group: _ } => b"group-unlisted",
        CheckLine::Cycle { number: _, name: _ } => b"cycle",
        CheckLine::Found { count: _ } => b"found",
        CheckLine::End => b"end",
    }
}
