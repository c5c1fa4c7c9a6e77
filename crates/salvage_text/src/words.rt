//! Words of the lines.

ghost use Rattle.std.specs.Prelude.{◌≡◌};
ghost use Rattle.salvage_text.specs.Words.{kind_word, part_word, state_word};

use nt_bytes::HiveFaultKind;
use salvage_file::FileState;
use salvage_walk::KeyPart;

pub(crate) fn kind_word(kind: HiveFaultKind) -> &'static [u8]
    ensures { result.now ≡ kind_word kind }
{
    match kind {
        HiveFaultKind::NotRegf => b"not-regf",
        HiveFaultKind::Checksum => b"checksum",
        HiveFaultKind::Version => b"version",
        HiveFaultKind::FileType => b"type",
        HiveFaultKind::Size => b"size",
        HiveFaultKind::BinSign => b"bin-sign",
        HiveFaultKind::BinOffset => b"bin-offset",
        HiveFaultKind::BinSize => b"bin-size",
        HiveFaultKind::CellSize => b"cell-size",
        HiveFaultKind::CellPastBin => b"cell-past-bin",
        HiveFaultKind::OutOfRange => b"out-of-range",
        HiveFaultKind::FreeCell => b"free-cell",
        HiveFaultKind::Shared => b"shared",
        HiveFaultKind::FormShort => b"form-short",
        HiveFaultKind::FormSign => b"form-sign",
        HiveFaultKind::FormLength => b"form-length",
        HiveFaultKind::FormName => b"form-name",
        HiveFaultKind::FormKind => b"form-kind",
        HiveFaultKind::DoubleName => b"double-name",
        HiveFaultKind::Count => b"count",
        HiveFaultKind::TooDeep => b"too-deep",
        HiveFaultKind::LogAbsent => b"log-absent",
        HiveFaultKind::LogBase => b"log-base",
        HiveFaultKind::LogSequence => b"log-sequence",
        HiveFaultKind::LogDirt => b"log-dirt",
        HiveFaultKind::LogShort => b"log-short",
        HiveFaultKind::Unreadable => b"unreadable",
        HiveFaultKind::LogUnreadable => b"log-unreadable",
    }
}

pub(crate) fn state_word(state: FileState) -> &'static [u8]
    ensures { result.now ≡ state_word state }
{
    match state {
        FileState::Clean => b"clean",
        FileState::Recovered => b"recovered",
        FileState::AsIs => b"as-is",
    }
}

pub(crate) fn part_word(part: KeyPart) -> &'static [u8]
    ensures { result.now ≡ part_word part }
{
    match part {
        KeyPart::Keys => b"keys",
        KeyPart::Values => b"values",
        KeyPart::Class => b"class",
        KeyPart::Security => b"security",
    }
}
