//! The words of the faults.

ghost use Rattle.std.specs.Prelude.{◌≡◌};
ghost use Rattle.command_parts.specs.command_parts.Kinds.{script_kind_word, hive_kind_word};

use boot_script::boot_script::ScriptFaultKind;
use nt_bytes::HiveFaultKind;

pub(crate) fn script_kind(kind: ScriptFaultKind) -> &'static str
    ensures { result.now ≡ script_kind_word kind }
{
    match kind {
        ScriptFaultKind::TooLong => "too-long",
        ScriptFaultKind::Line => "line",
        ScriptFaultKind::Word => "word",
        ScriptFaultKind::Number => "number",
        ScriptFaultKind::TooManyStarts => "too-many-starts",
    }
}

/// The word of a fault of a hive.
pub fn hive_kind(kind: HiveFaultKind) -> &'static str
    ensures { result.now ≡ hive_kind_word kind }
{
    match kind {
        HiveFaultKind::NotRegf => "not-regf",
        HiveFaultKind::Checksum => "checksum",
        HiveFaultKind::Version => "version",
        HiveFaultKind::FileType => "type",
        HiveFaultKind::Size => "size",
        HiveFaultKind::BinSign => "bin-sign",
        HiveFaultKind::BinOffset => "bin-offset",
        HiveFaultKind::BinSize => "bin-size",
        HiveFaultKind::CellSize => "cell-size",
        HiveFaultKind::CellPastBin => "cell-past-bin",
        HiveFaultKind::OutOfRange => "out-of-range",
        HiveFaultKind::FreeCell => "free-cell",
        HiveFaultKind::Shared => "shared",
        HiveFaultKind::FormShort => "form-short",
        HiveFaultKind::FormSign => "form-sign",
        HiveFaultKind::FormLength => "form-length",
        HiveFaultKind::FormName => "form-name",
        HiveFaultKind::FormKind => "form-kind",
        HiveFaultKind::DoubleName => "double-name",
        HiveFaultKind::Count => "count",
        HiveFaultKind::TooDeep => "too-deep",
        HiveFaultKind::LogAbsent => "log-absent",
        HiveFaultKind::LogBase => "log-base",
        HiveFaultKind::LogSequence => "log-sequence",
        HiveFaultKind::LogDirt => "log-dirt",
        HiveFaultKind::LogShort => "log-short",
        HiveFaultKind::Unreadable => "unreadable",
        HiveFaultKind::LogUnreadable => "log-unreadable",
    }
}
