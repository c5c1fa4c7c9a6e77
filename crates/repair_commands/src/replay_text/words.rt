//! Words of the lines.

ghost use Rattle.std.specs.Prelude.{◌≡◌};
ghost use Rattle.repair_commands.specs.replay_text.Lines.{name_word, state_word, kind_word};

use log_replay::LogName;
use windows_logs::log_parts::LogFaultKind;

pub(crate) fn name_word(name: LogName) -> &'static [u8]
    ensures { result.now ≡ name_word name }
{
    match name {
        LogName::Log => b"log",
        LogName::Log1 => b"log1",
        LogName::Log2 => b"log2",
    }
}

pub(crate) fn state_word(dirty: bool) -> &'static [u8]
    ensures { result.now ≡ state_word dirty }
{
    if dirty { b"dirty" } else { b"clean" }
}

pub(crate) fn kind_word(kind: LogFaultKind) -> &'static [u8]
    ensures { result.now ≡ kind_word kind }
{
    match kind {
        LogFaultKind::LogBase => b"log-base",
        LogFaultKind::LogSequence => b"log-sequence",
        LogFaultKind::LogShort => b"log-short",
        LogFaultKind::LogDirt => b"log-dirt",
        LogFaultKind::Size => b"size",
        LogFaultKind::EntrySize => b"entry-size",
        LogFaultKind::EntryHash => b"entry-hash",
        LogFaultKind::EntryPage => b"entry-page",
        LogFaultKind::EntryGrow => b"entry-grow",
    }
}
