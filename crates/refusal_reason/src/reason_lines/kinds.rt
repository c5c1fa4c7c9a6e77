//! The reasons by the kinds of faults.

ghost use Rattle.std.specs.Prelude.{◌≡◌, map, option_map};
ghost use Rattle.std.specs.Option.{option_or};
ghost use Rattle.refusal_reason.specs.reason_lines.Kinds.{base_rows, bins_rows, boot_ini_rows, log_rows, of_part, part_reason, reason_in, reg_rows, script_rows};
ghost use Rattle.refusal_reason.specs.reason_lines.Seen.{found_seen, row_seen};

use crate::reason_lines::words::is_word;

/// Which part of a hive has a fault.
#[derive(Clone, Copy, Debug, PartialEq, Eq)]
pub enum Part {
    /// The base block.
    Base,
    /// A bin, or a cell in one.
    Bins,
    /// The log, or that there is none.
    Log,
}

/// The word of a fault, and its reason.
#[derive(Clone, Copy)]
pub(crate) struct Row {
    kind: &'static str,
    reason: &'static str,
}

/// The part of a hive that has a fault, and the reason.
#[derive(Clone, Copy)]
pub(crate) struct Found {
    pub part: Part,
    pub reason: &'static str,
}

macro_rules! row {
    ($kind:literal, $reason:literal) => {
        Row {
            kind: $kind,
            reason: $reason,
        }
    };
}

static SCRIPT: &[Row] = &[
    row!("too-long", "longer than 65536 bytes"),
    row!("line", "a character or a quote that can't stand here"),
    row!(
        "word",
        "unknown command or keyword, or a word missing or too many"
    ),
    row!("number", "a number out of its range"),
    row!("too-many-starts", "more than 64 boots"),
    row!("sweep", "no line sweep with an event after it"),
];

static BOOT_INI: &[Row] = &[
    row!("too-long", "longer than 65536 bytes"),
    row!("too-many-entries", "more than 64 entries"),
];

static REG: &[Row] = &[
    row!("mark", "not in the encoding asked for"),
    row!(
        "header",
        "not the header \"Windows Registry Editor Version 5.00\""
    ),
    row!("root", "a key outside HKEY_LOCAL_MACHINE\\SYSTEM"),
    row!("line", "a line that is no key and no value"),
    row!("not-text", "a name with a line end"),
];

static BASE: &[Row] = &[
    row!("not-regf", "not a hive"),
    row!("checksum", "wrong checksum of the base block"),
    row!("version", "not version 1.3 or 1.5"),
    row!("type", "wrong file type or format"),
    row!("size", "wrong size, or the file is shorter than it says"),
    row!("unreadable", "a sector that can't be read"),
];

static BINS: &[Row] = &[
    row!("bin-sign", "a bin without its signature"),
    row!("bin-offset", "a bin that states another offset"),
    row!("bin-size", "a bin of a wrong size"),
    row!("cell-size", "a cell of a wrong size"),
    row!("cell-past-bin", "a cell past the end of its bin"),
    row!("out-of-range", "an offset at which no cell begins"),
    row!("free-cell", "a free cell in use"),
    row!("shared", "a cell used twice"),
    row!("form-short", "a cell too short for what it holds"),
    row!("form-sign", "a cell with another signature than expected"),
    row!("form-length", "a length that can't be"),
    row!("form-name", "a name that can't be"),
    row!("form-kind", "a list of lists inside a list of lists"),
    row!("double-name", "a name that stands twice"),
    row!("count", "a key with another number of subkeys than it says"),
    row!("too-deep", "a key below level 512"),
];

static LOG: &[Row] = &[
    row!(
        "log-absent",
        "the hive is dirty, and there is no log; try replay with logs of Windows, or salvage"
    ),
    row!(
        "log-base",
        "the log has no valid base block; try replay with logs of Windows, or salvage"
    ),
    row!(
        "log-sequence",
        "the log belongs to another state of the hive; try replay with logs of Windows, or salvage"
    ),
    row!(
        "log-dirt",
        "the log has no bitmap of sectors; try replay with logs of Windows, or salvage"
    ),
    row!(
        "log-short",
        "the log is shorter than its bitmap says; try replay with logs of Windows, or salvage"
    ),
    row!(
        "log-unreadable",
        "a sector of the log that can't be read; try replay with logs of Windows, or salvage"
    ),
];

/// Of a script, and of the commands of `control`.
pub(crate) fn script_rows() -> &'static [Row]
    ensures { map row_seen result.now ≡ script_rows }
{
    SCRIPT
}

/// Of boot.ini.
pub(crate) fn boot_ini_rows() -> &'static [Row]
    ensures { map row_seen result.now ≡ boot_ini_rows }
{
    BOOT_INI
}

/// Of a registry text.
pub(crate) fn reg_rows() -> &'static [Row]
    ensures { map row_seen result.now ≡ reg_rows }
{
    REG
}

/// Of the base block of a hive.
fn base_rows() -> &'static [Row]
    ensures { map row_seen result.now ≡ base_rows }
{
    BASE
}

/// Of bins and cells.
fn bins_rows() -> &'static [Row]
    ensures { map row_seen result.now ≡ bins_rows }
{
    BINS
}

/// Of a log.
fn log_rows() -> &'static [Row]
    ensures { map row_seen result.now ≡ log_rows }
{
    LOG
}

/// The reason of a word, where a row has it.
pub(crate) fn reason_in(rows: &'static [Row], kind: &[u8]) -> Option<&'static str>
    ensures { option_map (λ t. t.now) result ≡ reason_in (map row_seen rows.now) kind.now }
{
    let mut rest = rows;
    'rows: while let [row, more @ ..] = rest {
        if is_word(kind, row.kind) {
            return Some(row.reason);
        }
        rest = more;
    }
    None
}

fn of_part(part: Part, reason: Option<&'static str>) -> Option<Found>
    ensures { option_map found_seen result ≡ of_part part (option_map (λ t. t.now) reason.entry) }
{
    match reason {
        Some(reason) => Some(Found { part, reason }),
        None => None,
    }
}

fn of_rows(part: Part, rows: &'static [Row], kind: &[u8]) -> Option<Found>
    ensures { option_map found_seen result ≡ of_part part (reason_in (map row_seen rows.now) kind.now) }
{
    of_part(part, reason_in(rows, kind))
}

fn or_else(found: Option<Found>, other: Option<Found>) -> Option<Found>
    ensures { option_map found_seen result ≡ option_or (option_map found_seen found) (option_map found_seen other) }
{
    match found {
        Some(found) => Some(found),
        None => other,
    }
}

/// The part and the reason of the word of a hive's fault.
pub(crate) fn part_reason(kind: &[u8]) -> Option<Found>
    ensures { option_map found_seen result ≡ part_reason kind.now }
{
    let of_log = of_rows(Part::Log, log_rows(), kind);
    let of_rest = or_else(of_rows(Part::Bins, bins_rows(), kind), of_log);
    or_else(of_rows(Part::Base, base_rows(), kind), of_rest)
}
