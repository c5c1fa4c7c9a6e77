//! What a key is by its Type, and which keys are shown.

ghost use Rattle.std.specs.Prelude.{◌≡◌};
ghost use Rattle.start_model.specs.Entries.{is_driver, is_service};
ghost use Rattle.service_list.specs.Kinds.{is_driver_kind, is_service_kind, is_other_kind, kind_in, kind_of, has_value, is_listed, starts_at, has_start, is_kind, has_kind, is_since, is_shown};

use answer_lines::why_lines::EntryKind;
use nt_names::startup_names::{START, TYPE};
use reg_tree::Key;

/// What decides the order of the lines.
#[derive(Clone, Copy)]
pub enum SortBy {
    /// The folded names.
    Name,
    /// When the keys were last written, the newest first.
    Written,
    /// The order in which the quiet start tells of them.
    Order,
}

/// Which of the listed keys are shown, and in which order.
#[derive(Clone, Copy)]
pub struct Selection {
    /// Those of this Start alone.
    pub start: Option<u32>,
    /// Those of this kind alone.
    pub kind: Option<EntryKind>,
    /// Those written at this time or later alone, in units of 100 ns since 1601.
    pub since: Option<u64>,
    /// Without it they are as in the registry.
    pub sort: Option<SortBy>,
}

fn is_driver(kind: u32) -> bool
    ensures { result ≡ is_driver kind }
{
    kind & 0x0b != 0
}

fn is_service(kind: u32) -> bool
    ensures { result ≡ is_service kind }
{
    kind & 0x30 != 0 && kind & 0x0b == 0
}

/// Whether it is a driver.
pub(crate) fn is_driver_kind(kind: EntryKind) -> bool
    ensures { result ≡ is_driver_kind kind }
{
    match kind {
        EntryKind::Driver => true,
        EntryKind::Service | EntryKind::Other => false,
    }
}

/// Whether it is a service.
pub(crate) fn is_service_kind(kind: EntryKind) -> bool
    ensures { result ≡ is_service_kind kind }
{
    match kind {
        EntryKind::Service => true,
        EntryKind::Driver | EntryKind::Other => false,
    }
}

/// Whether it is neither.
pub(crate) fn is_other_kind(kind: EntryKind) -> bool
    ensures { result ≡ is_other_kind kind }
{
    match kind {
        EntryKind::Other => true,
        EntryKind::Driver | EntryKind::Service => false,
    }
}

fn kind_in(kind: u32) -> EntryKind
    ensures { result ≡ kind_in kind }
{
    if is_driver(kind) {
        EntryKind::Driver
    } else if is_service(kind) {
        EntryKind::Service
    } else {
        EntryKind::Other
    }
}

/// What a key is by its Type.
pub(crate) fn kind_of(key: &Key) -> EntryKind
    ensures { result ≡ kind_of key.now }
{
    match key.dword(&TYPE) {
        Some(kind) => kind_in(kind),
        None => EntryKind::Other,
    }
}

fn has_value(key: &Key, name: &[u16]) -> bool
    ensures { result ≡ has_value name.now key.now }
{
    key.value(name).is_some()
}

/// Whether the key has a Start or a Type, whatever these hold.
pub(crate) fn is_listed(key: &Key) -> bool
    ensures { result ≡ is_listed key.now }
{
    has_value(key, &START) || has_value(key, &TYPE)
}

fn starts_at(key: &Key, start: u32) -> bool
    ensures { result ≡ starts_at start key.now }
{
    match key.dword(&START) {
        Some(number) => number == start,
        None => false,
    }
}

fn has_start(key: &Key, asked: Option<u32>) -> bool
    ensures { result ≡ has_start asked key.now }
{
    match asked {
        Some(start) => starts_at(key, start),
        None => true,
    }
}

fn is_kind(asked: EntryKind, kind: EntryKind) -> bool
    ensures { result ≡ is_kind asked kind }
{
    match asked {
        EntryKind::Driver => is_driver_kind(kind),
        EntryKind::Service => is_service_kind(kind),
        EntryKind::Other => is_other_kind(kind),
    }
}

fn has_kind(key: &Key, asked: Option<EntryKind>) -> bool
    ensures { result ≡ has_kind asked key.now }
{
    match asked {
        Some(asked) => is_kind(asked, kind_of(key)),
        None => true,
    }
}

fn is_since(key: &Key, asked: Option<u64>) -> bool
    ensures { result ≡ is_since asked key.now }
{
    match asked {
        Some(since) => since <= key.stamp,
        None => true,
    }
}

/// Whether a key passes the filters.
pub(crate) fn is_shown(key: &Key, selection: Selection) -> bool
    ensures { result ≡ is_shown selection key.now }
{
    has_start(key, selection.start)
        && has_kind(key, selection.kind)
        && is_since(key, selection.since)
}
