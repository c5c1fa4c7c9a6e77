//! The order of the lines.

ghost use Rattle.std.specs.Prelude.{◌≡◌, IfOk};
ghost use Rattle.service_list.specs.Sorting.{arranged, sorted_by, is_named_before, is_newer, is_earlier};

use crate::entry::ServiceEntry;
use crate::kinds::SortBy;
use nt_bytes::compare_folded;
use std::alloc::AllocError;

/// By folded name, unit by unit, a beginning before the whole.
fn by_name(entries: Vec<ServiceEntry>) -> Result<Vec<ServiceEntry>, AllocError>
    ensures { IfOk result (λ e. e.items ≡ sorted_by is_named_before entries.items) }
{
    let mut entries = entries;
    entries.sort_by(|a, b| compare_folded(a.name.as_slice(), b.name.as_slice()))?;
    Ok(entries)
}

/// The newest first.
fn by_stamp(entries: Vec<ServiceEntry>) -> Result<Vec<ServiceEntry>, AllocError>
    ensures { IfOk result (λ e. e.items ≡ sorted_by is_newer entries.items) }
{
    let mut entries = entries;
    entries.sort_by(|a, b| b.written.cmp(&a.written))?;
    Ok(entries)
}

/// As the quiet start tells of them, those behind of which it doesn't.
fn by_turn(entries: Vec<ServiceEntry>) -> Result<Vec<ServiceEntry>, AllocError>
    ensures { IfOk result (λ e. e.items ≡ sorted_by is_earlier entries.items) }
{
    let mut entries = entries;
    entries.sort_by(|a, b| a.turn.cmp(&b.turn))?;
    Ok(entries)
}

/// The entries in the order that is asked for; equal ones stay as they were. Takes n log n time.
pub(crate) fn arranged(
    entries: Vec<ServiceEntry>,
    sort: Option<SortBy>,
) -> Result<Vec<ServiceEntry>, AllocError>
    ensures { IfOk result (λ e. e.items ≡ arranged sort entries.items) }
{
    match sort {
        Some(SortBy::Name) => by_name(entries),
        Some(SortBy::Written) => by_stamp(entries),
        Some(SortBy::Order) => by_turn(entries),
        None => Ok(entries),
    }
}
