//! Pages that are spare: room for the next base, made before the bins grow.

ghost use Rattle.std.specs.Prelude.{◌≡◌, ◌⊎◌, ◌<◌, ◌≤◌, [], length, replicate, OnOk};

use cell_tables::saved_pages::SavedPages;
use std::alloc::AllocError;
use std::mem::swap;

/// Makes room for that many pages, where bins data may have that many.
pub(crate) fn widen_to(spare: &mut SavedPages, wanted: u64) -> Result<(), AllocError>
    ensures ok { OnOk result (wanted ≤ 4096 → wanted ≤ length spare.new) }
    ensures more { length spare.old ≤ length spare.new }
{
    let there = spare.len() as u64;
    if wanted <= there || wanted > 4096 {
        return Ok(());
    }
    spare.widen((wanted - there) as usize)?;
    Ok(())
}

/// Nothing is kept any more, of that many pages, in the one of the two that has room for them. No memory is taken.
pub(crate) fn begin_anew(pages: &mut SavedPages, spare: &mut SavedPages, count: usize)
    requires { (count ≤ length pages.old) ⊎ (count ≤ length spare.old) }
    ensures { pages.new ≡ replicate count [] }
{
    if count <= pages.len() {
        pages.clear(count);
        return;
    }
    swap(pages, spare);
    pages.clear(count);
    let there = spare.len();
    spare.clear(there);
}

/// Takes other pages for the spare ones, where they are more.
pub(crate) fn keep_longer(spare: &mut SavedPages, other: SavedPages)
    ensures there { length spare.old ≤ length spare.new }
    ensures other { length other ≤ length spare.new }
{
    if spare.len() < other.len() {
        *spare = other;
    }
}
