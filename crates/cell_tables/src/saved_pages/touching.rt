//! Pages kept before they change.

ghost use Rattle.std.specs.Prelude.{◌≡◌, ◌⊎◌, ◌+◌, ◌*◌, ◌<◌, ◌≤◌, [], ℕ, length};
ghost use Rattle.cell_tables.specs.saved_pages.Overlay.{before, kept_at, page_at, IsCovered};

use crate::saved_pages::pages::SavedPages;

/// Keeps the pages in which these bytes stand that are about to change, where the old bytes have such a page and
/// nothing was kept of it yet. The old bytes stay. No memory is taken.
pub fn touch(pages: &mut SavedPages, bytes: &[u8], from: usize, to: usize)
    requires covered { IsCovered pages.old (length bytes.now) }
    requires within { to ≤ length bytes.now }
    ensures before { before pages.new bytes.now ≡ before pages.old bytes.now }
    ensures count { length pages.new ≡ length pages.old }
    ensures covered { IsCovered pages.new (length bytes.now) }
    ensures kept { (k : ℕ) → 4096 * k < to → from < 4096 * k + 4096 → k < length pages.old → kept_at pages.new k ≡ [] → ⊥ }
    ensures others { (k : ℕ) → (4096 * k + 4096 ≤ from) ⊎ (to ≤ 4096 * k) → kept_at pages.new k ≡ kept_at pages.old k }
{
    for k in from / 4096..(to + 4095) / 4096 {
        touch_page(pages, bytes, k);
    }
}

/// Keeps a page, where the old bytes have one of this number and nothing was kept of it yet.
fn touch_page(pages: &mut SavedPages, bytes: &[u8], k: usize)
    requires { IsCovered pages.old (length bytes.now) }
    ensures before { before pages.new bytes.now ≡ before pages.old bytes.now }
    ensures count { length pages.new ≡ length pages.old }
    ensures covered { IsCovered pages.new (length bytes.now) }
    ensures kept { k < length pages.old → kept_at pages.new k ≡ [] → ⊥ }
    ensures stays { (j : ℕ) → kept_at pages.new j ≡ [] → kept_at pages.old j ≡ [] }
    ensures others { (j : ℕ) → (j ≡ k → ⊥) → kept_at pages.new j ≡ kept_at pages.old j }
{
    if k >= pages.len() {
        return;
    }
    match pages.kept(k) {
        Some(_) => {}
        None => pages.keep(k, page_of(bytes, k)),
    }
}

/// The page of that number.
fn page_of(bytes: &[u8], k: usize) -> &[u8]
    requires { 4096 * k + 4096 ≤ length bytes.now }
    ensures value { result.now ≡ page_at k bytes.now }
    ensures long { length result.now ≡ 4096 }
{
    &bytes[4096 * k..4096 * k + 4096]
}
