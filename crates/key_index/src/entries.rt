//! The entries of a subkey list, read where they are.

ghost use Rattle.std.specs.Prelude.{◌≡◌, ◌<◌, length, slice_index};
ghost use Rattle.std.specs.Result.{IsOk};
ghost use Rattle.hive_model.specs.Lists.{list_at};
ghost use Rattle.key_index.specs.Lists.{entry_size, lists_lists, offsets_of};

use nt_bytes::{u16_at, u32_at};

/// How many entries the list in a payload has.
pub(crate) fn entry_count(list: &[u8]) -> usize
    requires { IsOk (list_at list.now) }
    ensures { result ≡ length (offsets_of list.now) }
{
    usize::from(u16_at(list, 2))
}

/// Whether the list in a payload lists lists.
pub(crate) fn is_list_of_lists(list: &[u8]) -> bool
    requires { IsOk (list_at list.now) }
    ensures { result ≡ lists_lists list.now }
{
    u16_at(list, 0) == 0x6972
}

/// How many bytes an entry of the list in a payload has.
fn entry_len(list: &[u8]) -> usize
    requires { IsOk (list_at list.now) }
    ensures { result ≡ entry_size list.now }
{
    let sign = u16_at(list, 0);
    if sign == 0x696c {
        return 4;
    }
    if sign == 0x6972 {
        return 4;
    }
    8
}

/// The offset in one entry of the list in a payload.
#[tactic(auto, using(crate::proofs::Entered::entry_is, crate::proofs::Entered::entry_inside))]
pub(crate) fn entry(list: &[u8], place: usize) -> u32
    requires read { IsOk (list_at list.now) }
    requires inside { place < length (offsets_of list.now) }
    ensures { result ≡ slice_index (offsets_of list.now) place }
{
    u32_at(list, 4 + entry_len(list) * place)
}
