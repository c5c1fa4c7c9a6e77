//! The numbers of the key `Select`, read from the hive's cells.

ghost use Rattle.std.specs.Prelude.{◌≡◌, IfOk};
ghost use Rattle.std.specs.Option.{unwrap_or};
ghost use Rattle.hive_look.specs.Places.{found_dword};
ghost use Rattle.start_model.specs.Sets.{select_numbers_of};

use hive_edit::HiveBytes;
use nt_bytes::Names;
use nt_names::startup_names::{CURRENT, DEFAULT, FAILED, LAST_KNOWN_GOOD};
use select_keys::{SelectNumbers, select_path};
use std::alloc::{AllocError, Global};

/// A number of the key at the path, 0 where it is absent or no DWORD.
fn number_in(hive: &HiveBytes, path: &Names, name: &[u16]) -> u32
    ensures { result ≡ unwrap_or (found_dword path.now name.now hive.now.tree) 0 }
{
    hive.dword(path, name).unwrap_or(0)
}

/// The four numbers of the hive's key `Select`, each 0 where it is absent or no DWORD.
pub fn select_numbers(alloc: Global, hive: &HiveBytes) -> Result<SelectNumbers, AllocError>
    ensures { IfOk result (λ numbers. numbers ≡ select_numbers_of hive.now.tree) }
{
    let path = select_path(alloc)?;
    Ok(SelectNumbers {
        current: number_in(hive, &path, &CURRENT),
        default: number_in(hive, &path, &DEFAULT),
        failed: number_in(hive, &path, &FAILED),
        good: number_in(hive, &path, &LAST_KNOWN_GOOD),
    })
}
