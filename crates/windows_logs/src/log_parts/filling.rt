//! Files as whole sectors.

ghost use Rattle.std.specs.Prelude.{◌≡◌, ◌%◌, ◌*◌, ◌/◌, ◌<◌, length, OnOk};
ghost use Rattle.windows_logs.specs.log_parts.Filled.{filled};

use nt_bytes::Bytes;
use std::alloc::AllocError;

/// Fills a file up with zeros to whole sectors of 512 bytes.
#[tactic(auto, unfolding(crate::specs::log_parts::Filled::filled))]
pub fn fill(file: &mut Bytes) -> Result<(), AllocError>
    ensures filled { OnOk result (file.new ≡ filled file.old) }
    ensures whole { OnOk result (512 * (length file.new / 512) ≡ length file.new) }
{
    file.append_zeros((512 - file.len() % 512) % 512)
}
