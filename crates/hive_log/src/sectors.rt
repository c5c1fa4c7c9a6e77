//! Sectors of bytes, and the log's base block.

ghost use Rattle.std.specs.Prelude.{◌≡◌, ◌≤◌, ◌+◌, ◌*◌, length};
ghost use Rattle.hive_model.specs.Recovery.{sector};

use regf_base::BaseBlock;

/// The sector of that number, 512 bytes.
#[tactic(auto, unfolding(hive_model::specs::Recovery::sector))]
pub(crate) fn sector_of(bytes: &[u8], i: usize) -> &[u8]
    requires { 512 * i + 512 ≤ length bytes.now }
    ensures value { result.now ≡ sector bytes.now i }
    ensures long { length result.now ≡ 512 }
{
    &bytes[512 * i..512 * i + 512]
}

/// Copies the sector of that number.
pub fn copy_sector(bytes: &[u8], i: usize, into: &mut [u8; 512])
    requires { 512 * i + 512 ≤ length bytes.now }
    ensures { into.new ≡ sector bytes.now i }
{
    into.copy_from_slice(sector_of(bytes, i));
}

/// The base block as the log has it: with file type 1.
pub fn logged_block(base: &BaseBlock) -> BaseBlock
    ensures { result ≡ record base.now { kind = 1 } }
{
    BaseBlock { kind: 1, ..*base }
}
