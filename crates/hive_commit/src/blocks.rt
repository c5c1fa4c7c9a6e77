//! The base blocks that a commit writes.

ghost use Rattle.std.specs.Prelude.{◌≡◌};
ghost use Rattle.hive_commit.specs.Stages.{next_number, opened_of};

use regf_base::BaseBlock;

/// The base block that opens a commit: the first number is the next, modulo 2^32, all else is as before.
pub fn opened_block(base: &BaseBlock) -> BaseBlock
    ensures { result ≡ opened_of base.now }
{
    BaseBlock {
        first: base.first.wrapping_add(1),
        ..*base
    }
}

/// The base block that closes a commit: both numbers are the next, and these are the size of the bins data
/// in bytes and the offset of their root cell.
pub fn closed_block(base: &BaseBlock, size: u32, root: u32) -> BaseBlock
    ensures { result ≡ record base.now { first = next_number base.now.first; second = next_number base.now.first; size = size; root = root } }
{
    let next = base.first.wrapping_add(1);
    BaseBlock {
        first: next,
        second: next,
        root,
        size,
        ..*base
    }
}
