//! What the type of a base block says of its fields.

ghost use Rattle.std.specs.Prelude.{ℕ, ◌<◌, slice_index};
ghost use Rattle.regf_base.specs.Fitting.{NumbersFit, TextsFit};

use crate::BaseBlock;

// A proof knows the range of a number, and the length of an array, from a read of it alone: so each is read.

/// The numbers of a base block fit their places: four bytes each, and eight the stamp. It does nothing; a caller's
/// proof has its clause, whatever was done to get the block.
pub fn numbers_fit(base: &BaseBlock)
    ensures { NumbersFit base.now }
{
    let _first = base.first;
    let _second = base.second;
    let _stamp = base.stamp;
    let _root = base.root;
    let _cluster = base.cluster;
}

/// The name of a base block is 64 bytes and its rest 396. It does nothing either.
pub fn texts_fit(base: &BaseBlock)
    ensures { TextsFit base.now }
{
    are_bytes(&base.name);
    are_bytes(&base.rest);
}

fn are_bytes(bytes: &[u8])
    ensures { (k : ℕ) → slice_index bytes.now k < 256 }
{
    let _length = bytes.len();
}
