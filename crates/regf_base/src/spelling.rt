//! Spelling a base block.

ghost use Rattle.std.specs.Prelude.{◌≡◌, Ok};
ghost use Rattle.hive_model.specs.Base.{Base, IsBase, base_of, base_text, head_text};

use crate::{BaseBlock, checksum};
use nt_bytes::{put_u32, put_u64};

/// Writes the 512 bytes of a base block, with its checksum.
pub fn base_bytes(base: &BaseBlock, into: &mut [u8; 512])
    ensures { into.new ≡ base_text base.now }
{
    into[..48].copy_from_slice(&head(base));
    into[48..112].copy_from_slice(&base.name);
    into[112..508].copy_from_slice(&base.rest);
    let sum = checksum(into);
    put_u32(into, 508, sum);
}

fn head(base: &BaseBlock) -> [u8; 48]
    ensures { result ≡ head_text base.now }
{
    let mut head = [0; 48];
    head[..4].copy_from_slice(b"regf");
    put_u32(&mut head, 4, base.first);
    put_u32(&mut head, 8, base.second);
    put_u64(&mut head, 12, base.stamp);
    put_u32(&mut head, 20, 1);
    put_u32(&mut head, 24, base.minor);
    put_u32(&mut head, 28, base.kind);
    put_u32(&mut head, 32, 1);
    put_u32(&mut head, 36, base.root);
    put_u32(&mut head, 40, base.size);
    put_u32(&mut head, 44, base.cluster);
    head
}

/// A base block whose fields fit and whose checks hold is read back from its spelling.
pub fn what_is_spelled_is_read_back()
    ensures { (base : Base) → IsBase base → base_of (base_text base) base.kind ≡ Ok base }
{}
