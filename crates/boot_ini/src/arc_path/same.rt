//! Whether two paths are the same.

ghost use Rattle.std.specs.Prelude.{◌≡◌};
ghost use Rattle.boot_ini.specs.arc_path.Same.{same_kinds, same_paths};

use crate::arc_path::arc::{Arc, ArcKind};
use nt_bytes::is_named;

fn is_same_kind(a: ArcKind, b: ArcKind) -> bool
    ensures { result ≡ same_kinds a b }
{
    match a {
        ArcKind::Multi => matches!(b, ArcKind::Multi),
        ArcKind::Scsi => matches!(b, ArcKind::Scsi),
        ArcKind::Signature => matches!(b, ArcKind::Signature),
    }
}

/// Whether the two paths mean one directory: all numbers and the kind are equal, and the
/// directories but for the case of `a` to `z`.
pub fn same_arc(a: &Arc, b: &Arc) -> bool
    ensures { result ≡ same_paths a.now b.now }
{
    is_same_kind(a.kind, b.kind)
        && a.controller == b.controller
        && a.disk == b.disk
        && a.rdisk == b.rdisk
        && a.partition == b.partition
        && is_named(a.dir.as_slice(), b.dir.as_slice())
}
