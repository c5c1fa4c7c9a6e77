//! Edits as data.

use crate::key::Key;
use nt_bytes::{Bytes, Names, Row, Units};

/// One edit. `docs/format.md` says what each does and when it is refused.
#[derive(Drop)]
pub enum TreeStep {
    /// The key at the path has this value, in the place of one with this name or as its last.
    SetValue {
        path: Names,
        name: Units,
        kind: u32,
        bytes: Bytes,
    },
    /// The key at the path loses this value.
    DeleteValue {
        path: Names,
        name: Units,
    },
    /// The key at the path has a child of this name, the one that is there or a new one.
    MakeKey {
        parent: Names,
        name: Units,
    },
    /// The key at the path goes, with all below it.
    DeleteKey {
        path: Names,
    },
    /// A child of the root stands there under another name too.
    CopyChild {
        from: Units,
        to: Units,
    },
    /// The root has this key as a child, under this name.
    AddChild {
        name: Units,
        key: Key,
    },
}

/// Edits in order.
pub type Steps = Row<TreeStep>;
