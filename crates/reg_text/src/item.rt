//! What one line says.

use nt_bytes::{Bytes, Names, Units};

/// A value whose bytes go on in the next line, and what was written of them.
#[derive(Drop)]
pub struct Begun {
    pub name: Units,
    pub kind: u32,
    pub text: Units,
}

/// What a line says.
#[derive(Drop)]
pub enum LineItem {
    /// Nothing: it is empty or a comment.
    Nothing,
    /// The keys of the path are made, and the values that follow are the last one's.
    InKey {
        path: Names,
    },
    /// The key goes.
    NoKey {
        path: Names,
    },
    /// The value has this type and these data.
    Named {
        name: Units,
        kind: u32,
        bytes: Bytes,
    },
    /// The value goes.
    NoValue {
        name: Units,
    },
    /// The bytes of a value go on in the next line.
    GoesOn {
        begun: Begun,
    },
}
