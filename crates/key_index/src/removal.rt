//! What remains of a key's lists.

/// The lists of a key without one of its children.
#[derive(Clone, Copy, Debug, PartialEq, Eq)]
pub enum Removal {
    /// The new list begins at this offset.
    List(u32),
    /// No child is left, and so no list.
    Empty,
    /// There is no room for the new lists.
    NoRoom,
}
