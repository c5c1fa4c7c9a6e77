//! The versions of the hive format that are read and written.

/// A version of the hive format (regf), by its minor number.
#[derive(Clone, Copy, Debug, PartialEq, Eq)]
pub enum HiveVersion {
    /// 1.3, of Windows NT 4.0 and 2000: lists of subkeys are written as `lf`, and a value's data are in one cell.
    V3,
    /// 1.5, of Windows XP and later: lists of subkeys are written as `lh`, and data of over 16,344 bytes are in segments.
    V5,
}
