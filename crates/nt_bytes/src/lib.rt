//! Lists of bytes, of UTF-16 units and of names; folding; little-endian fields; strings in values;
//! lines and words of texts; the kinds of fault; the versions of the format.
#![tactic(auto)]

mod bytes;
mod fault;
mod fields;
mod folding;
mod names;
mod rows;
mod strings;
mod text;
mod units;
mod version;

pub use bytes::Bytes;
pub use fault::{HiveFault, HiveFaultKind, ReadStop};
pub use fields::{put_u16, put_u32, put_u64, u16_at, u32_at, u64_at};
pub use folding::{compare_folded, fold, same_folded};
pub use names::Names;
pub use rows::Row;
pub use strings::{multi_sz, narrow, sz, wide};
pub use text::{are_digits, first_line, hex_digit, is_named, trim, value_of};
pub use units::Units;
pub use version::HiveVersion;
