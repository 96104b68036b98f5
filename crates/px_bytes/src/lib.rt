//! The bytes that every file of a store is made of: numbers as big-endian bytes, written at the end of
//! a buffer and read from the front of a slice, and the sum by which a torn or damaged piece is told
//! from a whole one (docs/FORMATS.md, 'Numbers' and 'The sum').
//!
//! - `sum`: `fnv`, and `fnv_on` for a sum over several pieces.
//! - `fields`: `Fields`, a reader that takes a piece field by field.
//! - `put`: `put_u8` to `put_u64`, which append one field.
//! - `limits`: how long a payload may be, and below which numbers records stay.
//! - `laws`: the published sums.
#![tactic(auto)]

mod fields;
mod laws;
mod limits;
mod put;
mod sum;

pub use fields::Fields;
pub use laws::known_sums;
pub use limits::{LONGEST_PAYLOAD, NUMBER_LIMIT, SHORTEST_PAYLOAD};
pub use put::{put_u8, put_u16, put_u32, put_u64};
pub use sum::{FNV_OFFSET, FNV_PRIME, fnv, fnv_on};
