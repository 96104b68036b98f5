//! The rows of a store that are committed now, read off the cells one after the other. Nothing here writes a file.
//!
//! - `rows`: `next_row`, the first row past a key, in order of table and key.
//! - `seeing`: what is committed now of one row.
//!
//! `specs/Rows` says what the first row past a key is, `specs/Walking` which keys a walk has passed.
#![tactic(auto)]

mod rows;
mod seeing;

pub use rows::next_row;
