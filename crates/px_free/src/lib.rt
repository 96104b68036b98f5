//! The free lists of a table: which slot or row pointer is taken next, and giving one back.
//!
//! A table numbers its slots from 1, and its row pointers too. The header counts those that were ever used and heads the list
//! of those that are free, in which each names the one behind it. The one that was given back last is taken first, and a
//! number that was never used is taken only where none is free.
//!
//! - `slots`, `rows`: `take_slot`, `give_slot`, `take_row`, `give_row`. They compute a header and take no memory; what the
//!   cells of the places say, the caller writes.
//! - `laws`: what is given back is taken next, and leaves all as it was.
//!
//! `specs/Places` has what both lists are.
#![tactic(auto)]

mod laws;
mod rows;
mod slots;

pub use laws::last_in_first_out;
pub use rows::{give_row, take_row};
pub use slots::{give_slot, take_slot};
