//! What a store means: rows and writes, sessions and their transactions, and the machine that the store is.
//!
//! The types stand here with their copies; `specs/` has the machine. `Rows` says what writes leave of rows,
//! `Machine` what a store's state is, what a transaction sees of it and how far the sweeper may go, and `Chains`
//! which versions of a row are still needed and how they are counted. docs/MODEL.md explains them on one page.
#![tactic(auto)]

mod bytes;
mod key;
mod limits;
mod machine;
mod row;
mod session;
mod standing;
mod words;
mod write;

pub use bytes::Bytes;
pub use key::KeyOf;
pub use limits::{
    LONGEST_BODY, LONGEST_KEY, LONGEST_SHORT, MOST_BEGINS, MOST_TABLES, MOST_TICKETS,
    MOST_VARIATIONS, MOST_WRITES, SESSIONS, SHORTEST_SHORT, STORED_NUMBERS_END,
};
pub use machine::{Ended, Flat, Open, Variation};
pub use row::{Row, RowList};
pub use session::Session;
pub use standing::Standing;
pub use words::WordList;
pub use write::{Write, Writes};
