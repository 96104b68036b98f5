//! What the sessions of a store have in memory: their transactions, the keys that these hold, the rows that their tickets keep, and
//! how many commits the store has made. Nothing here reads or writes a file, and nothing knows a table or a log.
//!
//! - `active`: `Active`, and how a transaction begins. `active/writing`: a write is noted, `NewWrite`, and taken back where its
//!   frame couldn't be appended. `active/ending`: who writes, and an end. `active/sweeping`: what is swept next.
//!   `active/counting`: how many transactions are open, and how many writes wait.
//! - `laws`: which calls change nothing of it.
//!
//! `specs/Active` says when it is what a machine's sessions have, and what is left where a write is noted and where a transaction ends.
#![tactic(auto)]

mod active;
mod laws;

pub use active::{Active, NewWrite};
pub use laws::reads_leave_what_is_active;
