//! Which open transaction holds which key: what a writer of a key asks before it writes, and what keeps
//! two open transactions from writing one key.
//!
//! - `locks`: `Locks`, the keys that are held, each with the number of its transaction.
//! - `tables`: the holders of each table's keys, a map for a table.
//!
//! `specs/Holders` has what callers see, a finite map from keys to their holders; `specs/Tables` how
//! the tables' maps make it.
#![tactic(auto)]

mod locks;
mod tables;

pub use locks::Locks;
