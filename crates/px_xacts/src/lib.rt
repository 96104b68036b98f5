//! The transactions since a store was opened: their numbers and snapshots, what became of each, and the writes that the
//! sweeper has yet to pass. The keys that they hold, their rows and their frames are kept elsewhere.
//!
//! - `xacts`: `Xacts` and its calls. A transaction begins, writes and ends; `horizon` is how far its snapshots let the
//!   sweeper go, and `due` and `swept` take it there; `low` and `floor` say from where on a restart needs the log;
//!   `standing` says what became of the transaction that wrote a slot; `counting` tells how many are open, and how many writes wait.
//! - `transaction`: what is known of an open transaction, of one that ended, and of a write that isn't swept.
//! - `write`: where a write stands. `answers`: what a begin is answered, and what is due.
//! - `laws`: nothing that the low mark is kept for lies below it.
//!
//! `specs/Transactions` says what each call answers and leaves; `specs/Sound` what holds at every time.
#![tactic(auto)]

mod answers;
mod laws;
mod transaction;
mod write;
mod xacts;

pub use answers::{Begun, Due};
pub use laws::low_is_least;
pub use transaction::{Outcome, Start, Transaction, Unswept};
pub use write::{WriteAt, WriteAtList};
pub use xacts::Xacts;
