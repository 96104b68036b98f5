//! What session calls are answered, read off the cells of a store's tables, its transactions and the keys that they hold. Nothing
//! here writes a file, and nothing knows a log.
//!
//! - `reading`: `get`, `hold`, `fetch`, `find` and `scan`, each answered as the machine answers it.
//! - `writing`: `may_write`, whether a session's transaction may write a row, and else the refusal.
//! - `caller`: `Caller`, the session that calls and what is known of its transaction; `tickets`: `Tickets`, the rows that `hold` keeps.
//! - `laws`: what tickets keep is what the machine's transactions keep. `rows`: the rows of a table that a reader sees.
//!
//! `specs/Seeing` says that tables, transactions and held keys are those of a machine, `specs/Reading` what a call that reads
//! leaves and answers, `specs/Asking` who calls, `specs/Keeping` what tickets keep, `specs/Writing` who
//! may write.
#![tactic(auto)]

mod caller;
pub mod laws;
mod reading;
mod rows;
mod tickets;
mod writing;

pub use caller::Caller;
pub use reading::{fetch, find, get, hold, scan};
pub use tickets::Tickets;
pub use writing::{Asked, Wants, Writer, may_write};
