//! What an opening does with the tables that it found: the number of the next transaction, and the versions that nobody will see, each
//! unlinked by a frame of its own.
//!
//! - `numbers`: `next_number`, and `done_by`, who is done.
//! - `tidying`: `tidy`, table by table, row by row, the oldest version first; and the sync behind the last frame.
//! - `error`: `TidyError`, why it gives up.
//!
//! `specs/Opening` says what holds of the site, the tables and the log meanwhile, and what each call does to that; `specs/Going` which
//! versions may go; `specs/Numbers` has the least numbers past others, `specs/Errors` the causes.
#![tactic(auto)]

mod error;
mod numbers;
mod tidying;

pub use error::TidyError;
pub use numbers::{done_by, next_number};
pub use tidying::tidy;
