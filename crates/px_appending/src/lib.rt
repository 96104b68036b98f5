//! A frame goes onto the log, and then its cells over the tables. Which step may follow, and for which machine, is said by the caller.
//!
//! - `appending`: `append_version` for a version that is prepared, `append_unlinked` for versions that go with a sweep, `append_end` for
//!   a commit or a rollback, and `flush`, which makes all frames durable.
//! - `fields`: that what is prepared fits the fields of its cells.
//!
//! `specs/Appending` says what that does to the lives of the store at each moment, `specs/Versions` which version may have its frame,
//! `specs/Unlinks` which versions may go, `specs/Ends` which end may be told.
#![tactic(auto)]

mod appending;
mod fields;

pub use appending::{append_end, append_unlinked, append_version, flush};
