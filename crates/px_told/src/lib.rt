//! What calls tell: the writes of transactions, and how these ended.
//!
//! Whatever a store keeps in its files, what its calls did is a list of changes. What the list says of rows, of commits and of
//! transactions is said here, over rows and writes alone.
//!
//! - `change`: `Change`, a write, a commit or a rollback.
//! - `laws`: what longer lists say, two runs after each other, and a list of which only a front is left.
//!
//! The definitions: `specs/Writes` the writes of a transaction and the rows after all that committed; `specs/Commits` the numbers of
//! commits; `specs/Changes` whose a change is.
#![tactic(auto)]

mod change;
mod laws;

pub use change::Change;
pub use laws::{
    a_front_with_each_commit_has_all, commits_are_numbered_on, longer_lists, rows_after_runs,
};
