//! What an opening tidies of a store.
//!
//! The cells of a store that is opened again are what its log gives, so their chains have versions that nobody will see: those
//! of transactions that were open or rolled back, those behind the newest one that is done, and deletions. In each chain the
//! newest version that is done stays, where it is a row. Each other one is unlinked by a frame of its own, table by table, row
//! by row, and within a chain the oldest first, so that no older version shows in between.
//!
//! - `done`: `Done`, the stored numbers that are done.
//! - `tidying`: `versions_to_tidy`, the versions of a row that go, each an `Unneeded`; `next_row`, the used rows in their order.
//! - `laws`: the unlinks of these versions may follow one after the other, leave each row that has one with a single version, and
//!   show the same rows.
//!
//! `specs/Kept` says which version stays and in which order the others go, `specs/Steps` has the steps that tidy a row, a table
//! and a store, and what they leave.
#![tactic(auto)]

mod done;
mod laws;
mod tidying;

pub use done::Done;
pub use laws::{
    a_row_is_tidied, a_store_is_tidied, a_table_is_tidied, each_step_may_follow,
    rows_between_have_no_steps, tidying_shows_the_same,
};
pub use tidying::{Unneeded, next_row, versions_to_tidy};
