//! What each front of a log of cell changes shows.
//!
//! A log of cells has a change for each version that is linked, each commit, each rollback, each unlink and each part of a long
//! body that is moved. Read as steps from a base, which is a store whose transactions have all ended, any front of it leaves sound
//! cells, and they show the rows after the writes of the transactions that commit in that front. What lies in the data logs is a
//! question that only writes and moves ask. Nothing here runs.
//!
//! - `laws`: what each history leaves, what each front of it shows, and which cells its changes have.
//!
//! `specs/Store` has a store as a front of its log leaves it, `specs/Base` a store from which steps may go on, `specs/Steps` which
//! steps may follow and what they leave, `specs/Writers` that rows have one writer at a time, `specs/Told` what they tell of writes
//! and ends, `specs/Written` the cells that they write and the changes that the log may have for them, `specs/Fitting` which of them
//! fit their fields and a frame.
#![tactic(auto)]

mod laws;

pub use laws::{
    a_history_shows_what_it_tells, a_link_leaves_one_layout, a_new_transaction_is_open,
    a_small_history, a_step_agrees, bases, cells_of_a_step, commits_stay_numbered, done_is_told,
    fronts_are_histories, histories_are_sound, histories_grow, one_writer_of_a_row,
    only_references_of_steps_are_asked, what_a_frame_may_hold,
};
