//! The rows that the cells of the table files show.
//!
//! The table files hold chains of versions. A store shows, of each chain, the first version, the newest first, whose transaction
//! is done: its row, or none where it is a deletion. What is done is a question put to the stored number of a transaction, so one
//! set of cells shows the rows before and after a commit. A body that is too long for its slot goes on in a data log, and what lies
//! there is a second question, put to the reference in the slot. Nothing here runs.
//!
//! - `laws`: what a link, a commit, an unlink and a move do to the rows that are shown, and to what is known of a transaction's
//!   writes.
//!
//! `specs/Tables` has the tables of a store, `specs/Parts` the parts of long bodies, `specs/Shown` says what the tables show,
//! `specs/Writes` what a transaction wrote and that it stands in front, `specs/Changes` what tables are after a link or an unlink,
//! `specs/Moves` after a part was moved.
#![tactic(auto)]

mod laws;

pub use laws::{
    a_chain_at_four_moments, a_commit_shows_its_writes, a_first_row_is_shown,
    a_key_that_was_not_written, a_long_body_goes_on_in_a_log, a_move_shows_the_same,
    a_write_that_is_linked, an_unlink_leaves_the_writes_of_others, an_unlink_shows_the_same,
    no_cells_show_no_rows, only_numbers_in_chains_are_asked, only_references_in_chains_are_asked,
    rows_shown_are_one, tables_stay_sound, the_newest_done_is_shown,
    what_is_not_done_shows_nothing, what_may_be_unlinked,
};
