//! What files of cells stand for, what a crash leaves of a store of them, and what an opening finds there.
//!
//! No code. `specs/Standing` is what files stand for; `specs/Images` what all that a crash may leave of a moment stands for;
//! `specs/Settled` a site that a run may leave; `specs/Found` what an opening finds there, what a machine leaves to be found, and that it
//! can be; `specs/Naming` the steps that name each version which they take; and `specs/Touching` the files that a run may touch.
//!
//! - `laws`: files stand for one store, in which one thing is found; what stands can be found, and what is found stands; what a crash
//!   leaves of a settled site is settled, also where a run has touched its own files since; a site on which a machine's store lasts is a
//!   settled store with all that the machine has committed; and what is found in a store that was just made.
//! - `calls`: what is left can be found from the opening on, call by call and sweep by sweep.
//! - `moments`: what a store stands for stays while its files are synced, its log is cut, and something is told.
#![tactic(auto)]

mod calls;
mod laws;
mod moments;

pub use calls::{what_can_be_found_goes_on, what_was_opened_can_be_found};
pub use laws::{
    a_new_store_is_found, a_settled_site_is_one_file, what_a_crash_leaves_is_settled,
    what_is_found_is_one, what_is_found_stands, what_is_read_begins, what_lasts_is_settled,
    what_lasts_stands, what_own_files_leave_is_settled,
};
pub use moments::{
    a_cut_leaves_what_stands, a_sync_leaves_what_stands, telling_leaves_what_stands,
};
