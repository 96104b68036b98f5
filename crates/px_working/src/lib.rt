//! A machine at work on a store whose rows lie in cells: what goes on with each step of its calls, and what a crash leaves meanwhile.
//!
//! No code. At each moment the life of the store *lasts* (`specs/Lasts`): whatever a crash then leaves stands for what the machine
//! published by a number of commits that has each acknowledged one. Between calls the machine also *works* there (`specs/Works`): its
//! chains lie in the cells of the last front. A call that is answered adds a step that *follows* (`specs/Follows`), or leaves the
//! cells as they are.
//!
//! - `growing`: a life with one frame more, and what of it is as it was.
//! - `lasting`: that what lasts stands, and goes on with each step, each frame appended and each sync.
//! - `beginning`: a fresh machine, in what an opening found and in a new store.
//! - `calls`: which step follows with each call of a session and with each step of the sweeper, that the store lasts at each moment of
//!   it, and that the machine works on after it.
#![tactic(auto)]

mod beginning;
mod calls;
mod growing;
mod lasting;

pub use beginning::{a_new_store_lasts, what_begins_works, what_is_found_lasts};
pub use calls::{
    a_commit_goes_on, a_rollback_goes_on, a_sweep_goes_on, a_write_goes_on, other_calls_go_on,
};
pub use growing::a_life_has_a_frame_more;
pub use lasting::{
    a_crash_leaves_what_lasts, a_step_lasts, a_sync_lasts, another_machine_lasts,
    each_commit_has_a_frame, the_log_keeps_its_fronts,
};
