//! The life of a store: the frames of its log as steps from what the opening found.
//!
//! The frames before `start` were read by the opening; from there on each is a step. A front of a life, the frames below some number, is
//! a store: it lies at its places and shows the rows after its commits. What a crash leaves, what table files hold and what an opening
//! finds are said of it, so none of these has to speak of another.
//!
//! - `laws`: fronts, a life that grows, a store that was just made, what an opening found, who is done in a front, and two runs of a
//!   small store.
//!
//! The definitions: `specs/Life` a life; `specs/Found` what an opening found, as a life; `specs/Front` who is done in a front, and how
//! many commits it has; `specs/Extends` places that have all that others have; `specs/Laid` the cells of changes; `specs/Example` a
//! store that was just made, and two runs of it.
#![tactic(auto)]

mod laws;

pub use laws::{
    a_front_shows, a_life_begins, a_life_grows, a_life_in_two_runs, a_new_store_is_a_life,
    an_opening_knows_who_is_done, commits_go_on, done_goes_on, fronts_hold,
    more_places_open_to_the_same,
};
