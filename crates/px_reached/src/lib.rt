//! What can be reached of a store whose rows lie in cells, from a restart file on, and that nothing of it is freed.
//!
//! Three parts, each kept by itself, say what the log, the table files and the restart have to do with the life of the store. With all of
//! them whatever a crash leaves stands for a front of the life: a number of commits, none that was durable missing, and the rows after so
//! many.
//!
//! - `laws`: that, and that a new store has all three.
//!
//! `specs/Scanned` is the scan of a log in segments, `specs/Reachable` the three parts, `specs/Stands` what files stand for.
#![tactic(auto)]

mod laws;

pub use laws::{a_new_store_is_reachable, what_is_reachable_stands};
