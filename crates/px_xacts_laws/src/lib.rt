//! The transactions of px_xacts are those of the machine, without their rows.
//!
//! - `laws`: a fresh machine's are, and stay so by each step of a session and of the sweeper; what is read of them is read of
//!   the machine.
//!
//! `specs/Mirrors` says what that means. `proofs/Mirroring` and `proofs/Marking` have the same as lemmas, for a crate that
//! keeps a machine's rows beside its transactions.
#![tactic(auto)]

mod laws;

pub use laws::{
    calls_mirror_calls, what_became_of_an_ended_one, what_is_due_is_swept,
    what_is_read_is_the_machines,
};
