//! How the chains of a machine move with each call, and that reading a chain gives the view.
//!
//! - `laws`: what holds of every machine that calls and sweeps lead to; what a reader sees of a chain; how a write, an end and a
//!   step of the sweeper change it; that a conflict stands in it.
//!
//! `specs/Kept` says what holds of every such machine, `specs/Reading` what is read of a chain, `specs/Sweeping` what the sweeper
//! leaves of one. Each function is a law; none of them does anything.
#![tactic(auto)]

mod laws;

pub use laws::{
    a_conflict_stands_in_the_chain, a_sweep_moves_the_base, a_write_is_the_newest_variation,
    calls_that_write_nothing_keep_chains, chains_begin_as_rows, each_reader_sees_its_own,
    machines_are_kept, what_became_of_a_writer, what_is_seen_is_the_view,
};
