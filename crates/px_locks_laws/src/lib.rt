//! That the keys which open transactions hold are those that they have written, whatever is called.
//!
//! No code: `specs/Keys` says when the holders of keys are a machine's, and what a write takes and an end releases; `laws` that
//! they are it again after each call.
#![tactic(auto)]

mod laws;

pub use laws::{a_writer_may_take_its_key, holders_follow_calls};
