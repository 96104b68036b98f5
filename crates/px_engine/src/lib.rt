//! The engine as contracts see it: the machine that it works for, and how far its log is written and synced; what each
//! step makes of it, what it counts of itself, and what is told of it.
//!
//! - `census`: the numbers that a store counts, and the marks of its log.
//! - `texts`: the line of these numbers.
//! - `laws`: what holds of an engine after many steps.
//!
//! The definitions: `specs/Engine` the engine and its steps, `specs/Frames` how many frames a step adds, `specs/Counts` the
//! numbers of a machine and of a log, `specs/Requests` what a script's lines ask for and are answered, `specs/Texts` the line
//! of the numbers.
#![tactic(auto)]

mod census;
mod laws;
mod texts;

pub use census::{Census, Marks};
pub use laws::{requests_are_steps, steps_of_calls_are_calls, what_was_published_stays};
pub use texts::stat_text;
