//! The one state behind all session calls, over rows that lie in cells.
//!
//! - `state`: `Core` over any site, and what it keeps. `state/calls`: one call of a session, whichever it is.
//!   `state/reading`: the calls that change no cell; `state/writing`: the writes; `state/ending`: commit and rollback;
//!   `state/sweeping`: a step of the sweeper; `state/counting`: what the store counts of itself; `state/rows`: the rows that are
//!   committed now; `state/logging`: a frame more, and the sync, after whose faults the core is broken.
//! - `error`: why a call gives up, and the status by which that ends a run.
//!
//! The definitions: `specs/Core` when what a core keeps is sound, and which calls may give up for what; `specs/Working` that it
//! works for a machine, and what a session's call answers and leaves, `specs/Sweeping` what a step of the sweeper does, which is all that is said to others; `specs/Serving` what
//! the calls do to the core's own parts; `specs/Errors` what each error turns into.
#![tactic(auto)]

mod error;
mod state;

pub use error::CoreError;
pub use state::{Core, Kept};
