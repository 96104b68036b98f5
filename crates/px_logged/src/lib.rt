//! What the calls of sessions add to the transaction log, without a site.
//!
//! `laws` say that what the calls add to the log is what they did to the machine, so that the log alone has the commits
//! and the rows; and that what was published stays.
//!
//! The definitions: `specs/Logged` what a call adds; `specs/Recounting` when a log tells what a machine did; `specs/Growing` what
//! calls leave as it was. `proofs/Adding` has what each call adds as an equation.
#![tactic(auto)]

mod laws;

pub use laws::{calls_add_what_they_did, what_opens_is_its_log, what_was_published_stays};
