//! Tests of the site in memory: worked examples whose outcomes were written down by hand.
//!
//! `calls` makes the calls of a table, `crashes` has what a crash leaves at chosen moments, `failures` the calls that fail, and `listing` the
//! order of files.
#![tactic(auto)]

#[cfg(test)]
mod calls;
#[cfg(test)]
mod crashes;
#[cfg(test)]
mod failures;
#[cfg(test)]
mod listing;
