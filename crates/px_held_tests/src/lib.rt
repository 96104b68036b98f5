//! Tests of the tables as a core sees them: rows of a small table, found and read by two snapshots, and a version that an opening unlinks.
#![tactic(auto)]

#[cfg(test)]
mod making;
#[cfg(test)]
mod reading;
#[cfg(test)]
mod tidying;
