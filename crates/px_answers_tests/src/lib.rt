//! Tests of what is read off the cells of a small store: what session calls are answered there, the refusals of writes, and the
//! rows that are committed now.
#![tactic(auto)]

#[cfg(test)]
mod committed;
#[cfg(test)]
mod making;
#[cfg(test)]
mod reading;
#[cfg(test)]
mod writing;
