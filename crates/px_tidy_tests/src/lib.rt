//! Tests of what an opening tidies: chains with the places that go, and a table that is tidied through all its calls.
#![tactic(auto)]

#[cfg(test)]
mod chains;
#[cfg(test)]
mod making;
#[cfg(test)]
mod tidied;
