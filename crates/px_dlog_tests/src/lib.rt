//! Tests of the data logs over a site in memory: parts appended and read again, a full log closed, and calls that fail.
#![tactic(auto)]

#[cfg(test)]
mod tests;
