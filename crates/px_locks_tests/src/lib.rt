//! Tests of the locks: steps with the holder that each leaves, written down by hand, and many keys of
//! two transactions.
#![tactic(auto)]

#[cfg(test)]
mod steps;
