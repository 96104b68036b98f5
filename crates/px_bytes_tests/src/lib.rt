//! Tests of the crates that read and write bytes: worked examples whose bytes and sums were computed
//! by a program outside the repository, and each call that takes memory once where there is enough.
#![tactic(auto)]

#[cfg(test)]
mod bounds;
#[cfg(test)]
mod fields;
#[cfg(test)]
mod frames;
#[cfg(test)]
mod restarts;
#[cfg(test)]
mod scans;
#[cfg(test)]
mod sums;
