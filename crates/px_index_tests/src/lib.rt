//! Tests of entries in memory, against lists written down by hand: what a step leaves, and what a walk meets.
#![tactic(auto)]

#[cfg(test)]
mod making;
#[cfg(test)]
mod steps;
#[cfg(test)]
mod walking;
