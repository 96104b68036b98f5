//! Tests of free lists and chains: cells whose bytes were written by hand from the format's tables, and each call that takes
//! memory once where there is enough.
#![tactic(auto)]

#[cfg(test)]
mod free_lists;
#[cfg(test)]
mod links;
#[cfg(test)]
mod views;
