//! Tests of the log over a site in memory: what is appended and read again, what is damaged, and what a crash or a fault leaves.
#![tactic(auto)]

#[cfg(test)]
mod crashes;
#[cfg(test)]
mod damage;
#[cfg(test)]
mod faults;
#[cfg(test)]
mod logs;
