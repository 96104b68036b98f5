//! Tests of stores that are opened from the changes of a log: damages at places computed by hand, and a small log that opens.
#![tactic(auto)]

#[cfg(test)]
mod damages;
#[cfg(test)]
mod logs;
#[cfg(test)]
mod opens;
