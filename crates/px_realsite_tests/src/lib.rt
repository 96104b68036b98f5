//! Tests of what no contract says: that `RealSite` does to a real folder what the disk model says, and what sources give.
//!
//! Each test has a folder of its own name in the folder where it is run, and removes it.
//!
//! - `calls`: calls of a site as rows of a table
//! - `counts`: what a site counts as asked of the system
//! - `contents`: files as they are written, cut, removed and found again
//! - `listings`: which names are listed, and a listing while files come and go
//! - `faults`: which kind of fault each call answers
//! - `locks`: one site at a time has a folder; what a site says of a refusal
//! - `sources`: sources in memory, call by call
#![tactic(auto)]

#[cfg(test)]
mod calls;
#[cfg(test)]
mod contents;
#[cfg(test)]
mod counts;
#[cfg(test)]
mod faults;
#[cfg(test)]
mod folders;
#[cfg(test)]
mod listings;
#[cfg(test)]
mod locks;
#[cfg(test)]
mod sources;
