//! The input of a run: a source of bytes that may fail at any read, and counts when it does.
//!
//! `Source` is the trait that scripts are read by. Its contract has the bytes that are left, where the source tells
//! them, and how many reads failed. `MemSource` has its bytes in memory and fails where it is told to; `StdinSource`
//! stands over standard input, or over any reader: it counts what it asks, and what it answers are just the bytes that the
//! reader gave, in order, where that tells them.
//!
//! specs/: `Source` (what a read does, and when it may fail), `Memory` (a source in memory), `Asked` (what was asked of
//! standard input). proofs/: `Given` (bytes that come after reads that gave none), `Repeats` (a line, over and over).
#![tactic(auto)]

mod mem_source;
mod source;
mod stdin_source;

pub use mem_source::MemSource;
pub use source::{Source, SourceFault};
pub use stdin_source::StdinSource;
