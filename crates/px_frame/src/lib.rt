//! Frames: how a record stands in the transaction log, with its length, its number and a sum by which a
//! torn or damaged one is told from a whole one (docs/FORMATS.md, 'Frame').
//!
//! - `frame`: `write_frame`, `frame_header` and `read_frame`.
//! - `header`: the numbers in front of a payload, and whether they fit the bytes behind them.
//! - `laws`: what is written is read again, and bytes are read in one way.
#![tactic(auto)]

mod frame;
mod header;
mod laws;

pub use frame::{HEADER_SIZE, frame_header, read_frame, write_frame};
pub use laws::{one_reading, read_is_written, test_is_exact, written_is_read};
