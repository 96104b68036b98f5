//! The scan of a log: the frames that stand one after the other from its front, and what it finds of a log
//! after a crash.
//!
//! - `reader`: `scan`, which reads the frames of a segment.
//! - `segments`: when a log goes on in another segment.
//! - `laws`: frames that were written are scanned again, and none that could be is left out.
//! - `crash`: what a scan finds of the bytes that a crash leaves.
#![tactic(auto)]

mod crash;
mod laws;
mod reader;
mod segments;

pub use crash::{
    appended_frames_survive_in_order, cut_tail_stays_away, segments_survive_in_order,
    unsynced_cut_brings_a_frame_back,
};
pub use laws::{frames_are_scanned_again, scan_is_longest};
pub use reader::{Scanned, scan};
pub use segments::SEGMENT_SIZE;
