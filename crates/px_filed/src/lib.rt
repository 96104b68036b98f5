//! What the table files hold of a life: cells that rest on the disk, and what a crash leaves of them under the frames of the log.
//!
//! The write-ahead rule has this form: no table file has a cell of a frame that isn't durable, and the files never decide about a cell
//! that a frame from the restart's `redo` on has. So whatever a crash leaves of the files, with these frames laid over it, has the cells
//! of each front that the log may be left with.
//!
//! Each table file rests up to a frame of its own: what the store has in it before that frame is on the disk, unless a later frame has it.
//!
//! - `laws`: both, and what they take. `specs/Filed` has the definitions.
#![tactic(auto)]

mod laws;

pub use laws::{each_file_rests, files_lie_under_their_frames};
