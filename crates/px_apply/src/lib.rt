//! The cells of a change, written to the table files of any site: a header and slots into the record file of their table,
//! row pointers into its row file (docs/FORMATS.md, 'File names', 'Cells').
//!
//! - `write`: `write_cells`, one write for each cell, in their order.
//! - `laws`: what the files then hold, that a change may be written again, and which bytes a crash may find touched.
//!
//! specs/: `Writes` (the writes, and a site after them), `Contents` (which bytes the files have), `Moments` (what held at
//! each moment within, and what that touches), `Examples`. proofs/: `Bytes` (one write), `Laid` (cells one over the other),
//! `Apart` (the cells of a change), `Touched` (moments), `Steps` (the loop).
#![tactic(auto)]

mod laws;
mod write;

pub use laws::{
    a_row_pointer_in_an_empty_file, cells_are_there, contents_after_cells, files_of_a_change,
    touched_in_the_end, touches_cells_only, what_a_crash_leaves, what_writes_leave, written_again,
};
pub use write::write_cells;
