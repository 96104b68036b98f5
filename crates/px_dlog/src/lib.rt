//! Data logs: parts of long rows, each with its length, a sum, and the table and slot that it is of (docs/FORMATS.md, 'Part of a
//! data log').
//!
//! - `part`: `part_header`, what stands in front of a part's bytes, and `check_part`, which reads a part.
//! - `body`: what of a body stands in its slot, and what in parts.
//! - `header`: the numbers in front of a part's bytes, and whether they fit the bytes behind them.
//! - `laws`: what is written is read again, bytes are read in one way, what was appended is read, and a part that rests goes on to
//!   rest and is left by each crash.
//! - `dlogs`: `Dlogs`, the data logs over a site. `PartRef` names a part in them, and `LogError` says why a call did nothing.
//! - `inventory`: which logs there are; `finding`: which of them lie on a site.
//!
//! specs/: `Body` (its parts), `Part` and `Header` (one part), `Logs` (the logs, which parts they have, and which of these rest), `Inventory` (the logs
//! as they are kept), `Finding` (as a listing finds them), `Errors`.
#![tactic(auto)]

mod body;
mod dlogs;
mod error;
mod finding;
mod header;
mod inventory;
mod laws;
mod part;
mod part_ref;

pub use body::{a_body_is_its_head_and_parts, head_of, part_of};
pub use dlogs::Dlogs;
pub use error::LogError;
pub use inventory::LOG_SIZE;
pub use laws::{
    a_removal_leaves_the_others, one_reading, read_is_written, what_lies_is_read,
    what_rested_rests, what_rests_is_left, what_was_appended_is_read, written_is_read,
};
pub use part::{HEADER_SIZE, LONGEST_PART, check_part, part_header, part_size};
pub use part_ref::PartRef;
