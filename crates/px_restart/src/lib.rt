//! Restart files: where recovery begins to read, and how far what it reads must reach. A store has two
//! of them that are written in turn, so that one is whole while the other is written; the newer one
//! that checks counts (docs/FORMATS.md, 'Restart file').
//!
//! - `restart`: `Restart`, what a restart file says, and the bounds of its fields.
//! - `text`: `restart_bytes`, the bytes of a restart file.
//! - `file`: the fields of a file as they stand there, and whether the file checks.
//! - `choice`: `pick`, which of two files counts.
//! - `laws`: what is written is read again, and bytes are read in one way.
#![tactic(auto)]

mod choice;
mod file;
mod laws;
mod restart;
mod text;

pub use choice::pick;
pub use laws::{one_reading, read_is_written, written_is_read};
pub use restart::{RESTART_SIZE, Restart};
pub use text::{MAGIC, VERSION, restart_bytes};
