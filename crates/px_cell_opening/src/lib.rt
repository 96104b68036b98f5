//! How a store whose rows lie in cells is opened, behind its restart: the log is read, the cells of all frames are laid over each other,
//! the tables are read and surveyed, what is torn behind the log is cut, and what nobody will see is unlinked.
//!
//! - `opening`: `open_cells`, its two halves, and what was found between them.
//! - `counts`: how many commits were found, and how many frames were laid again.
//! - `error`: `CellsError`, why it gives up.
//! - `laws`: what stands for a store has no damage; what was found of one rests there once its log was cut, begins a life, and goes on once
//!   it was tidied.
//!
//! `specs/Opened` says which store may be opened, what is opened of one, and what is touched meanwhile; `specs/Errors` what an error says
//! and leaves. What the opening has found when it begins to tidy is in `specs/Found`.
#![tactic(auto)]

mod counts;
mod error;
mod laws;
mod opening;

pub use error::CellsError;
pub use laws::what_stands_has_no_damage;
pub use opening::{Cells, open_cells};
