//! The cells of the table files: what they are, apart from their bytes.
//!
//! A table has one header, slots and row pointers, and each of them is a cell. A row pointer heads a chain of slots, one for
//! each version of its key, the newest first. A free slot and a free row pointer stand on a free list that
//! the header heads. A change of the log is the new bytes of a few cells.
//!
//! - `header`, `pointer`, `slot`: the three kinds of cell. `specs/Form` says which slots a store may have.
//! - `cell`: a cell's bytes with its name, as the log carries them.
//!
//! The format is in docs/FORMATS.md, 'Cells'.
#![tactic(auto)]

mod cell;
mod header;
mod limits;
mod pointer;
mod slot;

pub use cell::{Cell, CellKind, CellList};
pub use header::Header;
pub use limits::{HEADER_SIZE, POINTER_SIZE, SLOT_HEAD_SIZE};
pub use pointer::Pointer;
pub use slot::{Slot, SlotState};
