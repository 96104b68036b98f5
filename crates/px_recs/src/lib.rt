//! The bytes of the cells of the table files, both ways: a header and the slots in a record file, the row pointers in a row
//! file (docs/FORMATS.md, 'Cells'). Bytes are read as a value exactly where they are its text.
//!
//! - `header`, `pointer`, `slot`: a reader and a writer of each kind of cell. `specs/Text` has the texts.
//! - `place`: `table_file`, `cell_size` and `cell_place`: in which file a cell stands, how long it is and where in the file.
//! - `raw`: the fields of a slot as they stand in its bytes, whatever they are.
//! - `parts`: a slot whose key and short part still stand in the bytes read, and whether it is in the form.
//! - `padding`: fields that are zero past the end of what they hold.
//! - `code`: the codes of a slot's state and of a row pointer's use.
//! - `laws`: what is written is read again, bytes are read in one way, cells don't overlap.
#![tactic(auto)]

mod code;
mod header;
mod laws;
mod padding;
mod parts;
mod place;
mod pointer;
mod raw;
mod slot;

pub use code::{DELETION_STATE, FREE_POINTER, FREE_STATE, ROW_STATE, USED_POINTER};
pub use header::{read_header, write_header};
pub use laws::{
    cells_are_apart, cells_follow_one_another, one_reading, read_is_written, sizes_of_texts,
    written_is_read,
};
pub use place::{cell_place, cell_size, table_file};
pub use pointer::{read_pointer, write_pointer};
pub use slot::{read_slot, write_slot};
