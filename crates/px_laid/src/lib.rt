//! Cells laid over each other by their places, as an opening finds them in the frames of the log: later over earlier, as raw
//! bytes. A cell that a later frame lies over may be anything, so bytes are read as values only once all frames are laid.
//!
//! - `laid`: `Laid`, the bytes at each place, which are those of the changes. `numbered`: those of one kind of one table.
//! - `reading`: what the bytes of one cell say.
//! - `table`: all cells of a table, `TableCells`, or the first that can't be its.
//! - `laws`: cells that were linked and unlinked read as the table that they made.
//!
//! `specs/Places` says what bytes lie where, `specs/Numbered` those of one kind of one table, `specs/Reading` what they are read
//! as, `specs/Whole` what the cells of a table are, `specs/Says` which table places say, and `specs/Holds` which sound one they
//! hold. Until there are table files, no cells lie below those of the log. The format is in docs/FORMATS.md, 'Cells'.
#![tactic(auto)]

mod laid;
mod laws;
mod numbered;
mod reading;
mod table;

pub use laid::Laid;
pub use laws::{
    cells_of_other_tables_change_nothing, held_tables_stay_held,
    laid_texts_are_texts_of_what_is_laid, what_is_not_laid_was_never_used, what_is_said_is_one,
    what_is_said_is_read,
};
pub use table::{TableCells, TableError};
