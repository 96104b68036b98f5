//! Scripts: the grammar of their lines, and how the bytes of an input are lines.
//!
//! `line` has what a line asks for. `parse` reads one: a session's call by `calls`, word by word by `words`, each
//! kind of word by `number` and `hexadecimal`; `no_line` says why words were not read. `lines` hands out the lines of
//! an input one at a time, over the bytes that a `window` holds. `laws` has the laws of the grammar: the lines are
//! exactly the texts of the values that a line can have, and each text has one value.
//!
//! specs/: `Grammar` (which bytes are which line), `Words` (numbers, keys and bodies), `Splits` (words between spaces),
//! `LineText` (the text of a value), `Lines` (how bytes are lines), `Progress` (how far an input was read, and what
//! `Lines::next` answers), `Piece` (what one read adds), `Reads` and `Feeds` (for private clauses).
#![tactic(auto)]

mod calls;
mod hexadecimal;
mod laws;
mod line;
mod lines;
mod no_line;
mod number;
mod parse;
mod window;
mod words;

pub use line::Line;
pub use lines::{LONGEST_INPUT, Lines, NextLine};
pub use number::number_of;
pub use parse::{LONGEST_LINE, parse_line};
