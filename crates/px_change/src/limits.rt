// How many cells and bytes a change has.

use px_cells::SLOT_HEAD_SIZE;
use px_model::LONGEST_SHORT;

/// A change has this many cells at most.
pub const MOST_CELLS: usize = 4;

/// A change that unlinks versions has this many cells at least.
pub const LEAST_UNLINKING: usize = 3;

/// How many bytes stand before the bytes of a cell: kind, table, number and length.
pub const CELL_HEAD_SIZE: usize = 8;

/// The bytes of a change without cells. No change has fewer.
pub const END_SIZE: usize = 18;

/// No change has more bytes: those of as many slots as may be, with the greatest short length.
pub const LONGEST_TEXT: usize = END_SIZE
    + MOST_CELLS * (CELL_HEAD_SIZE + SLOT_HEAD_SIZE + LONGEST_SHORT as usize);
