ghost use Rattle.std.specs.Prelude.{◌≡◌, length};

use px_cells::{Header, Pointer, Slot};

/// The cells of a table: row pointers and slots in order of their numbers, which begin with 1.
#[derive(Drop)]
pub(crate) struct Cells<'a> {
    pub(crate) header: &'a Header,
    pub(crate) pointers: &'a [Pointer],
    pub(crate) slots: &'a [Slot],
    ghost row_count: { length pointers.now ≡ header.now.rows },
    ghost slot_count: { length slots.now ≡ header.now.slots },
}
