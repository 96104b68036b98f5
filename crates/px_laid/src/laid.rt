ghost use Rattle.std.specs.Prelude.{◌≡◌, IfOk, OnOk};
ghost use Rattle.std.specs.Option.{option_copied};
ghost use Rattle.px_laid.specs.Places.{laid_over, none_laid, over, places};

use crate::numbered::{NumberedCells, put_in};
use px_cells::{Cell, CellKind};
use px_change::Change;
use std::alloc::{AllocError, Global};

/// The bytes of cells, each at its place: its kind, the number of its table and its own. They are those of the changes, and
/// none are copied. `specs/Places` has what contracts see, the bytes at each place.
#[derive(Debug, Drop)]
pub struct Laid<'a> {
    // For each kind its cells, those of a table at the table's number.
    headers: Vec<NumberedCells<'a>>,
    slots: Vec<NumberedCells<'a>>,
    pointers: Vec<NumberedCells<'a>>,
}

impl<'a> Laid<'a> {
    /// Nothing is laid. It takes no memory.
    pub fn new(alloc: Global) -> Laid<'a>
        ensures { places result ≡ none_laid }
    {
        Laid {
            headers: Vec::new(alloc),
            slots: Vec::new(alloc),
            pointers: Vec::new(alloc),
        }
    }

    /// The cells of a change lie over what was at their places, each over those before it. Without memory nothing comes back, so
    /// that no change is ever laid by half.
    pub fn lay(self, change: &'a Change) -> Result<Laid<'a>, AllocError>
        ensures { IfOk result (λ laid. places laid ≡ laid_over (places self.entry) change.now.cells) }
    {
        let mut laid = self;
        for cell in change.cells.as_slice() {
            laid.put(cell)?;
        }
        Ok(laid)
    }

    fn put(&mut self, cell: &'a Cell) -> Result<(), AllocError>
        ensures { OnOk result (places self.new ≡ over (places self.old) cell.now) }
    {
        match cell.what {
            CellKind::Header => put_in(&mut self.headers, cell),
            CellKind::Slot => put_in(&mut self.slots, cell),
            CellKind::Pointer => put_in(&mut self.pointers, cell),
        }
    }

    /// The bytes at a place, None where no cell was laid. It takes no memory.
    pub fn bytes(&self, what: CellKind, table: u8, number: u32) -> Option<&'a [u8]>
        ensures { option_copied result ≡ places self.now what table number }
    {
        let tables = match what {
            CellKind::Header => &self.headers,
            CellKind::Slot => &self.slots,
            CellKind::Pointer => &self.pointers,
        };
        let cells = tables.get(table as usize)?;
        cells.bytes(number)
    }
}
