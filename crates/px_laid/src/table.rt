ghost use Rattle.std.specs.Prelude.{◌≡◌, IfErr, IfNone, IfOk, IfSome};
ghost use Rattle.px_cells.specs.declared.cell.CellKind.TheVariants.{Pointer as APointer, Slot as ASlot};
ghost use Rattle.px_cells.specs.declared.pointer.Pointer.{Pointer};
ghost use Rattle.px_cells.specs.declared.slot.Slot.{Slot};
ghost use Rattle.px_laid.specs.Places.{places};
ghost use Rattle.px_laid.specs.Whole.{AreAll, AreCellsOf, IsBadIn, IsErrorOf, IsLaidPointer, IsLaidSlot};
ghost use Rattle.px_laid.specs.declared.table.TableError.TheVariants.{OutOfMemory};

use crate::Laid;
use px_cells::{CellKind, Header, Pointer, Slot};
use px_recs::{read_pointer, read_slot};
use std::alloc::{AllocError, Global};

/// All cells of a table.
#[derive(Debug, Drop)]
pub struct TableCells {
    pub header: Header,
    /// The row pointers with the numbers 1 to `header.rows`, in their order.
    pub pointers: Vec<Pointer>,
    /// The slots with the numbers 1 to `header.slots`, in their order.
    pub slots: Vec<Slot>,
}

/// Why the cells of a table aren't read.
#[derive(Clone, Copy, Debug, PartialEq, Eq)]
pub enum TableError {
    /// There was no memory for the cells.
    OutOfMemory,
    /// This cell isn't one that the table can have: its bytes are outside of the grammar, or nothing was laid at its place. It is
    /// the first such cell, in the order header, row pointers, slots.
    BadCell {
        what: CellKind,
        /// From 1; 0 for the header.
        number: u32,
    },
}

impl From<AllocError> for TableError {
    ghost from_gives = { λ _ error. error ≡ OutOfMemory };

    fn from(_error: AllocError) -> TableError {
        TableError::OutOfMemory
    }
}

impl Laid<'_> {
    /// All cells of the table, in a store with that short length.
    ///
    /// A row pointer or a slot that the header counts and that was never laid is bad. A place is counted from the change on that
    /// takes it first, and that change lays its cell too, so where no table files lie below a header is wrong that counts a place
    /// without a cell. Also, a header may count 2^32 - 1 places of which none is there: so the time that is taken goes with the
    /// cells that were laid.
    pub fn table(&self, alloc: Global, table: u8, short: u32) -> Result<TableCells, TableError>
        ensures ok { IfOk result (AreCellsOf short (places self.now) table) }
        ensures err { IfErr result (IsErrorOf short (places self.now) table) }
    {
        let Some(header) = self.header(table) else {
            return Err(TableError::BadCell {
                what: CellKind::Header,
                number: 0,
            });
        };
        let pointers = self.all_pointers(alloc, table, header.rows)?;
        let slots = self.all_slots(alloc, table, header.slots, short)?;
        Ok(TableCells {
            header,
            pointers,
            slots,
        })
    }

    fn all_pointers(&self, alloc: Global, table: u8, count: u32) -> Result<Vec<Pointer>, TableError>
        ensures ok { IfOk result (λ pointers. AreAll (IsLaidPointer (places self.now) table) count pointers.items) }
        ensures err { IfErr result (IsBadIn APointer (IsLaidPointer (places self.now) table) count) }
    {
        let mut pointers = Vec::new(alloc);
        for index in 0..count {
            let number = index + 1;
            let Some(pointer) = self.laid_pointer(table, number) else {
                return Err(TableError::BadCell {
                    what: CellKind::Pointer,
                    number,
                });
            };
            pointers.push(pointer).map_err(AllocError::from)?;
        }
        Ok(pointers)
    }

    fn all_slots(
        &self,
        alloc: Global,
        table: u8,
        count: u32,
        short: u32,
    ) -> Result<Vec<Slot>, TableError>
        ensures ok { IfOk result (λ slots. AreAll (IsLaidSlot short (places self.now) table) count slots.items) }
        ensures err { IfErr result (IsBadIn ASlot (IsLaidSlot short (places self.now) table) count) }
    {
        let mut slots = Vec::new(alloc);
        for index in 0..count {
            let number = index + 1;
            let Some(slot) = self.laid_slot(alloc, table, number, short)? else {
                return Err(TableError::BadCell {
                    what: CellKind::Slot,
                    number,
                });
            };
            slots.push(slot).map_err(AllocError::from)?;
        }
        Ok(slots)
    }

    fn laid_pointer(&self, table: u8, number: u32) -> Option<Pointer>
        ensures some { IfSome result (IsLaidPointer (places self.now) table number) }
        ensures none { IfNone result ((pointer : Pointer) → ¬ IsLaidPointer (places self.now) table number pointer) }
    {
        read_pointer(self.bytes(CellKind::Pointer, table, number)?)
    }

    fn laid_slot(
        &self,
        alloc: Global,
        table: u8,
        number: u32,
        short: u32,
    ) -> Result<Option<Slot>, AllocError>
        ensures some { IfOk result (λ read. IfSome read (IsLaidSlot short (places self.now) table number)) }
        ensures none { IfOk result (λ read. IfNone read ((slot : Slot) → ¬ IsLaidSlot short (places self.now) table number slot)) }
    {
        match self.bytes(CellKind::Slot, table, number) {
            Some(bytes) => read_slot(alloc, bytes, short),
            None => Ok(None),
        }
    }
}
