ghost use Rattle.std.specs.Prelude.{◌≡◌, IfOk, IsTrue};
ghost use Rattle.px_cells.specs.Form.{is_short, is_slot};
ghost use Rattle.px_chain.specs.Cells.{header_cell, pointer_cell, slot_cell};

use px_cells::{Cell, CellKind, Header, Pointer, Slot};
use px_model::Bytes;
use px_recs::{write_header, write_pointer, write_slot};
use std::alloc::{AllocError, Global};

pub(crate) fn header_cell(alloc: Global, table: u8, header: &Header) -> Result<Cell, AllocError>
    ensures { IfOk result (λ cell. cell ≡ header_cell table header.now) }
{
    let mut bytes = Vec::new(alloc);
    write_header(header, &mut bytes)?;
    Ok(Cell {
        what: CellKind::Header,
        table,
        number: 0,
        bytes: Bytes::from_vec(bytes),
    })
}

/// The cell of a slot in a store with that short length.
pub(crate) fn slot_cell(
    alloc: Global,
    table: u8,
    number: u32,
    slot: &Slot,
    short: u32,
) -> Result<Cell, AllocError>
    requires short { IsTrue (is_short short) }
    requires form { IsTrue (is_slot short slot.now) }
    ensures { IfOk result (λ cell. cell ≡ slot_cell table short number slot.now) }
{
    let mut bytes = Vec::new(alloc);
    write_slot(slot, short, &mut bytes)?;
    Ok(Cell {
        what: CellKind::Slot,
        table,
        number,
        bytes: Bytes::from_vec(bytes),
    })
}

pub(crate) fn pointer_cell(
    alloc: Global,
    table: u8,
    number: u32,
    pointer: &Pointer,
) -> Result<Cell, AllocError>
    ensures { IfOk result (λ cell. cell ≡ pointer_cell table number pointer.now) }
{
    let mut bytes = Vec::new(alloc);
    write_pointer(pointer, &mut bytes)?;
    Ok(Cell {
        what: CellKind::Pointer,
        table,
        number,
        bytes: Bytes::from_vec(bytes),
    })
}
