ghost use Rattle.std.specs.Prelude.{◌≡◌, IfOk, IsTrue, map};
ghost use Rattle.px_cells.specs.Form.{is_short, is_slot};
ghost use Rattle.px_chain.specs.Cells.{cell_of};
ghost use Rattle.px_chain.specs.Links.{link_cells};

use crate::cells::{header_cell, pointer_cell, slot_cell};
use px_cells::{CellList, Header, Pointer, Slot};
use std::alloc::{AllocError, Global};

/// The cells that link a slot into the chain of the row pointer `slot.row`, in front of what is there: the header's, that of
/// slot `number`, and that of the row pointer, whose head it is then.
///
/// The header is the one after the slot, and the row pointer of a new row, were taken; `slot.next` is the old head, 0 for none.
/// Where that is so, sound cells stay sound (`a_new_row_is_sound`, `a_new_variation_is_sound`). It fails only for want of
/// memory.
pub fn link(
    alloc: Global,
    table: u8,
    header: &Header,
    number: u32,
    slot: &Slot,
    short: u32,
) -> Result<CellList, AllocError>
    requires short { IsTrue (is_short short) }
    requires form { IsTrue (is_slot short slot.now) }
    ensures { IfOk result (λ cells. cells ≡ map (cell_of table short) (link_cells header.now number slot.now)) }
{
    let pointer = Pointer {
        used: true,
        head: number,
    };
    let mut cells = CellList::new(alloc);
    cells.push(header_cell(alloc, table, header)?)?;
    cells.push(slot_cell(alloc, table, number, slot, short)?)?;
    cells.push(pointer_cell(alloc, table, slot.row, &pointer)?)?;
    Ok(cells)
}
