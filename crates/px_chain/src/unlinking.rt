ghost use Rattle.std.specs.Prelude.{◌≡◌, ◌≢◌, ◌≤◌, [], ◌++◌, All, IfOk, IsTrue, OnOk, length, map, nat_le};
ghost use Rattle.std.specs.Option.{option_copied};
ghost use Rattle.std.specs.List.{position_or_len};
ghost use Rattle.px_cells.specs.Form.{is_short, is_slot};
ghost use Rattle.px_chain.specs.declared.chain.Linked.{Linked};
ghost use Rattle.px_chain.specs.Cells.{cell_of};
ghost use Rattle.px_chain.specs.Links.{content_of, freed_slot, placed, pointer_content};
ghost use Rattle.px_chain.specs.Near.{IsNearStored, led_to, near_cells, near_header, near_pointer, near_slots};

use crate::cells::{header_cell, pointer_cell, slot_cell};
use crate::chain::Linked;
use crate::cut::{Cut, number_or};
use px_cells::{CellList, Header, Pointer, Slot, SlotState};
use px_model::Bytes;
use std::alloc::{AllocError, Global};

/// The cells that unlink the slots of a cut: the header's, those of the slots that change, in order of their numbers, and that of
/// the row pointer where no slot stays in front of those that go.
///
/// The slots that go are given back one after the other, the oldest first, so the newest of them is in front of the free
/// list. What was in front of them, a slot or the row pointer, then leads to what is behind them. Where no slot stays, the row
/// pointer is given back too. The cut of a chain tells the cells as the whole chain does (`neighbours_tell_an_unlink`), and of
/// sound cells they leave sound ones (`unlinked_cells_are_sound`). It fails only for want of memory.
pub fn unlink(
    alloc: Global,
    table: u8,
    header: &Header,
    cut: &Cut<'_>,
    short: u32,
) -> Result<CellList, AllocError>
    requires short { IsTrue (is_short short) }
    requires some { cut.now.gone ≢ [] }
    requires stored { IsNearStored short cut.now }
    ensures { IfOk result (λ cells. cells ≡ map (cell_of table short) (near_cells header.now cut.now)) }
{
    let unlinked = Unlinked::of(alloc, header, cut)?;
    unlinked.cells(alloc, table, short)
}

/// What an unlink changes, apart from its bytes.
#[derive(Debug, Drop)]
pub struct Unlinked {
    /// The header once the slots are given back, and the row pointer too where none stays.
    pub header: Header,
    /// The slots that change, in order of their numbers.
    pub slots: Vec<Linked>,
    /// The row pointer and its number, where no slot stays in front of those that go.
    pub pointer: Option<(u32, Pointer)>,
}

impl Unlinked {
    ghost use Rattle.px_chain.specs.Unlinked.{contents_of};

    /// What `unlink` with these arguments changes. It fails only for want of memory.
    pub fn of(alloc: Global, header: &Header, cut: &Cut<'_>) -> Result<Unlinked, AllocError>
        ensures header { IfOk result (λ unlinked. unlinked.header ≡ near_header header.now cut.now) }
        ensures slots { IfOk result (λ unlinked. unlinked.slots.items ≡ near_slots header.now cut.now) }
        ensures pointer { IfOk result (λ unlinked. pointer_content unlinked.pointer ≡ near_pointer header.now cut.now) }
    {
        Ok(Unlinked {
            header: cut.header(*header),
            slots: unlinked_slots(alloc, header, cut)?,
            pointer: pointer_of(header, cut),
        })
    }

    /// The cells of these changes. It fails only for want of memory.
    pub fn cells(&self, alloc: Global, table: u8, short: u32) -> Result<CellList, AllocError>
        requires short { IsTrue (is_short short) }
        requires form { All (λ linked. IsTrue (is_slot short linked.slot)) self.now.slots.items }
        ensures { IfOk result (λ cells. cells ≡ map (cell_of table short) (contents_of self.now)) }
    {
        let mut cells = CellList::new(alloc);
        cells.push(header_cell(alloc, table, &self.header)?)?;
        push_slots(&mut cells, alloc, table, self.slots.as_slice(), short)?;
        if let Some((row, pointer)) = &self.pointer {
            cells.push(pointer_cell(alloc, table, *row, pointer)?)?;
        }
        Ok(cells)
    }
}

/// The slots that change, in order of their numbers.
fn unlinked_slots(alloc: Global, header: &Header, cut: &Cut<'_>) -> Result<Vec<Linked>, AllocError>
    ensures { IfOk result (λ slots. slots.items ≡ near_slots header.now cut.now) }
{
    let mut slots = led_to(alloc, cut.newer, cut.older.unwrap_or(0))?;
    for (i, linked) in cut.gone.iter().enumerate() {
        let next = number_or(&cut.gone[i + 1..], header.free_slot);
        place(&mut slots, freed(alloc, linked, next)?)?;
    }
    Ok(slots)
}

/// The slot with another `next`, if there is one.
fn led_to(alloc: Global, linked: Option<&Linked>, next: u32) -> Result<Vec<Linked>, AllocError>
    ensures { IfOk result (λ slots. slots.items ≡ led_to next (option_copied linked.entry)) }
{
    let mut slots = Vec::new(alloc);
    if let Some(linked) = linked {
        let mut slot = linked.slot.copy()?;
        slot.next = next;
        slots.push(Linked {
            number: linked.number,
            slot,
        })?;
    }
    Ok(slots)
}

/// The slot as it is on the free list.
fn freed(alloc: Global, linked: &Linked, next: u32) -> Result<Linked, AllocError>
    ensures { IfOk result (λ freed. freed ≡ record { number = linked.now.number; slot = freed_slot linked.now.slot next }) }
{
    Ok(Linked {
        number: linked.number,
        slot: Slot {
            state: SlotState::Free,
            xn: 0,
            next,
            row: 0,
            tag: linked.slot.tag,
            total: 0,
            log: 0,
            place: 0,
            key: linked.slot.key.copy()?,
            short: Bytes::new(alloc),
        },
    })
}

/// Puts a slot among those in order of their numbers.
fn place(slots: &mut Vec<Linked>, linked: Linked) -> Result<(), AllocError>
    ensures { OnOk result (slots.new.items ≡ placed slots.old.items linked) }
{
    let at = place_of(slots.as_slice(), linked.number);
    slots.insert(at, linked)?;
    Ok(())
}

/// The index of the first slot whose number isn't below this one.
fn place_of(slots: &[Linked], number: u32) -> usize
    ensures within { result ≤ length slots.now }
    ensures first { result ≡ position_or_len (λ other. nat_le number other.number) slots.now }
{
    for (i, other) in slots.iter().enumerate() {
        if number <= other.number {
            return i;
        }
    }
    slots.len()
}

/// Appends the cells of these slots.
fn push_slots(
    cells: &mut CellList,
    alloc: Global,
    table: u8,
    slots: &[Linked],
    short: u32,
) -> Result<(), AllocError>
    requires short { IsTrue (is_short short) }
    requires form { All (λ linked. IsTrue (is_slot short linked.slot)) slots.now }
    ensures { OnOk result (cells.new ≡ cells.old ++ map (cell_of table short) (map content_of slots.now)) }
{
    for linked in slots {
        cells.push(slot_cell(alloc, table, linked.number, &linked.slot, short)?)?;
    }
    Ok(())
}

/// The row pointer and its number, where no slot stays in front of those that go.
fn pointer_of(header: &Header, cut: &Cut<'_>) -> Option<(u32, Pointer)>
    ensures { pointer_content result ≡ near_pointer header.now cut.now }
{
    if cut.newer.is_some() {
        return None;
    }
    let pointer = match cut.older {
        Some(head) => Pointer { used: true, head },
        None => Pointer {
            used: false,
            head: header.free_row,
        },
    };
    Some((cut.row(), pointer))
}
