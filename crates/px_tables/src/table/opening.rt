ghost use Rattle.std.specs.Prelude.{◌≡◌, ◌≢◌, ℕ, ◌+◌, ◌<◌, IfOk, IsTrue, List, OnOk, if◌then◌else◌, length, true};
ghost use Rattle.px_cells.specs.Form.{is_short};
ghost use Rattle.px_chain.specs.Sound.{IsSound, Layout};
ghost use Rattle.px_tables.specs.Held.{HasLayout, cells_from, slot_at, table_at, table_from};
ghost use Rattle.px_tables.specs.Keys.{AreKeys, row_named};

use super::{Table, unused_slot};
use crate::keys::Keys;
use px_cells::{Header, Pointer, Slot};
use std::alloc::{AllocError, Global};

impl Table {
    /// A table with these cells, which are sound, in a store with that short length. Row pointers and slots come in order of
    /// their numbers, from 1, as many as the header counts. It fails only for want of memory.
    pub fn of_cells(
        alloc: Global,
        number: u8,
        short: u32,
        header: Header,
        mut pointers: Vec<Pointer>,
        mut slots: Vec<Slot>,
    ) -> Result<Table, AllocError>
        requires is_short { IsTrue (is_short short) }
        requires rows { length pointers.items ≡ header.rows }
        requires slots { length slots.items ≡ header.slots }
        requires sound { (layout : Layout) × IsSound short (table_from header pointers.items slots.items) layout }
        ensures cells { IfOk result (λ table. table.cells ≡ cells_from number short header pointers.items slots.items) }
        ensures layout { IfOk result (λ table. (layout : Layout) → IsSound short (table_from header pointers.items slots.items) layout → HasLayout table.cells layout) }
    {
        slots.insert(0, unused_slot(alloc))?;
        let pointer = Pointer {
            used: false,
            head: 0,
        };
        pointers.insert(0, pointer)?;
        let keys = keys_of(alloc, header, pointers.as_slice(), slots.as_slice())?;
        Ok(Table {
            number,
            short,
            header,
            slots,
            pointers,
            keys,
        })
    }
}

/// The keys of the rows, each with its row. Row pointers and slots stand at their numbers.
fn keys_of(
    alloc: Global,
    header: Header,
    pointers: &[Pointer],
    slots: &[Slot],
) -> Result<Keys, AllocError>
    requires rows { length pointers.now ≡ header.rows + 1 }
    requires slots { length slots.now ≡ header.slots + 1 }
    requires sound { (short : ℕ) × (layout : Layout) × IsSound short (table_at header pointers.now slots.now) layout }
    ensures { IfOk result (AreKeys (table_at header pointers.now slots.now)) }
{
    let mut keys = Keys::new(alloc);
    for before in 0..header.rows {
        let row = before + 1;
        add_row(&mut keys, alloc, row, &pointers[row as usize], slots)?;
    }
    Ok(keys)
}

/// Enters the key of a row with the row, where its pointer is used.
fn add_row(
    keys: &mut Keys,
    alloc: Global,
    row: u32,
    pointer: &Pointer,
    slots: &[Slot],
) -> Result<(), AllocError>
    requires { pointer.now.used ≡ true → pointer.now.head < length slots.now }
    ensures named { OnOk result (row_named keys.new (slot_at slots.now pointer.now.head).key
        ≡ (if pointer.now.used then row else row_named keys.old (slot_at slots.now pointer.now.head).key)) }
    ensures others { OnOk result ((q : List ℕ) → q ≢ (slot_at slots.now pointer.now.head).key → row_named keys.new q ≡ row_named keys.old q) }
{
    if !pointer.used {
        return Ok(());
    }
    let slot = &slots[pointer.head as usize];
    keys.add(alloc, slot.key.as_slice(), row)
}
