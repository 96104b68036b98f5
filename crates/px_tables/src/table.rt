ghost use Rattle.std.specs.Prelude.{◌≡◌, IfOk, IsTrue};
ghost use Rattle.px_cells.specs.Form.{is_short};
ghost use Rattle.px_chain.specs.Sound.{Layout};
ghost use Rattle.px_cells.specs.Unused.{free_pointer, unused_slot};
ghost use Rattle.px_tables.specs.Held.{HasLayout, no_cells, table_of};

mod counting;
mod linking;
mod opening;
mod reading;
mod unlinking;

use crate::keys::Keys;
use px_cells::{Header, Pointer, Slot, SlotState};
use px_model::Bytes;
use std::alloc::{AllocError, Global};
use std::marker::Model;

/// The cells of a table, and the keys of its rows. Contracts see what specs/Held has.
#[derive(Drop)]
pub struct Table {
    number: u8,
    /// How many bytes of a row's body stand in its slot at most.
    short: u32,
    header: Header,
    /// The slots at their numbers, from 1.
    slots: Vec<Slot>,
    /// The row pointers at their numbers, from 1.
    pointers: Vec<Pointer>,
    keys: Keys,
}

impl Model for Table {
    ghost use Rattle.std.specs.Vec.{vec_capacity};
    ghost use Rattle.px_tables.specs.Held.{Held, IsKept};

    ghost Value = { Held };

    ghost view = { λ t. record {
      cells = record { number = t.number; short = t.short; header = t.header; slots = t.slots.items; pointers = t.pointers.items };
      room = record { slots = vec_capacity t.slots; rows = vec_capacity t.pointers; keys = t.keys };
    } };

    ghost invariant = { λ t. IsKept (record { number = t.number; short = t.short; header = t.header; slots = t.slots.items; pointers = t.pointers.items }) t.keys };
}

impl Table {
    /// A table without slots and row pointers, in a store with that short length: 16 to 1,024 bytes.
    pub fn new(alloc: Global, number: u8, short: u32) -> Result<Table, AllocError>
        requires { IsTrue (is_short short) }
        ensures { IfOk result (λ table. table.cells ≡ no_cells number short) }
    {
        let mut slots = Vec::new(alloc);
        slots.push(unused_slot(alloc))?;
        let mut pointers = Vec::new(alloc);
        pointers.push(Pointer {
            used: false,
            head: 0,
        })?;
        Ok(Table {
            number,
            short,
            header: Header {
                slots: 0,
                free_slot: 0,
                rows: 0,
                free_row: 0,
            },
            slots,
            pointers,
            keys: Keys::new(alloc),
        })
    }

    /// The cells are sound, and no slot and no row pointer has the number 0.
    pub fn is_sound(&self)
        ensures sound { (layout : Layout) × HasLayout self.now.cells layout }
        ensures no_slot { (table_of self.now.cells).slot 0 ≡ unused_slot }
        ensures no_pointer { (table_of self.now.cells).pointer 0 ≡ free_pointer }
    {
        let _header = &self.header;
    }

    fn allocator(&self) -> Global {
        *self.slots.allocator()
    }
}

/// What stands where there is no slot.
fn unused_slot(alloc: Global) -> Slot
    ensures { result ≡ unused_slot }
{
    Slot {
        state: SlotState::Free,
        xn: 0,
        next: 0,
        row: 0,
        tag: 0,
        total: 0,
        log: 0,
        place: 0,
        key: Bytes::new(alloc),
        short: Bytes::new(alloc),
    }
}
