ghost use Rattle.std.specs.Prelude.{◌≡◌, ◌<◌, ◌≤◌, ◌↔◌, IfOk, IfSome, IsNone, IsTrue, OnOk, length, map};
ghost use Rattle.px_cells.specs.Form.{is_short};
ghost use Rattle.px_cells.specs.declared.slot.Slot.{Slot};
ghost use Rattle.px_free.specs.Places.{next_place, slots_of};
ghost use Rattle.px_chain.specs.Cells.{cell_of};
ghost use Rattle.px_chain.specs.Links.{BeginsRow, VariesRow, link_cells, linked, row_taken, slot_taken};
ghost use Rattle.px_chain.specs.Sound.{Layout};
ghost use Rattle.px_chain.specs.Table.{laid};
ghost use Rattle.px_tables.specs.Held.{HasLayout, table_of};
ghost use Rattle.px_tables.specs.Keys.{IsEntered};
ghost use Rattle.px_tables.specs.Linking.{FitsSlot, GoesTo, IsFull, IsLink, IsPlaceFor, IsPrepared, bytes_of_key, version_of};

use super::Table;
use crate::linking::{Linking, Place, key_of};
use crate::places::put_at;
use px_cells::{CellList, Pointer};
use px_chain::link;
use px_free::{take_row, take_slot};
use px_model::Write;
use std::alloc::AllocError;

impl Table {
    /// Prepares the version that the transaction with the stored number `xn` writes: takes the memory for it, and changes no
    /// cell. Its key and its body move there. None exactly where the table is full. It fails only for want of memory.
    pub fn prepare(&mut self, xn: u64, write: Write) -> Result<Option<Linking>, AllocError>
        requires { FitsSlot self.old.cells.short write }
        ensures cells { self.new.cells ≡ self.old.cells }
        ensures full { IfOk result (λ prepared. IsNone prepared ↔ IsFull (table_of self.old.cells) (bytes_of_key write)) }
        ensures prepared { IfOk result (λ prepared. IfSome prepared (λ linking. IsPrepared self.new linking)) }
        ensures version { IfOk result (λ prepared. IfSome prepared (λ linking. linking.slot ≡ version_of xn linking.slot.next linking.slot.row write)) }
    {
        let alloc = self.allocator();
        let Some(place) = self.place_for(key_of(&write))? else {
            return Ok(None);
        };
        let slot = place.version(alloc, xn, write);
        Ok(Some(place.link(slot)))
    }

    /// Takes the memory for one more version of a key's row, and says where it goes. It changes no cell. None exactly where the
    /// table is full. It fails only for want of memory.
    pub fn place_for(&mut self, key: &[u8]) -> Result<Option<Place>, AllocError>
        ensures cells { self.new.cells ≡ self.old.cells }
        ensures full { IfOk result (λ found. IsNone found ↔ IsFull (table_of self.old.cells) key.now) }
        ensures place { IfOk result (λ found. IfSome found (IsPlaceFor self.new key.now)) }
        ensures short { IsTrue (is_short self.old.cells.short) }
    {
        let Some(place) = self.place_of(key) else {
            return Ok(None);
        };
        self.reserve(key)?;
        Ok(Some(place))
    }

    /// The place of the next version of a key's row. None exactly where the table is full.
    fn place_of(&self, key: &[u8]) -> Option<Place>
        ensures full { IsNone result ↔ IsFull (table_of self.now.cells) key.now }
        ensures number { IfSome result (λ place. place.number ≡ next_place (slots_of self.now.cells.header)) }
        ensures link { IfSome result (λ place. (slot : Slot) → GoesTo place key.now slot → IsLink (table_of self.now.cells) place.header slot) }
        ensures in_slots { IfSome result (λ place. place.number ≤ length self.now.cells.slots) }
        ensures in_rows { IfSome result (λ place. place.row ≤ length self.now.cells.pointers) }
        ensures short { IsTrue (is_short self.now.cells.short) }
    {
        let behind = self.slots[self.header.free_slot as usize].next;
        let (number, header) = take_slot(self.header, behind)?;
        if let Some(row) = self.row_of(key) {
            return Some(Place {
                header,
                number,
                row,
                next: self.pointers[row as usize].head,
            });
        }
        let behind = self.pointers[header.free_row as usize].head;
        let (row, header) = take_row(header, behind)?;
        Some(Place {
            header,
            number,
            row,
            next: 0,
        })
    }

    /// Takes the memory for one more version of the key's row.
    fn reserve(&mut self, key: &[u8]) -> Result<(), AllocError>
        ensures cells { self.new.cells ≡ self.old.cells }
        ensures slots { OnOk result (length self.new.cells.slots < self.new.room.slots) }
        ensures rows { OnOk result (length self.new.cells.pointers < self.new.room.rows) }
        ensures key { OnOk result (IsEntered self.new.room.keys key.now) }
    {
        let alloc = self.allocator();
        self.slots.reserve(1)?;
        self.pointers.reserve(1)?;
        self.keys.enter(alloc, key)
    }

    /// The cells of a version that was prepared, for the log. It fails only for want of memory.
    pub fn cells_of(&self, linking: &Linking) -> Result<CellList, AllocError>
        requires { IsPrepared self.now linking.now }
        ensures { IfOk result (λ cells. cells ≡ map (cell_of self.now.cells.number self.now.cells.short) (link_cells linking.now.header linking.now.number linking.now.slot)) }
    {
        link(
            self.allocator(),
            self.number,
            &linking.header,
            linking.number,
            &linking.slot,
            self.short,
        )
    }

    /// Lays a version that was prepared over the table. It takes no memory.
    pub fn lay(&mut self, linking: Linking)
        requires { IsPrepared self.old linking }
        ensures table { table_of self.new.cells ≡ laid (table_of self.old.cells) (link_cells linking.header linking.number linking.slot) }
        ensures number { self.new.cells.number ≡ self.old.cells.number }
        ensures short { self.new.cells.short ≡ self.old.cells.short }
        ensures begins { (layout : Layout) → HasLayout self.old.cells layout → BeginsRow (table_of self.old.cells) linking.header linking.slot
            → HasLayout self.new.cells (linked (row_taken (slot_taken layout)) linking.number linking.slot.row) }
        ensures varies { (layout : Layout) → HasLayout self.old.cells layout → VariesRow (table_of self.old.cells) linking.header linking.slot
            → HasLayout self.new.cells (linked (slot_taken layout) linking.number linking.slot.row) }
    {
        let Linking {
            header,
            number,
            slot,
        } = linking;
        let row = slot.row;
        let pointer = Pointer {
            used: true,
            head: number,
        };
        self.keys.name(slot.key.as_slice(), row);
        put_at(&mut self.pointers, row, pointer);
        put_at(&mut self.slots, number, slot);
        self.header = header;
    }
}
