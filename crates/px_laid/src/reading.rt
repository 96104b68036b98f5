ghost use Rattle.std.specs.Prelude.{◌≡◌, IfNone, IfOk, IfSome};
ghost use Rattle.px_cells.specs.declared.header.Header.{Header};
ghost use Rattle.px_cells.specs.declared.pointer.Pointer.{Pointer};
ghost use Rattle.px_cells.specs.declared.slot.Slot.{Slot};
ghost use Rattle.px_recs.specs.Text.{HeaderAt, PointerAt, SlotAt};
ghost use Rattle.px_cells.specs.Unused.{unused_slot};
ghost use Rattle.px_laid.specs.Places.{places};
ghost use Rattle.px_laid.specs.Reading.{header_bytes, pointer_bytes, slot_bytes};

use crate::Laid;
use px_cells::{CellKind, Header, Pointer, Slot, SlotState};
use px_model::Bytes;
use px_recs::{read_header, read_pointer, read_slot};
use std::alloc::{AllocError, Global};

impl Laid<'_> {
    /// What the bytes of the table's header say; one that isn't there says that no place was ever used. None exactly where the
    /// bytes are no header's. It takes no memory.
    pub fn header(&self, table: u8) -> Option<Header>
        ensures some { IfSome result (HeaderAt (header_bytes (places self.now) table)) }
        ensures none { IfNone result ((header : Header) → ¬ HeaderAt (header_bytes (places self.now) table) header) }
    {
        match self.bytes(CellKind::Header, table, 0) {
            Some(bytes) => read_header(bytes),
            None => Some(Header {
                slots: 0,
                free_slot: 0,
                rows: 0,
                free_row: 0,
            }),
        }
    }

    /// What the bytes of the row pointer say; one that isn't there is free, with head 0. None exactly where the bytes are no row
    /// pointer's. It takes no memory.
    pub fn pointer(&self, table: u8, number: u32) -> Option<Pointer>
        ensures some { IfSome result (PointerAt (pointer_bytes (places self.now) table number)) }
        ensures none { IfNone result ((pointer : Pointer) → ¬ PointerAt (pointer_bytes (places self.now) table number) pointer) }
    {
        match self.bytes(CellKind::Pointer, table, number) {
            Some(bytes) => read_pointer(bytes),
            None => Some(Pointer {
                used: false,
                head: 0,
            }),
        }
    }

    /// What the bytes of the slot say, in a store with that short length; one that isn't there was never used. None exactly where
    /// the bytes are those of no slot in the form; it fails only for want of memory.
    pub fn slot(
        &self,
        alloc: Global,
        table: u8,
        number: u32,
        short: u32,
    ) -> Result<Option<Slot>, AllocError>
        ensures some { IfOk result (λ read. IfSome read (SlotAt short (slot_bytes short (places self.now) table number))) }
        ensures none { IfOk result (λ read. IfNone read ((slot : Slot) → ¬ SlotAt short (slot_bytes short (places self.now) table number) slot)) }
    {
        match self.bytes(CellKind::Slot, table, number) {
            Some(bytes) => read_slot(alloc, bytes, short),
            None => Ok(Some(unused_slot(alloc))),
        }
    }
}

fn unused_slot(alloc: Global) -> Slot
    ensures { result ≡ unused_slot }
{
    Slot {
        state: SlotState::Free,
        xn: 0,
        next: 0,
        row: 0,
        tag: 0,
        total: 0,
        log: 0,
        place: 0,
        key: Bytes::new(alloc),
        short: Bytes::new(alloc),
    }
}
