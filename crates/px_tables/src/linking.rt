ghost use Rattle.std.specs.Prelude.{◌≡◌, ◌≤◌, length};
ghost use Rattle.px_model.specs.declared.limits.TheConstants.{LONGEST_SHORT};
ghost use Rattle.px_model.specs.declared.write.Write.{Write};
ghost use Rattle.px_chain.specs.Links.{IsStored};
ghost use Rattle.px_tables.specs.Held.{Held};
ghost use Rattle.px_tables.specs.Linking.{FitsSlot, IsPlaceFor, IsPrepared, bytes_of_key, version_of};

use px_cells::{Header, Slot, SlotState};
use px_model::{Bytes, Row, Write};
use std::alloc::Global;

/// Where the next version of a key goes: the slot's number, its row pointer, the slot behind it, and the header once that number,
/// and the row pointer of a new row, are taken.
#[derive(Clone, Copy, Debug)]
pub struct Place {
    pub header: Header,
    pub number: u32,
    pub row: u32,
    /// 0 where the row is new.
    pub next: u32,
}

/// A version of a row that is prepared: its slot, that slot's number, and the header once that number, and the row pointer of
/// a new row, are taken.
#[derive(Debug, Drop)]
pub struct Linking {
    pub header: Header,
    pub number: u32,
    pub slot: Slot,
}

impl Place {
    /// The version in this slot, prepared to go here. The slot may have a part in a data log, whose record names the slot by its
    /// number here.
    pub fn link(self, slot: Slot) -> Linking
        requires row { slot.row ≡ self.row }
        requires next { slot.next ≡ self.next }
        ensures is { result ≡ record { header = self.header; number = self.number; slot = slot } }
        ensures prepared { (held : Held) → IsPlaceFor held slot.key self → IsStored held.cells.short slot → IsPrepared held result }
    {
        Linking {
            header: self.header,
            number: self.number,
            slot,
        }
    }

    /// The slot of the version that the transaction with the stored number `xn` writes here, where all its bytes have room in a
    /// slot (`a_version_that_fits_is_stored`). The key and the body move into it.
    pub fn version(self, alloc: Global, xn: u64, write: Write) -> Slot
        requires { FitsSlot LONGEST_SHORT write }
        ensures { result ≡ version_of xn self.next self.row write }
    {
        match write {
            Write::Put(row) => self.put(xn, row),
            Write::Delete { table: _, key } => Slot {
                state: SlotState::Deletion,
                xn,
                next: self.next,
                row: self.row,
                tag: 0,
                total: 0,
                log: 0,
                place: 0,
                key,
                short: Bytes::new(alloc),
            },
        }
    }

    /// The slot of a row that the transaction writes.
    fn put(self, xn: u64, row: Row) -> Slot
        requires { length row.body ≤ LONGEST_SHORT }
        ensures { result ≡ version_of xn self.next self.row (Write.Put row) }
    {
        let Row {
            table: _,
            key,
            tag,
            body,
        } = row;
        Slot {
            state: SlotState::Row,
            xn,
            next: self.next,
            row: self.row,
            tag,
            total: body.as_slice().len() as u32,
            log: 0,
            place: 0,
            key,
            short: body,
        }
    }
}

/// The key that is written.
pub(crate) fn key_of(write: &Write) -> &[u8]
    ensures { result.now ≡ bytes_of_key write.now }
{
    match write {
        Write::Put(row) => row.key.as_slice(),
        Write::Delete { table: _, key } => key.as_slice(),
    }
}
