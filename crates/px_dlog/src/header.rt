use crate::part::{HEADER_SIZE, LONGEST_PART, part_size};
use px_bytes::{Fields, fnv};

/// Where the bytes begin that the sum is taken of: behind length and sum.
const SUMMED_FROM: usize = 8;

/// The numbers in front of a part's bytes as they stand there, whatever they are.
#[derive(Clone, Copy)]
pub(crate) struct Header {
    pub(crate) length: u32,
    sum: u32,
    table: u32,
    slot: u32,
}

impl Header {
    ghost use Rattle.std.specs.Prelude.{◌<◌, ◌↔◌, length, IsTrue, IsNone, IfSome};
    ghost use Rattle.px_dlog.specs.Header.{IsHeader, Checks};

    pub(crate) fn read(text: &[u8]) -> Option<Header>
        ensures none { IsNone result ↔ (length text.now < HEADER_SIZE) }
        ensures front { IfSome result (IsHeader text.now) }
    {
        let mut fields = Fields::new(text);
        let length = fields.take_u32()?;
        let sum = fields.take_u32()?;
        let table = fields.take_u32()?;
        let slot = fields.take_u32()?;
        Some(Header {
            length,
            sum,
            table,
            slot,
        })
    }

    /// Whether the text, which begins with this header, begins with a part of this length, table and slot.
    pub(crate) fn checks(self, text: &[u8], size: u32, table: u8, slot: u32) -> bool
        ensures { IsTrue result ↔ Checks text.now self size table slot }
    {
        let length = self.length as usize;
        self.length == size
            && self.table == u32::from(table)
            && self.slot == slot
            && 1 <= length
            && length <= LONGEST_PART
            && part_size(length) <= text.len()
            && fnv(&text[SUMMED_FROM..part_size(length)]) == self.sum
    }
}
