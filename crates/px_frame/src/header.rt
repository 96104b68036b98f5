use crate::frame::HEADER_SIZE;
use px_bytes::{Fields, LONGEST_PAYLOAD, NUMBER_LIMIT, SHORTEST_PAYLOAD, fnv};

/// Where the bytes begin that the sum is taken of: behind length and sum.
const SUMMED_FROM: usize = 8;

/// The numbers in front of a payload as they stand there, whatever they are.
#[derive(Clone, Copy)]
pub(crate) struct Header {
    pub(crate) length: u32,
    sum: u32,
    number: u64,
}

impl Header {
    ghost use Rattle.std.specs.Prelude.{◌<◌, ◌↔◌, length, IsTrue, IsNone, IfSome};
    ghost use Rattle.px_frame.specs.Header.{IsHeader, Checks};

    pub(crate) fn read(bytes: &[u8]) -> Option<Header>
        ensures none { IsNone result ↔ (length bytes.now < HEADER_SIZE) }
        ensures front { IfSome result (IsHeader bytes.now) }
    {
        let mut fields = Fields::new(bytes);
        let length = fields.take_u32()?;
        let sum = fields.take_u32()?;
        let number = fields.take_u64()?;
        Some(Header {
            length,
            sum,
            number,
        })
    }

    /// Whether the bytes, which begin with this header, begin with a frame of that number.
    pub(crate) fn checks(self, bytes: &[u8], number: u64) -> bool
        ensures { IsTrue result ↔ Checks bytes.now self number }
    {
        let length = self.length as usize;
        self.number == number
            && number < NUMBER_LIMIT
            && SHORTEST_PAYLOAD <= length
            && length <= LONGEST_PAYLOAD
            && HEADER_SIZE + length <= bytes.len()
            && fnv(&bytes[SUMMED_FROM..HEADER_SIZE + length]) == self.sum
    }
}
