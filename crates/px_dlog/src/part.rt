ghost use Rattle.std.specs.Prelude.{◌≡◌, ◌≤◌, ◌++◌, ℕ, List, length, IfSome, IfNone};
ghost use Rattle.px_dlog.specs.Part.{PartAt, part_size, part_text};

use crate::header::Header;
use px_bytes::{fnv, fnv_on};

/// The bytes in front of a part's own: length, sum, table and slot.
pub const HEADER_SIZE: usize = 16;

/// The most bytes that a part has of its own.
pub const LONGEST_PART: usize = 65_536;

/// How many bytes a part has that has so many of its own.
pub const fn part_size(length: usize) -> usize
    requires { length ≤ LONGEST_PART }
    ensures { result ≡ part_size length }
{
    HEADER_SIZE + length
}

/// What stands in front of the bytes in their part. It takes no memory.
#[tactic(auto, unfolding(crate::specs::Part::part_text))]
pub fn part_header(table: u8, slot: u32, bytes: &[u8]) -> [u8; HEADER_SIZE]
    requires { length bytes.now ≤ LONGEST_PART }
    ensures { result ++ bytes.now ≡ part_text table slot bytes.now }
{
    let l = (bytes.len() as u32).to_be_bytes();
    let t = u32::from(table).to_be_bytes();
    let n = slot.to_be_bytes();
    let named = [t[0], t[1], t[2], t[3], n[0], n[1], n[2], n[3]];
    let s = fnv_on(fnv(&named), bytes).to_be_bytes();
    [
        l[0], l[1], l[2], l[3], s[0], s[1], s[2], s[3], t[0], t[1], t[2], t[3], n[0], n[1], n[2],
        n[3],
    ]
}

/// The bytes of the part of this length, table and slot that checks at the front of the text. More may follow it. None
/// where no such part checks there: the text ends too soon, or the length, the table, the slot or the sum is another.
pub fn check_part(text: &[u8], size: u32, table: u8, slot: u32) -> Option<&[u8]>
    ensures found { IfSome result (λ bytes. PartAt text.now table slot bytes.now) }
    ensures size { IfSome result (λ bytes. length bytes.now ≡ size) }
    ensures none { IfNone result ((bytes : List ℕ) → length bytes ≡ size → ¬ PartAt text.now table slot bytes) }
{
    let header = Header::read(text)?;
    if !header.checks(text, size, table, slot) {
        return None;
    }
    let end = part_size(header.length as usize);
    Some(&text[HEADER_SIZE..end])
}
