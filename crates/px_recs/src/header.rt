ghost use Rattle.std.specs.Prelude.{◌≡◌, ◌<◌, ◌++◌, length, IfSome, IfNone, OnOk, OnErr};
ghost use Rattle.px_cells.specs.declared.header.Header.{Header};
ghost use Rattle.px_cells.specs.declared.limits.TheConstants.{HEADER_SIZE};
ghost use Rattle.px_recs.specs.Text.{HeaderAt, HeaderFits, header_text};

use px_bytes::Fields;
use px_cells::{HEADER_SIZE, Header};
use std::alloc::AllocError;

/// The header with these bytes. None exactly where they are no header's. It takes no memory.
#[tactic(auto, using(crate::proofs::Texts::header_size))]
pub fn read_header(bytes: &[u8]) -> Option<Header>
    ensures some { IfSome result (HeaderAt bytes.now) }
    ensures none { IfNone result ((header : Header) → ¬ HeaderAt bytes.now header) }
{
    let mut fields = Fields::new(bytes);
    let header = take_header(&mut fields)?;
    if fields.left() != 0 {
        return None;
    }
    Some(header)
}

/// Without all of its bytes some may be taken.
fn take_header(fields: &mut Fields<'_>) -> Option<Header>
    ensures none { IfNone result (length fields.old < HEADER_SIZE) }
    ensures taken { IfSome result (λ header. fields.old ≡ header_text header ++ fields.new) }
    ensures fit { IfSome result HeaderFits }
{
    let slots = fields.take_u32()?;
    let free_slot = fields.take_u32()?;
    let rows = fields.take_u32()?;
    let free_row = fields.take_u32()?;
    Some(Header {
        slots,
        free_slot,
        rows,
        free_row,
    })
}

/// Appends the header's bytes. Without memory for them `out` stays as it was.
pub fn write_header(header: &Header, out: &mut Vec<u8>) -> Result<(), AllocError>
    ensures ok { OnOk result (out.new.items ≡ out.old.items ++ header_text header.now) }
    // With this, what was appended is read again.
    ensures fits { HeaderFits header.now }
    ensures err { OnErr result (out.new.items ≡ out.old.items) }
{
    out.extend_from_slice(&header_bytes(header))
}

#[tactic(auto, unfolding(crate::specs::Text::header_text))]
fn header_bytes(header: &Header) -> [u8; HEADER_SIZE]
    ensures text { result ≡ header_text header.now }
    ensures fits { HeaderFits header.now }
{
    let s = header.slots.to_be_bytes();
    let f = header.free_slot.to_be_bytes();
    let r = header.rows.to_be_bytes();
    let g = header.free_row.to_be_bytes();
    [
        s[0], s[1], s[2], s[3], f[0], f[1], f[2], f[3], r[0], r[1], r[2], r[3], g[0], g[1], g[2],
        g[3],
    ]
}
