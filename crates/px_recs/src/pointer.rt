ghost use Rattle.std.specs.Prelude.{◌≡◌, ◌<◌, ◌^◌, ◌++◌, IfSome, IfNone, OnOk, OnErr};
ghost use Rattle.px_cells.specs.declared.pointer.Pointer.{Pointer};
ghost use Rattle.px_recs.specs.Text.{PointerAt, pointer_text};

use crate::code::{code_of_use, use_of_code};
use crate::padding::are_zeros;
use px_bytes::Fields;
use px_cells::{POINTER_SIZE, Pointer};
use std::alloc::AllocError;

/// How many zero bytes follow the state of a row pointer.
const GAP_SIZE: usize = 3;

/// The row pointer with these bytes. None exactly where they are no row pointer's. It takes no memory.
#[tactic(auto, using(crate::proofs::Texts::pointer_size))]
pub fn read_pointer(bytes: &[u8]) -> Option<Pointer>
    ensures some { IfSome result (PointerAt bytes.now) }
    ensures none { IfNone result ((pointer : Pointer) → ¬ PointerAt bytes.now pointer) }
{
    let mut fields = Fields::new(bytes);
    let code = fields.take_u8()?;
    let gap = fields.take_slice(GAP_SIZE)?;
    let head = fields.take_u32()?;
    if fields.left() != 0 {
        return None;
    }
    if !are_zeros(gap) {
        return None;
    }
    let used = use_of_code(code)?;
    Some(Pointer { used, head })
}

/// Appends the row pointer's bytes. Without memory for them `out` stays as it was.
pub fn write_pointer(pointer: &Pointer, out: &mut Vec<u8>) -> Result<(), AllocError>
    ensures ok { OnOk result (out.new.items ≡ out.old.items ++ pointer_text pointer.now) }
    // With this, what was appended is read again.
    ensures fits { pointer.now.head < 2 ^ 32 }
    ensures err { OnErr result (out.new.items ≡ out.old.items) }
{
    out.extend_from_slice(&pointer_bytes(pointer))
}

#[tactic(auto, unfolding(crate::specs::Text::pointer_text))]
fn pointer_bytes(pointer: &Pointer) -> [u8; POINTER_SIZE]
    ensures text { result ≡ pointer_text pointer.now }
    ensures fits { pointer.now.head < 2 ^ 32 }
{
    let h = pointer.head.to_be_bytes();
    [code_of_use(pointer.used), 0, 0, 0, h[0], h[1], h[2], h[3]]
}
