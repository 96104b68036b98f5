ghost use Rattle.std.specs.Prelude.{◌≡◌, ◌++◌, length, take, IsTrue, IfSome, IfNone, IfOk, OnOk, OnErr};
ghost use Rattle.px_cells.specs.declared.slot.Slot.{Slot};
ghost use Rattle.px_cells.specs.Form.{is_short, is_slot};
ghost use Rattle.px_recs.specs.Fields.{NumbersFit, numbers_of, numbers_text};
ghost use Rattle.px_recs.specs.Text.{SlotAt, SlotFits, slot_text};

use crate::code::code_of_state;
use crate::padding::append_padded;
use crate::parts::Parts;
use px_bytes::{put_u32, put_u64};
use px_cells::Slot;
use px_model::LONGEST_KEY;
use std::alloc::{AllocError, Global};

/// The slot with these bytes, in a store with this short length. None exactly where they are those of no slot in the form.
pub fn read_slot(alloc: Global, bytes: &[u8], short: u32) -> Result<Option<Slot>, AllocError>
    ensures some { IfOk result (λ read. IfSome read (SlotAt short bytes.now)) }
    ensures none { IfOk result (λ read. IfNone read ((slot : Slot) → ¬ SlotAt short bytes.now slot)) }
{
    let Some(parts) = Parts::read(bytes, short) else {
        return Ok(None);
    };
    if !parts.is_in_form(short) {
        return Ok(None);
    }
    let slot = parts.to_slot(alloc)?;
    Ok(Some(slot))
}

/// Appends the slot's bytes, in a store with this short length. Without memory for them `out` stays as it was.
pub fn write_slot(slot: &Slot, short: u32, out: &mut Vec<u8>) -> Result<(), AllocError>
    requires short { IsTrue (is_short short) }
    requires form { IsTrue (is_slot short slot.now) }
    ensures ok { OnOk result (out.new.items ≡ out.old.items ++ slot_text short slot.now) }
    // With this, what was appended is read again.
    ensures fits { OnOk result (SlotFits slot.now) }
    ensures err { OnErr result (out.new.items ≡ out.old.items) }
{
    let before = out.len();
    let appended = append_slot(out, slot, short);
    if appended.is_err() {
        out.truncate(before);
    }
    appended
}

/// The same, but an error may leave a part of the bytes.
fn append_slot(out: &mut Vec<u8>, slot: &Slot, short: u32) -> Result<(), AllocError>
    requires short { IsTrue (is_short short) }
    requires form { IsTrue (is_slot short slot.now) }
    ensures ok { OnOk result (out.new.items ≡ out.old.items ++ slot_text short slot.now) }
    ensures fits { OnOk result (SlotFits slot.now) }
    ensures err { OnErr result (take (length out.old.items) out.new.items ≡ out.old.items) }
{
    let key = slot.key.as_slice();
    let front = [code_of_state(slot.state), key.len() as u8, 0, 0];
    out.extend_from_slice(&front)?;
    append_numbers(out, slot)?;
    append_padded(out, key, LONGEST_KEY)?;
    append_padded(out, slot.short.as_slice(), short as usize)?;
    Ok(())
}

#[tactic(auto, unfolding(crate::specs::Fields::numbers_text))]
fn append_numbers(out: &mut Vec<u8>, slot: &Slot) -> Result<(), AllocError>
    ensures ok { OnOk result (out.new.items ≡ out.old.items ++ numbers_text (numbers_of slot.now)) }
    ensures fit { OnOk result (NumbersFit (numbers_of slot.now)) }
    ensures err { OnErr result (take (length out.old.items) out.new.items ≡ out.old.items) }
{
    put_u64(out, slot.xn)?;
    put_u32(out, slot.next)?;
    put_u32(out, slot.row)?;
    put_u32(out, slot.tag)?;
    put_u32(out, slot.total)?;
    put_u32(out, slot.log)?;
    put_u32(out, slot.place)?;
    Ok(())
}
