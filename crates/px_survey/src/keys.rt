ghost use Rattle.std.specs.Prelude.{◌≡◌, ◌⊎◌, ◌<◌, ◌≤◌, ◌-◌, true, false, length, slice_index_or, IfNone, IfOk, IfSome, OnOk};
ghost use Rattle.px_cells.specs.Unused.{unused_slot};
ghost use Rattle.px_survey.specs.Surveyed.{Adds, HasKey};

use px_cells::Slot;
use std::alloc::AllocError;
use std::collections::BTreeSet;

/// The key of the slot of that number, where there is one.
pub(crate) fn key_at(slots: &[Slot], number: u32) -> Option<&[u8]>
    ensures some { IfSome result (λ key. (1 ≤ number) × (number ≤ length slots.now) × (key.now ≡ (slice_index_or slots.now (number - 1) unused_slot).key)) }
    ensures none { IfNone result ((number ≡ 0) ⊎ (length slots.now < number)) }
{
    if number == 0 {
        return None;
    }
    let slot = slots.get(number as usize - 1)?;
    Some(slot.key.as_slice())
}

/// Adds a key: whether it wasn't there. It fails only for want of memory.
pub(crate) fn add<'a>(keys: &mut BTreeSet<&'a [u8]>, key: &'a [u8]) -> Result<bool, AllocError>
    ensures new { IfOk result (λ new. new ≡ true → ¬ HasKey keys.old key.now) }
    ensures old { IfOk result (λ new. new ≡ false → HasKey keys.old key.now) }
    ensures adds { OnOk result (Adds key.now (HasKey keys.old) (HasKey keys.new)) }
{
    Ok(keys.insert(key)?)
}
