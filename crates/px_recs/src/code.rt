ghost use Rattle.std.specs.Prelude.{◌≡◌, ◌≢◌, Bool, IfNone, IfSome};
ghost use Rattle.px_cells.specs.declared.slot.SlotState.{SlotState};
ghost use Rattle.px_recs.specs.Text.{state_code, used_code};

use px_cells::SlotState;

/// The state of a slot on the free list, and of one that was never used.
pub const FREE_STATE: u8 = 0;

/// The state of a slot with a row.
pub const ROW_STATE: u8 = 1;

/// The state of a slot with the deletion of a row.
pub const DELETION_STATE: u8 = 2;

/// The state of a row pointer on the free list, and of one that was never used.
pub const FREE_POINTER: u8 = 0;

/// The state of a row pointer that a row has.
pub const USED_POINTER: u8 = 1;

pub(crate) fn code_of_state(state: SlotState) -> u8
    ensures { result ≡ state_code state }
{
    match state {
        SlotState::Free => FREE_STATE,
        SlotState::Row => ROW_STATE,
        SlotState::Deletion => DELETION_STATE,
    }
}

/// None where no state has the code.
pub(crate) fn state_of_code(code: u8) -> Option<SlotState>
    ensures some { IfSome result (λ state. code ≡ state_code state) }
    ensures none { IfNone result ((state : SlotState) → code ≢ state_code state) }
{
    match code {
        FREE_STATE => Some(SlotState::Free),
        ROW_STATE => Some(SlotState::Row),
        DELETION_STATE => Some(SlotState::Deletion),
        _ => None,
    }
}

pub(crate) fn code_of_use(used: bool) -> u8
    ensures { result ≡ used_code used }
{
    if used { USED_POINTER } else { FREE_POINTER }
}

/// Whether the code is that of a row pointer in use; None where it is no row pointer's.
pub(crate) fn use_of_code(code: u8) -> Option<bool>
    ensures some { IfSome result (λ used. code ≡ used_code used) }
    ensures none { IfNone result ((used : Bool) → code ≢ used_code used) }
{
    match code {
        FREE_POINTER => Some(false),
        USED_POINTER => Some(true),
        _ => None,
    }
}
