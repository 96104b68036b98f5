ghost use Rattle.std.specs.Prelude.{◌≡◌, ◌≤◌, ℕ, IfSome, IfNone};
ghost use Rattle.px_chain.specs.Sound.{IsVariation, head_of, key_of, next_slot};
ghost use Rattle.px_survey.specs.Cells.{table_in};
ghost use Rattle.px_survey.specs.Flaws.{IsOnFreeRows, IsOnFreeSlots};

use crate::cells::Cells;
use px_cells::SlotState;

/// A list in the cells: a free list, or the chain of a row.
pub(crate) trait Links {
    /// Whether a place may stand on it.
    ghost is_on: { Self → ℕ → Type 0 };

    /// Where a place leads.
    ghost next: { Self → ℕ → ℕ };

    /// Where a place of the list leads; None for a number that is none of its places.
    fn next(&self, number: u32) -> Option<u32>
        requires { 1 ≤ number }
        ensures some { IfSome result (λ after. is_on self.now number × (after ≡ next self.now number)) }
        ensures none { IfNone result (¬ is_on self.now number) };
}

/// The free list of the slots.
#[derive(Drop)]
pub(crate) struct FreeSlots<'a> {
    pub(crate) cells: &'a Cells<'a>,
}

impl<'a> Links for FreeSlots<'a> {
    ghost is_on = { λ it. IsOnFreeSlots (table_in it.cells.now) };

    ghost next = { λ it. next_slot (table_in it.cells.now) };

    fn next(&self, number: u32) -> Option<u32> {
        let slot = self.cells.slots.get(number as usize - 1)?;
        match slot.state {
            SlotState::Free => Some(slot.next),
            SlotState::Row | SlotState::Deletion => None,
        }
    }
}

/// The free list of the row pointers.
#[derive(Drop)]
pub(crate) struct FreeRows<'a> {
    pub(crate) cells: &'a Cells<'a>,
}

impl<'a> Links for FreeRows<'a> {
    ghost is_on = { λ it. IsOnFreeRows (table_in it.cells.now) };

    ghost next = { λ it. head_of (table_in it.cells.now) };

    fn next(&self, number: u32) -> Option<u32> {
        let pointer = self.cells.pointers.get(number as usize - 1)?;
        if pointer.used {
            None
        } else {
            Some(pointer.head)
        }
    }
}

/// The chain of a row, whose first slot has this key.
#[derive(Drop)]
pub(crate) struct ChainOf<'a> {
    pub(crate) cells: &'a Cells<'a>,
    pub(crate) row: u32,
    pub(crate) key: &'a [u8],
    ghost its_key: { key.now ≡ key_of (table_in cells.now) row },
}

impl<'a> Links for ChainOf<'a> {
    ghost is_on = { λ it. IsVariation (table_in it.cells.now) it.row };

    ghost next = { λ it. next_slot (table_in it.cells.now) };

    fn next(&self, number: u32) -> Option<u32> {
        let slot = self.cells.slots.get(number as usize - 1)?;
        let is_variation = slot.row == self.row && slot.key.as_slice() == self.key;
        match slot.state {
            SlotState::Free => None,
            SlotState::Row | SlotState::Deletion if is_variation => Some(slot.next),
            SlotState::Row | SlotState::Deletion => None,
        }
    }
}
