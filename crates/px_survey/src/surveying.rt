ghost use Rattle.std.specs.Prelude.{◌≡◌, ◌+◌, ℕ, Bool, List, true, false, All, IsTrue, length, IfNone, IfOk, IfSome};
ghost use Rattle.px_cells.specs.Form.{is_slot};
ghost use Rattle.px_chain.specs.Sound.{IsSound, Layout};
ghost use Rattle.px_survey.specs.Cells.{table_in, table_of};
ghost use Rattle.px_survey.specs.Flaws.{IsFirstFlaw, IsFlawedHeader};
ghost use Rattle.px_survey.specs.Surveyed.{Reaches};
ghost use Rattle.px_survey.specs.Walked.{IsMarked};

use crate::cells::Cells;
use crate::flaw::Flaw;
use crate::links::{FreeRows, FreeSlots};
use crate::rows::flawed_row;
use crate::walking::walk;
use px_cells::{Header, Pointer, Slot};
use std::alloc::{AllocError, Global};

/// Whether the cells of a table are sound, and else their first flaw: the header, else the row pointer of the lowest number,
/// else the slot of the lowest number.
///
/// Row pointers and slots come in order of their numbers, as many as the header counts. `None` comes only where the cells are
/// sound, for each short length in whose form the slots are, and sound cells have no flaw (`sound_cells_have_no_flaw`). It fails
/// only for want of memory: a mark for each slot and each row pointer, and a set of the keys, which aren't copied. Besides the
/// look-ups in that set its time is linear.
pub fn survey(
    alloc: Global,
    header: &Header,
    pointers: &[Pointer],
    slots: &[Slot],
) -> Result<Option<Flaw>, AllocError>
    requires rows { length pointers.now ≡ header.now.rows }
    requires slots { length slots.now ≡ header.now.slots }
    ensures sound { (short : ℕ) → All (λ slot. IsTrue (is_slot short slot)) slots.now
        → IfOk result (λ flaw. IfNone flaw ((layout : Layout) × IsSound short (table_of header.now pointers.now slots.now) layout)) }
    ensures flaw { IfOk result (λ flaw. IfSome flaw (IsFirstFlaw (table_of header.now pointers.now slots.now))) }
{
    let cells = Cells {
        header,
        pointers,
        slots,
    };
    let mut met = vec![in alloc; false; slots.len()]?;
    let mut free_rows = vec![in alloc; false; pointers.len()]?;
    first_flaw(alloc, &cells, &mut met, &mut free_rows)
}

/// The first flaw of the cells, where nothing is marked yet.
fn first_flaw<'a>(
    alloc: Global,
    cells: &'a Cells<'a>,
    met: &mut [bool],
    free_rows: &mut [bool],
) -> Result<Option<Flaw>, AllocError>
    requires slots { length met.old ≡ length cells.now.slots.now }
    requires rows { length free_rows.old ≡ length cells.now.pointers.now }
    requires no_slots { (place : ℕ) → ¬ IsMarked met.old place }
    requires no_rows { (place : ℕ) → ¬ IsMarked free_rows.old place }
    ensures sound { (short : ℕ) → All (λ slot. IsTrue (is_slot short slot)) cells.now.slots.now
        → IfOk result (λ flaw. IfNone flaw ((layout : Layout) × IsSound short (table_in cells.now) layout)) }
    ensures flaw { IfOk result (λ flaw. IfSome flaw (IsFirstFlaw (table_in cells.now))) }
{
    if !free_lists_end(cells, met, free_rows) {
        return Ok(Some(Flaw::Header));
    }
    match flawed_row(alloc, cells, met, free_rows)? {
        Some(row) => Ok(Some(Flaw::Pointer(row))),
        None => Ok(flawed_slot(cells, met)),
    }
}

/// Walks along both free lists, and marks what they meet: whether both come to 0.
fn free_lists_end(cells: &Cells<'_>, slots: &mut [bool], rows: &mut [bool]) -> bool
    requires slots { length slots.old ≡ length cells.now.slots.now }
    requires rows { length rows.old ≡ length cells.now.pointers.now }
    requires no_slots { (place : ℕ) → ¬ IsMarked slots.old place }
    requires no_rows { (place : ℕ) → ¬ IsMarked rows.old place }
    ensures reaches { result ≡ true → Reaches (table_in cells.now) 1 slots.new rows.new }
    ensures flawed { result ≡ false → IsFlawedHeader (table_in cells.now) }
{
    walk(&FreeSlots { cells }, cells.header.free_slot, slots)
        && walk(&FreeRows { cells }, cells.header.free_row, rows)
}

/// The first slot that isn't marked, where all row pointers were looked at.
fn flawed_slot(cells: &Cells<'_>, met: &[bool]) -> Option<Flaw>
    requires { length met.now ≡ length cells.now.slots.now }
    ensures sound { (rows : List Bool) → Reaches (table_in cells.now) (cells.now.header.now.rows + 1) met.now rows
        → (short : ℕ) → All (λ slot. IsTrue (is_slot short slot)) cells.now.slots.now
        → IfNone result ((layout : Layout) × IsSound short (table_in cells.now) layout) }
    ensures flaw { (rows : List Bool) → Reaches (table_in cells.now) (cells.now.header.now.rows + 1) met.now rows
        → IfSome result (IsFirstFlaw (table_in cells.now)) }
{
    for i in 0..cells.header.slots {
        if !met[i as usize] {
            return Some(Flaw::Slot(i + 1));
        }
    }
    None
}
