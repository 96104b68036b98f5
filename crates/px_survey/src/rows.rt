ghost use Rattle.std.specs.Prelude.{◌≡◌, ◌+◌, Bool, List, true, false, length, IfNone, IfOk, IfSome};
ghost use Rattle.px_free.specs.Places.{rows_of};
ghost use Rattle.px_chain.specs.Sound.{IsPlace, IsUsedRow, head_of};
ghost use Rattle.px_survey.specs.Cells.{table_in};
ghost use Rattle.px_survey.specs.Flaws.{IsFirstFlaw, IsFlawedChain, IsFlawedPointer};
ghost use Rattle.px_survey.specs.Surveyed.{AreKeys, HasKey, Reaches};

use crate::cells::Cells;
use crate::flaw::Flaw;
use crate::keys;
use crate::links::ChainOf;
use crate::walking::walk;
use std::alloc::{AllocError, Global};
use std::collections::BTreeSet;

/// The first row pointer that is a flaw. `slots` has the marks of the slots that a walk met, `rows` of the row pointers on the
/// free list. The slots of the chains in front of the flaw are marked.
pub(crate) fn flawed_row<'a>(
    alloc: Global,
    cells: &'a Cells<'a>,
    slots: &mut [bool],
    rows: &[bool],
) -> Result<Option<u32>, AllocError>
    requires slots { length slots.old ≡ length cells.now.slots.now }
    requires rows { length rows.now ≡ length cells.now.pointers.now }
    requires reaches { Reaches (table_in cells.now) 1 slots.old rows.now }
    ensures none { IfOk result (λ flawed. IfNone flawed (Reaches (table_in cells.now) (cells.now.header.now.rows + 1) slots.new rows.now)) }
    ensures some { IfOk result (λ flawed. IfSome flawed (λ row. IsFirstFlaw (table_in cells.now) (Flaw.Pointer row))) }
{
    let mut keys = BTreeSet::new(alloc);
    for i in 0..cells.header.rows {
        if !is_sound(cells, i + 1, slots, rows, &mut keys)? {
            return Ok(Some(i + 1));
        }
    }
    Ok(None)
}

/// Whether a row pointer is no flaw, where those in front of it aren't.
fn is_sound<'a>(
    cells: &'a Cells<'a>,
    row: u32,
    slots: &mut [bool],
    rows: &[bool],
    keys: &mut BTreeSet<&'a [u8]>,
) -> Result<bool, AllocError>
    requires slots { length slots.old ≡ length cells.now.slots.now }
    requires rows { length rows.now ≡ length cells.now.pointers.now }
    requires place { IsPlace (rows_of cells.now.header.now) row }
    requires reaches { Reaches (table_in cells.now) row slots.old rows.now }
    requires keys { AreKeys (table_in cells.now) row (HasKey keys.old) }
    ensures reaches { IfOk result (λ sound. sound ≡ true → Reaches (table_in cells.now) (row + 1) slots.new rows.now) }
    ensures keys { IfOk result (λ sound. sound ≡ true → AreKeys (table_in cells.now) (row + 1) (HasKey keys.new)) }
    ensures flawed { IfOk result (λ sound. sound ≡ false → IsFlawedPointer (table_in cells.now) row) }
{
    let pointer = &cells.pointers[row as usize - 1];
    if pointer.used {
        is_chain_sound(cells, row, pointer.head, slots, keys)
    } else {
        Ok(rows[row as usize - 1])
    }
}

/// Whether the chain of a used row pointer is no flaw, where those in front of it aren't.
fn is_chain_sound<'a>(
    cells: &'a Cells<'a>,
    row: u32,
    head: u32,
    slots: &mut [bool],
    keys: &mut BTreeSet<&'a [u8]>,
) -> Result<bool, AllocError>
    requires slots { length slots.old ≡ length cells.now.slots.now }
    requires used { IsUsedRow (table_in cells.now) row }
    requires head { head ≡ head_of (table_in cells.now) row }
    requires keys { AreKeys (table_in cells.now) row (HasKey keys.old) }
    ensures reaches { (rows : List Bool) → Reaches (table_in cells.now) row slots.old rows
        → IfOk result (λ sound. sound ≡ true → Reaches (table_in cells.now) (row + 1) slots.new rows) }
    ensures keys { IfOk result (λ sound. sound ≡ true → AreKeys (table_in cells.now) (row + 1) (HasKey keys.new)) }
    ensures flawed { (rows : List Bool) → Reaches (table_in cells.now) row slots.old rows
        → IfOk result (λ sound. sound ≡ false → IsFlawedChain (table_in cells.now) row) }
{
    let Some(key) = keys::key_at(cells.slots, head) else {
        return Ok(false);
    };
    let chain = ChainOf { cells, row, key };
    if !walk(&chain, head, slots) {
        return Ok(false);
    }
    keys::add(keys, key)
}
