ghost use Rattle.std.specs.Prelude.{◌≡◌, length};
ghost use Rattle.std.specs.List.{list_all};
ghost use Rattle.px_change.specs.Grammar.{has_cells, has_commit, is_before, is_cell, is_change, is_number, is_size, is_slot_alone, is_stored, is_table, is_unlinking, is_version, is_what, rise};

use crate::codes::code_of_cell;
use crate::limits::{LEAST_UNLINKING, MOST_CELLS};
use crate::{Change, ChangeKind};
use px_cells::{Cell, CellKind, HEADER_SIZE, POINTER_SIZE, SLOT_HEAD_SIZE};
use px_model::{LONGEST_SHORT, MOST_TABLES, SHORTEST_SHORT, STORED_NUMBERS_END};

/// Whether a store with that short length may have the change.
#[tactic(auto, unfolding(crate::specs::Grammar::is_change))]
pub fn is_in_grammar(change: &Change, short: u32) -> bool
    ensures { result ≡ is_change short change.now }
{
    let cells = change.cells.as_slice();
    is_stored_number(change.xn)
        && is_commit_of(change.kind, change.commit)
        && are_cells_of(change.kind, cells)
        && are_cells(cells, short)
        && do_rise(cells)
}

fn is_stored_number(xn: u64) -> bool
    ensures { result ≡ is_stored xn }
{
    1 <= xn && xn < STORED_NUMBERS_END
}

fn is_commit_of(kind: ChangeKind, commit: u64) -> bool
    ensures { result ≡ has_commit kind commit }
{
    match kind {
        ChangeKind::Commit => 1 <= commit,
        _ => commit == 0,
    }
}

fn are_cells_of(kind: ChangeKind, cells: &[Cell]) -> bool
    ensures { result ≡ has_cells kind cells.now }
{
    match kind {
        ChangeKind::Put => are_version(cells),
        ChangeKind::Commit | ChangeKind::Rollback => cells.is_empty(),
        ChangeKind::Sweep | ChangeKind::Tidy => are_unlinking(cells),
        ChangeKind::Move => are_slot_alone(cells),
    }
}

fn are_version(cells: &[Cell]) -> bool
    ensures { result ≡ is_version cells.now }
{
    match cells {
        [header, slot, pointer] => {
            is_kind(header, CellKind::Header)
                && is_kind(slot, CellKind::Slot)
                && is_kind(pointer, CellKind::Pointer)
        }
        _ => false,
    }
}

fn are_unlinking(cells: &[Cell]) -> bool
    ensures { result ≡ is_unlinking cells.now }
{
    LEAST_UNLINKING <= cells.len() && cells.len() <= MOST_CELLS
}

fn are_slot_alone(cells: &[Cell]) -> bool
    ensures { result ≡ is_slot_alone cells.now }
{
    match cells {
        [slot] => is_kind(slot, CellKind::Slot),
        _ => false,
    }
}

fn is_kind(cell: &Cell, what: CellKind) -> bool
    ensures { result ≡ is_what what cell.now }
{
    code_of_cell(cell.what) == code_of_cell(what)
}

fn are_cells(cells: &[Cell], short: u32) -> bool
    ensures { result ≡ list_all (is_cell short) cells.now }
{
    cells.iter().all(|cell| is_cell(cell, short))
}

fn is_cell(cell: &Cell, short: u32) -> bool
    ensures { result ≡ is_cell short cell.now }
{
    1 <= cell.table
        && u32::from(cell.table) <= MOST_TABLES
        && is_number_of(cell.what, cell.number)
        && is_size_of(cell.what, cell.bytes.as_slice().len(), short)
}

fn is_number_of(what: CellKind, number: u32) -> bool
    ensures { result ≡ is_number what number }
{
    match what {
        CellKind::Header => number == 0,
        CellKind::Slot | CellKind::Pointer => 1 <= number,
    }
}

fn is_size_of(what: CellKind, size: usize, short: u32) -> bool
    ensures { result ≡ is_size short what size }
{
    match what {
        CellKind::Header => size == HEADER_SIZE,
        CellKind::Slot => is_size_of_slot(size, short),
        CellKind::Pointer => size == POINTER_SIZE,
    }
}

fn is_size_of_slot(size: usize, short: u32) -> bool
    ensures { result ≡ is_size short CellKind.Slot size }
{
    SHORTEST_SHORT <= short && short <= LONGEST_SHORT && size == SLOT_HEAD_SIZE + short as usize
}

// Each stands before the next.
fn do_rise(cells: &[Cell]) -> bool
    ensures { result ≡ rise cells.now }
{
    let Some((first, rest)) = cells.split_first() else {
        return true;
    };
    let mut before = first;
    for cell in rest {
        if !stands_before(before, cell) {
            return false;
        }
        before = cell;
    }
    true
}

fn stands_before(first: &Cell, second: &Cell) -> bool
    ensures { result ≡ is_before first.now second.now }
{
    let kind = code_of_cell(first.what);
    let next_kind = code_of_cell(second.what);
    first.table == second.table
        && (kind < next_kind || (kind == next_kind && first.number < second.number))
}
