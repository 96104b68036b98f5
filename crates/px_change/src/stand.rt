ghost use Rattle.std.specs.Prelude.{◌≡◌, ◌^◌, ◌<◌};
ghost use Rattle.std.specs.List.{list_all};
ghost use Rattle.px_change.specs.Grammar.{is_due, is_of_tables, is_within};

use crate::{Change, ChangeKind};
use px_cells::Cell;

/// Whether the frame of this number may hold a change of the grammar, in a store with so many tables.
pub fn may_stand(change: &Change, tables: u32, number: u64) -> bool
    requires { number < 2 ^ 48 }
    ensures { result ≡ is_within tables number change.now }
{
    are_of_tables(change.cells.as_slice(), tables)
        && is_number_due(change.kind, change.commit, number)
}

fn are_of_tables(cells: &[Cell], tables: u32) -> bool
    ensures { result ≡ list_all (is_of_tables tables) cells.now }
{
    cells.iter().all(|cell| is_of_tables(cell, tables))
}

fn is_of_tables(cell: &Cell, tables: u32) -> bool
    ensures { result ≡ is_of_tables tables cell.now }
{
    u32::from(cell.table) <= tables
}

fn is_number_due(kind: ChangeKind, commit: u64, number: u64) -> bool
    requires { number < 2 ^ 48 }
    ensures { result ≡ is_due number kind commit }
{
    match kind {
        ChangeKind::Commit => commit <= number + 1,
        _ => true,
    }
}
