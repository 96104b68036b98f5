ghost use Rattle.std.specs.Prelude.{◌≡◌, ◌⊎◌, ◌≤◌, ℕ, IfErr, IfOk, IsTrue};
ghost use Rattle.px_cells.specs.Form.{is_short};
ghost use Rattle.px_chain.specs.Sound.{Layout};
ghost use Rattle.px_laid.specs.Places.{places};
ghost use Rattle.px_laid.specs.Whole.{AreCellsOf};
ghost use Rattle.px_recs.specs.Place.{is_number_of, place_of, table_file};
ghost use Rattle.px_model.specs.declared.limits.TheConstants.{MOST_TABLES};
ghost use Rattle.px_shown.specs.Tables.{Layouts};
ghost use Rattle.px_opened.specs.Damage.{IsErrorIn, IsErrorOf, flawed_kind, flawed_number};
ghost use Rattle.px_opened.specs.Opened.{AreOpened, IsCounted, IsOpened, Opens, tables_of};
ghost use Rattle.px_opened.specs.declared.error.OpenedError.TheVariants.{Damaged};
ghost use Rattle.px_tables.specs.Held.{table_of};

use crate::error::OpenedError;
use px_cells::CellKind;
use px_laid::{Laid, TableCells, TableError};
use px_recs::{cell_place, table_file};
use px_survey::{Flaw, survey};
use px_tables::Table;
use std::alloc::{AllocError, Global};

/// The tables of a store with so many tables, 1 to 8, and that short length, 16 to 1,024 bytes, in order of their numbers: each
/// has the cells that were laid, and none that its header doesn't count. Where a table can't be had, the first damage comes,
/// unless memory was short before it was met.
pub fn open_tables(
    alloc: Global,
    tables: u32,
    short: u32,
    laid: &Laid,
) -> Result<Vec<Table>, OpenedError>
    requires tables { tables ≤ MOST_TABLES }
    requires short { IsTrue (is_short short) }
    ensures ok { IfOk result (λ opened. AreOpened short tables (places laid.now) opened.items) }
    ensures opens { IfOk result (λ opened. (layouts : Layouts) × Opens short tables (places laid.now) (tables_of opened.items) layouts) }
    ensures counted { IfOk result (λ opened. (t : ℕ) → IsCounted (tables_of opened.items t)) }
    ensures err { IfErr result (IsErrorIn short tables (places laid.now)) }
{
    let mut opened = Vec::new(alloc);
    for before in 0..tables {
        let table = open_table(alloc, (before + 1) as u8, short, laid)?;
        opened.push(table).map_err(AllocError::from)?;
    }
    Ok(opened)
}

fn open_table(alloc: Global, number: u8, short: u32, laid: &Laid) -> Result<Table, OpenedError>
    requires { IsTrue (is_short short) }
    ensures ok { IfOk result (λ table. IsOpened short (places laid.now) number table.cells) }
    ensures counted { IfOk result (λ table. IsCounted (table_of table.cells)) }
    ensures err { IfErr result (IsErrorOf short (places laid.now) number) }
{
    let cells = read_table(alloc, number, short, laid)?;
    let flaw = survey(
        alloc,
        &cells.header,
        cells.pointers.as_slice(),
        cells.slots.as_slice(),
    )?;
    match flaw {
        Some(flaw) => Err(damage_of(number, flaw, short)),
        None => {
            let TableCells {
                header,
                pointers,
                slots,
            } = cells;
            Ok(Table::of_cells(alloc, number, short, header, pointers, slots)?)
        }
    }
}

/// All cells of the table, whether or not they are sound.
fn read_table(alloc: Global, number: u8, short: u32, laid: &Laid) -> Result<TableCells, OpenedError>
    requires { IsTrue (is_short short) }
    ensures ok { IfOk result (AreCellsOf short (places laid.now) number) }
    ensures err { IfErr result (IsErrorOf short (places laid.now) number) }
{
    match laid.table(alloc, number, short) {
        Ok(cells) => Ok(cells),
        Err(TableError::OutOfMemory) => Err(OpenedError::OutOfMemory),
        Err(TableError::BadCell { what, number: cell }) => {
            Err(damaged(what, number, cell, short))
        }
    }
}

/// The damage that a flaw is.
fn damage_of(table: u8, flaw: Flaw, short: u32) -> OpenedError
    requires number { IsTrue (is_number_of (flawed_kind flaw) (flawed_number flaw)) }
    requires short { IsTrue (is_short short) }
    ensures { result ≡ Damaged (table_file (flawed_kind flaw) table) (place_of short (flawed_kind flaw) (flawed_number flaw)) }
{
    match flaw {
        Flaw::Header => damaged(CellKind::Header, table, 0, short),
        Flaw::Pointer(row) => damaged(CellKind::Pointer, table, row, short),
        Flaw::Slot(slot) => damaged(CellKind::Slot, table, slot, short),
    }
}

/// The cell of that number is damaged.
fn damaged(what: CellKind, table: u8, number: u32, short: u32) -> OpenedError
    requires number { IsTrue (is_number_of what number) }
    requires short { IsTrue (is_short short) }
    ensures { result ≡ Damaged (table_file what table) (place_of short what number) }
{
    OpenedError::Damaged {
        file: table_file(what, table),
        place: cell_place(what, number, short),
    }
}
