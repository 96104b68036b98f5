ghost use Rattle.std.specs.Prelude.{◌≡◌, ◌≤◌, ℕ, IfErr, IfOk, IsTrue, MatchOption, ◌↔◌, length};
ghost use Rattle.px_cells.specs.Form.{is_short};
ghost use Rattle.px_cells.specs.declared.cell.CellKind.TheVariants.{Slot};
ghost use Rattle.px_chain.specs.Sound.{IsSlot, IsUsedRow};
ghost use Rattle.px_chain.specs.Unused.{unused_table};
ghost use Rattle.px_history.specs.Store.{Store};
ghost use Rattle.px_opened.specs.Opened.{tables_of};
ghost use Rattle.px_recs.specs.Place.{place_of, table_file};
ghost use Rattle.px_shown.specs.Tables.{AreSound};
ghost use Rattle.px_site.specs.State.{State};
ghost use Rattle.px_tables.specs.Held.{table_of};
ghost use Rattle.px_held.specs.Errors.{IfDamage, IsDamage};
ghost use Rattle.px_held.specs.Serving.{AreNumbered, IsTableOf, Serves};

mod counting;
mod linking;
mod reading;
mod sweeping;
mod tidying;
mod unlinking;

use crate::error::HeldError;
use px_cells::CellKind;
use px_recs::{cell_place, table_file};
use px_tables::Table;
use std::marker::Model;

/// The tables of a store. Contracts see them as specs/Serving has them, and which store they serve.
#[derive(Drop)]
pub struct Held {
    /// How many bytes of a row's body stand in its slot at most.
    short: u32,
    /// Table 1 first.
    tables: Vec<Table>,
}

impl Model for Held {
    ghost use Rattle.std.specs.Prelude.{IsTrue};
    ghost use Rattle.px_cells.specs.Form.{is_short};
    ghost use Rattle.px_held.specs.Serving.{AreNumbered, HeldTables};

    ghost Value = { HeldTables };

    ghost view = { λ h. record { short = h.short; tables = h.tables.items } };

    ghost invariant = { λ h. IsTrue (is_short h.short) × AreNumbered h.short h.tables.items };
}

impl Held {
    /// These tables, table 1 first, of a store with that short length.
    pub fn new(short: u32, tables: Vec<Table>) -> Held
        requires short { IsTrue (is_short short) }
        requires numbered { AreNumbered short tables.items }
        ensures is { result ≡ record { short = short; tables = tables.items } }
        ensures serves { (site : State) (store : Store) → ((t : ℕ) → tables_of tables.items t ≡ store.tables t)
            → AreSound short store.tables store.layouts → Serves site result store }
    {
        Held { short, tables }
    }

    /// How many tables the store has: their numbers go from 1 to this one.
    pub fn tables(&self) -> usize
        ensures { result ≡ length self.now.tables }
    {
        self.tables.len()
    }

    /// How many bytes of a row's body stand in its slot at most.
    pub fn short(&self) -> u32
        ensures { result ≡ self.now.short }
    {
        self.short
    }

    /// The table with this number. None where the store has no such table.
    fn table(&self, number: u8) -> Option<&Table>
        ensures { MatchOption result (tables_of self.now.tables number ≡ unused_table) (λ table. IsTableOf self.now number table.now) }
    {
        if number == 0 {
            return None;
        }
        self.tables.get(number as usize - 1)
    }

    /// The table with this number, where the row is used.
    fn table_with(&self, number: u8, row: u32) -> Result<&Table, HeldError>
        ensures table { IfOk result (λ table. IsTableOf self.now number table.now) }
        ensures used { IfOk result (λ table. IsUsedRow (table_of table.now.cells) row) }
        ensures unused { IfErr result (λ error. ¬ IsUsedRow (tables_of self.now.tables number) row) }
        ensures damage { IfErr result IsDamage }
    {
        match self.table(number) {
            Some(table) if is_used(table, row) => Ok(table),
            _ => Err(self.damage(CellKind::Pointer, number, row)),
        }
    }

    /// The table with this number, where it has the slot.
    fn table_with_slot(&self, number: u8, slot: u32) -> Result<&Table, HeldError>
        ensures table { IfOk result (λ table. IsTableOf self.now number table.now) }
        ensures within { IfOk result (λ table. slot ≤ table.now.cells.header.slots) }
        ensures past { IfErr result (λ error. ¬ IsSlot (tables_of self.now.tables number) slot) }
        ensures damage { IfErr result IsDamage }
    {
        match self.table(number) {
            Some(table) if slot <= table.header().slots => Ok(table),
            _ => Err(self.damage(CellKind::Slot, number, slot)),
        }
    }

    /// That a cell isn't what it has to be. No slot and no row pointer has the number 0: a link that leads there is reported at
    /// the first one's place.
    fn damage(&self, what: CellKind, table: u8, number: u32) -> HeldError
        ensures damage { IsDamage result }
        ensures slot { what ≡ Slot → 1 ≤ number → IfDamage (λ file place. (file ≡ table_file Slot table) × (place ≡ place_of self.now.short Slot number)) result }
    {
        let place = match what {
            CellKind::Header => 0,
            CellKind::Slot | CellKind::Pointer => cell_place(what, number.max(1), self.short),
        };
        HeldError::Damaged {
            file: table_file(what, table),
            place,
        }
    }
}

fn is_used(table: &Table, row: u32) -> bool
    ensures { IsTrue result ↔ IsUsedRow (table_of table.now.cells) row }
{
    row >= 1 && row <= table.header().rows && table.pointer(row).used
}
