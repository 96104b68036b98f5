ghost use Rattle.std.specs.Prelude.{◌≡◌, ◌≤◌, ℕ, IfOk, map};
ghost use Rattle.px_chain.specs.Cells.{cell_of};
ghost use Rattle.px_chain.specs.Links.{unlink_cells, unlinked};
ghost use Rattle.px_chain.specs.Near.{linked_at, number_at};
ghost use Rattle.px_chain.specs.Places.{IsRun, StandsAt};
ghost use Rattle.px_chain.specs.Sound.{IsUsedRow, Layout};
ghost use Rattle.px_chain.specs.Table.{laid};
ghost use Rattle.px_tables.specs.Held.{HasLayout, table_of};
ghost use Rattle.px_tables.specs.Unlinking.{AreRead, IsUnlink, is_given_back, parts_in};

use super::Table;
use crate::places::{put_pointer, put_slots};
use crate::unlinking::Unlinking;
use px_cells::{CellList, Pointer};
use px_chain::{Cut, Linked, Unlinked};
use std::alloc::AllocError;

impl Table {
    /// Prepares that `count` versions of a row go: the newest of them is in slot `first`, and `newer` is the slot in front of
    /// that one, 0 where there is none. It reads these versions and their two neighbours, however long the row's chain is. It
    /// fails only for want of memory.
    pub fn prepare_unlink(
        &self,
        row: u32,
        newer: u32,
        first: u32,
        count: u32,
    ) -> Result<Unlinking, AllocError>
        requires used { IsUsedRow (table_of self.now.cells) row }
        requires run { (from : ℕ) × ((layout : Layout) → HasLayout self.now.cells layout → IsRun (layout.chain row) from newer first count) }
        ensures unlink { IfOk result (λ unlinking. IsUnlink self.now.cells unlinking) }
        ensures which { IfOk result (λ unlinking. unlinking.row ≡ row × unlinking.first ≡ first × unlinking.count ≡ count) }
    {
        let header = &self.header;
        let newer = self.linked(newer)?;
        let (gone, behind) = self.run(first, count)?;
        let cut = Cut::new(newer.as_ref(), gone.as_slice(), some_number(behind));
        Ok(Unlinking {
            row,
            first,
            count,
            unlinked: Unlinked::of(self.allocator(), header, &cut)?,
        })
    }

    /// The slot with its number, none for 0.
    fn linked(&self, number: u32) -> Result<Option<Linked>, AllocError>
        requires { number ≤ self.now.cells.header.slots }
        ensures { IfOk result (λ linked. linked ≡ linked_at (table_of self.now.cells) number) }
    {
        if number == 0 {
            return Ok(None);
        }
        let slot = self.slots[number as usize].copy()?;
        Ok(Some(Linked { number, slot }))
    }

    /// So many slots from the first one on, and the number of the one behind them, 0 where there is none.
    fn run(&self, first: u32, count: u32) -> Result<(Vec<Linked>, u32), AllocError>
        requires { (row : ℕ) × (newer : ℕ) × (from : ℕ)
            × ((layout : Layout) → HasLayout self.now.cells layout → IsRun (layout.chain row) from newer first count) }
        ensures { IfOk result (λ run. (layout : Layout) (row newer from : ℕ) → HasLayout self.now.cells layout
            → IsRun (layout.chain row) from newer first count → AreRead self.now.cells (layout.chain row) from count run.0.items run.1) }
    {
        let mut gone = Vec::new(self.allocator());
        let mut number = first;
        for _met in 0..count {
            let slot = self.slots[number as usize].copy()?;
            let next = slot.next;
            gone.push(Linked { number, slot })?;
            number = next;
        }
        Ok((gone, number))
    }

    /// The cells of an unlinking that was prepared, for the log. It fails only for want of memory.
    pub fn cells_unlinked(&self, unlinking: &Unlinking) -> Result<CellList, AllocError>
        requires { IsUnlink self.now.cells unlinking.now }
        ensures { IfOk result (λ cells. (layout : Layout) (from : ℕ) → HasLayout self.now.cells layout
            → StandsAt (layout.chain unlinking.now.row) from unlinking.now.first → cells ≡ map (cell_of self.now.cells.number self.now.cells.short)
            (unlink_cells self.now.cells.header (parts_in self.now.cells layout unlinking.now.row from unlinking.now.count))) }
    {
        unlinking
            .unlinked
            .cells(self.allocator(), self.number, self.short)
    }

    /// Lays an unlinking that was prepared over the table. It takes no memory.
    pub fn lay_unlinked(&mut self, unlinking: Unlinking)
        requires { IsUnlink self.old.cells unlinking }
        ensures table { (layout : Layout) (from : ℕ) → HasLayout self.old.cells layout → StandsAt (layout.chain unlinking.row) from unlinking.first
            → table_of self.new.cells ≡ laid (table_of self.old.cells) (unlink_cells self.old.cells.header (parts_in self.old.cells layout unlinking.row from unlinking.count)) }
        ensures layout { (layout : Layout) (from : ℕ) → HasLayout self.old.cells layout → StandsAt (layout.chain unlinking.row) from unlinking.first
            → HasLayout self.new.cells (unlinked layout unlinking.row from unlinking.count) }
        ensures number { self.new.cells.number ≡ self.old.cells.number }
        ensures short { self.new.cells.short ≡ self.old.cells.short }
    {
        let Unlinked {
            header,
            slots,
            pointer,
        } = unlinking.unlinked;
        let head = self.pointers[unlinking.row as usize].head;
        let key = self.slots[head as usize].key.as_slice();
        self.keys.forget_if(is_given_back(pointer), key);
        put_pointer(&mut self.pointers, pointer);
        put_slots(&mut self.slots, slots);
        self.header = header;
    }
}

fn some_number(number: u32) -> Option<u32>
    ensures { result ≡ number_at number }
{
    (number != 0).then_some(number)
}

fn is_given_back(pointer: Option<(u32, Pointer)>) -> bool
    ensures { result ≡ is_given_back pointer }
{
    match pointer {
        Some((_, pointer)) => !pointer.used,
        None => false,
    }
}
