ghost use Rattle.std.specs.Prelude.{◌≡◌, ◌<◌, ◌≤◌, IfOk, MatchOption, option_map};
ghost use Rattle.px_tables.specs.Order.{HasNoKeyPast, IsNextKey};
ghost use Rattle.px_chain.specs.Links.{chain_of};
ghost use Rattle.px_chain.specs.Sound.{IsUsedRow, Layout};
ghost use Rattle.px_tables.specs.Held.{HasLayout, slot_at, table_of};
ghost use Rattle.px_tables.specs.Keys.{HasNoRow, IsRowOf};

use super::Table;
use crate::versions::Versions;
use px_cells::{Header, Pointer, Slot};
use std::alloc::AllocError;

impl Table {
    pub fn header(&self) -> Header
        ensures { result ≡ self.now.cells.header }
    {
        self.header
    }

    /// The row pointer of the row with this key. None exactly where there is no such row.
    pub fn row_of(&self, key: &[u8]) -> Option<u32>
        ensures { MatchOption result (HasNoRow (table_of self.now.cells) key.now) (λ row. IsRowOf (table_of self.now.cells) key.now row) }
    {
        self.keys.row_of(key)
    }

    /// The least key past another one that has a row, with that row; the least of all after None. None exactly where there is
    /// none. It fails only for want of memory.
    pub fn key_past(&self, after: Option<&[u8]>) -> Result<Option<(&[u8], u32)>, AllocError>
        ensures { IfOk result (λ next. MatchOption next (HasNoKeyPast (table_of self.now.cells) (option_map (λ key. key.now) after.entry))
            (λ found. IsNextKey (table_of self.now.cells) (option_map (λ key. key.now) after.entry) found.0.now found.1)) }
    {
        match after {
            Some(key) => {
                let key = Vec::from_slice(self.allocator(), key)?;
                Ok(self.keys.past(Some(&key)))
            }
            None => Ok(self.keys.past(None)),
        }
    }

    /// The slot with this number.
    pub fn slot(&self, number: u32) -> &Slot
        requires { number ≤ self.now.cells.header.slots }
        ensures { result.now ≡ (table_of self.now.cells).slot number }
    {
        &self.slots[number as usize]
    }

    /// The row pointer with this number.
    pub fn pointer(&self, row: u32) -> Pointer
        requires { row ≤ self.now.cells.header.rows }
        ensures { result ≡ (table_of self.now.cells).pointer row }
    {
        self.pointers[row as usize]
    }

    /// The slots of a row's versions, the newest first. It fails only for want of memory.
    pub fn slots_of(&self, row: u32) -> Result<Vec<u32>, AllocError>
        requires { IsUsedRow (table_of self.now.cells) row }
        ensures { IfOk result (λ slots. (layout : Layout) → HasLayout self.now.cells layout → slots.items ≡ layout.chain row) }
    {
        let mut slots = Vec::new(self.allocator());
        for (number, _) in self.versions(row) {
            slots.push(number)?;
        }
        Ok(slots)
    }

    /// The versions of a row, the newest first.
    pub fn versions(&self, row: u32) -> Versions<'_>
        requires { IsUsedRow (table_of self.now.cells) row }
        ensures { (layout : Layout) → HasLayout self.now.cells layout → result ≡ chain_of (table_of self.now.cells) (layout.chain row) }
    {
        Versions {
            slots: self.slots.as_slice(),
            number: self.pointers[row as usize].head,
        }
    }
}
