ghost use Rattle.std.specs.Prelude.{◌≡◌, ◌+◌, ◌<◌, ◌≤◌, ◌==◌, ◌&&◌, ℕ, None, OnOk, Some, if◌then◌else◌, length, slice_index_or};
ghost use Rattle.std.specs.Option.{option_copied};
ghost use Rattle.px_laid.specs.Numbered.{bytes_at, bytes_in};

use px_cells::Cell;
use std::alloc::{AllocError, Global};
use std::collections::BTreeMap;

/// The bytes of the cells of one kind of one table, at their numbers. `specs/Numbered` has what contracts see.
#[derive(Debug, Drop)]
pub(crate) struct NumberedCells<'a> {
    /// At the numbers from 0 on. It lies over `far`.
    near: Vec<Option<&'a [u8]>>,
    /// At numbers that were far past the end of `near`, so that a great number takes no more memory than a small one.
    far: BTreeMap<u32, &'a [u8]>,
}

impl<'a> NumberedCells<'a> {
    /// No cells. It takes no memory.
    pub(crate) fn new(alloc: Global) -> NumberedCells<'a>
        ensures { (number : ℕ) → bytes_at result number ≡ None }
    {
        NumberedCells {
            near: Vec::new(alloc),
            far: BTreeMap::new(alloc),
        }
    }

    /// The bytes at a number, None where no cell lies.
    pub(crate) fn bytes(&self, number: u32) -> Option<&'a [u8]>
        ensures { option_copied result ≡ bytes_at self.now number }
    {
        match self.near.get(number as usize).copied().flatten() {
            Some(bytes) => Some(bytes),
            None => self.far.get(&number).copied(),
        }
    }

    /// A cell's bytes lie at its number, over what was there. It fails only for want of memory.
    pub(crate) fn put(&mut self, number: u32, bytes: &'a [u8]) -> Result<(), AllocError>
        ensures { OnOk result ((n : ℕ) → bytes_at self.new n ≡ (if n == number then Some bytes.now else bytes_at self.old n)) }
    {
        let place = number as usize;
        if place <= self.near.len() + 1 {
            return put_near(&mut self.near, place, bytes);
        }
        self.far.insert(number, bytes)?;
        Ok(())
    }
}

/// Puts bytes at a place of the list: one that it has, the one behind its last, or the one behind that.
fn put_near<'a>(
    near: &mut Vec<Option<&'a [u8]>>,
    place: usize,
    bytes: &'a [u8],
) -> Result<(), AllocError>
    requires { place ≤ length near.old.items + 1 }
    ensures { OnOk result ((n : ℕ) → option_copied (slice_index_or near.new.items n None)
        ≡ (if n == place then Some bytes.now else option_copied (slice_index_or near.old.items n None))) }
{
    reach_place(near, place)?;
    if place < near.len() {
        near[place] = Some(bytes);
    } else {
        near.push(Some(bytes))?;
    }
    Ok(())
}

/// Leaves a place of the list free where that is all that is missing before this one.
fn reach_place(near: &mut Vec<Option<&[u8]>>, place: usize) -> Result<(), AllocError>
    requires { place ≤ length near.old.items + 1 }
    ensures reached { OnOk result (place ≤ length near.new.items) }
    ensures same { OnOk result ((n : ℕ) → slice_index_or near.new.items n None ≡ slice_index_or near.old.items n None) }
{
    if place > near.len() {
        near.push(None)?;
    }
    Ok(())
}

/// The cell lies at its number among those of its table, over what was there. Tables stand at their numbers, from 0.
pub(crate) fn put_in<'a>(
    tables: &mut Vec<NumberedCells<'a>>,
    cell: &'a Cell,
) -> Result<(), AllocError>
    ensures { OnOk result ((table number : ℕ) → bytes_in tables.new.items table number
        ≡ (if (table == cell.now.table) && (number == cell.now.number) then Some cell.now.bytes else bytes_in tables.old.items table number)) }
{
    reach_table(tables, cell.table)?;
    tables[cell.table as usize].put(cell.number, cell.bytes.as_slice())
}

/// Has the table among those that stand at their numbers, without cells where it wasn't.
fn reach_table(tables: &mut Vec<NumberedCells<'_>>, table: u8) -> Result<(), AllocError>
    ensures reached { OnOk result (table < length tables.new.items) }
    ensures same { OnOk result ((t number : ℕ) → bytes_in tables.new.items t number ≡ bytes_in tables.old.items t number) }
{
    let alloc = *tables.allocator();
    for _added in tables.len()..table as usize + 1 {
        tables.push(NumberedCells::new(alloc))?;
    }
    Ok(())
}
