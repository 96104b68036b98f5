ghost use Rattle.std.specs.Prelude.{◌≡◌, ◌<◌, IfSome, length};
ghost use Rattle.px_chain.specs.Places.{StandsAt, slot_before};
ghost use Rattle.px_chain.specs.Sound.{IsUsedRow};
ghost use Rattle.px_tables.specs.Held.{table_of};

use crate::making::{ShortTable, Version, done};
use px_tables::Table;
use px_tidy::{Done, Unneeded, next_row, versions_to_tidy};
use std::alloc::Global;
use std::process::Abort;
use std::test::Fail;

/// What the keys are written with, in this order.
const WRITES: [(u8, Version); 9] = [
    (b'a', Version::Put(3)),
    (b'b', Version::Put(4)),
    (b'c', Version::Put(20)),
    (b'a', Version::Put(20)),
    (b'd', Version::Put(30)),
    (b'b', Version::Delete(30)),
    (b'a', Version::Put(31)),
    (b'c', Version::Put(31)),
    (b'e', Version::Put(31)),
];

const KEYS: &[u8; 5] = b"abcde";

/// The rows, and of each the stored numbers of its versions, the newest first.
fn rows_text(alloc: Global, table: &Table) -> Result<String, Fail> {
    let mut text = String::new(alloc);
    for before in 0..table.header().rows {
        if let Some(row) = next_row(table, before) {
            if row == before + 1 {
                text.push_str(row_text(alloc, table, row)?.as_str())?;
            }
        }
    }
    Ok(text)
}

fn row_text(alloc: Global, table: &Table, row: u32) -> Result<String, Fail>
    requires { IsUsedRow (table_of table.now.cells) row }
{
    let mut text = format!(in alloc; "row {row}:")?;
    for (_, slot) in table.versions(row) {
        text.push_str(format!(in alloc; " {}", slot.xn)?.as_str())?;
    }
    text.push_str("; ")?;
    Ok(text)
}

/// Unlinks a version of the row that is the next one past `after`.
fn unlink(rt: &impl Abort, table: &mut Table, after: u32, version: Unneeded) -> Result<(), Fail> {
    let row = next_row(table, after).ok_or("there is no row")?;
    let slots = table.slots_of(row)?;
    let place = place_of(slots.as_slice(), version.slot).ok_or("the slot isn't in the chain")?;
    assert_eq!(rt; version.newer, slot_before(slots.as_slice(), place));
    let unlinking = table.prepare_unlink(row, version.newer, version.slot, 1)?;
    let _cells = table.cells_unlinked(&unlinking)?;
    table.lay_unlinked(unlinking);
    Ok(())
}

/// The place of a slot in a chain.
fn place_of(slots: &[u32], slot: u32) -> Option<usize>
    ensures { IfSome result (λ place. StandsAt slots.now place slot) }
{
    slots.iter().position(|&other| other == slot)
}

/// The slot in front of a place of a chain, 0 where none is.
fn slot_before(slots: &[u32], place: usize) -> u32
    requires { place < length slots.now }
    ensures { result ≡ slot_before slots.now place }
{
    if place == 0 {
        return 0;
    }
    slots[place - 1]
}

/// Tidies the next row past `after`, and answers it.
fn tidy_next(
    rt: &impl Abort,
    alloc: Global,
    table: &mut Table,
    after: u32,
    done: &Done,
) -> Result<Option<u32>, Fail> {
    let Some(row) = next_row(table, after) else {
        return Ok(None);
    };
    for version in &versions_to_tidy(alloc, table, row, done)? {
        unlink(rt, table, after, *version)?;
    }
    Ok(Some(row))
}

#[test]
fn each_row_is_left_with_one_version(rt: HostRuntime) -> Result<(), Fail> {
    let alloc = rt.alloc();
    let mut short = ShortTable::new(alloc)?;
    for (key, version) in WRITES {
        short.link(alloc, key, version)?;
    }
    let mut table = short.table;
    assert_eq!(rt;
        rows_text(alloc, &table)?.as_str(),
        "row 1: 31 20 3; row 2: 30 4; row 3: 31 20; row 4: 30; row 5: 31; "
    );
    let done = done(alloc)?;
    let mut last = 0;
    for _key in KEYS {
        last = tidy_next(&rt, alloc, &mut table, last, &done)?.ok_or("there is no row")?;
    }
    assert_eq!(rt; next_row(&table, last), None);
    assert_eq!(rt;
        rows_text(alloc, &table)?.as_str(),
        "row 1: 20; row 3: 20; row 4: 30; "
    );
    Ok(())
}
