ghost use Rattle.std.specs.Prelude.{◌≡◌, ◌<◌, ◌≤◌, length, true};
ghost use Rattle.px_chain.specs.Places.{slot_before};
ghost use Rattle.px_tables.specs.Linking.{FitsSlot};
ghost use Rattle.px_model.specs.declared.limits.TheConstants.{LONGEST_KEY};
ghost use Rattle.px_tables_tests.specs.declared.making.TheConstants.{SHORT};

use px_cells::{CellList, Slot, SlotState};
use px_model::{Bytes, LONGEST_KEY, Row, Write};
use px_tables::Table;
use std::alloc::{AllocError, Global};
use std::process::Abort;
use std::test::Fail;

/// The number of the tables of these tests, and the short length of their stores.
pub(crate) const TABLE: u8 = 3;

pub(crate) const SHORT: u32 = 16;

/// What a transaction wrote. The bytes of a row's body are all the same.
#[derive(Clone, Copy, Debug, PartialEq, Eq)]
pub(crate) struct Version {
    pub(crate) xn: u64,
    pub(crate) state: SlotState,
    pub(crate) tag: u32,
    pub(crate) size: usize,
    pub(crate) fill: u8,
}

fn write_of(alloc: Global, key: &[u8], version: &Version) -> Result<Write, AllocError> {
    let key = Bytes::from_slice(alloc, key)?;
    match version.state {
        SlotState::Row => Ok(Write::Put(Row {
            table: TABLE,
            key,
            tag: version.tag,
            body: Bytes::from_vec(vec![in alloc; version.fill; version.size]?),
        })),
        SlotState::Free | SlotState::Deletion => Ok(Write::Delete { table: TABLE, key }),
    }
}

/// Whether a slot has room for the write.
fn fits(write: &Write) -> bool
    ensures { result ≡ true → FitsSlot SHORT write.now }
{
    match write {
        Write::Put(row) => {
            is_key(row.key.as_slice()) && row.body.as_slice().len() <= SHORT as usize
        }
        Write::Delete { table: _, key } => is_key(key.as_slice()),
    }
}

fn is_key(key: &[u8]) -> bool
    ensures { result ≡ true → 1 ≤ length key.now × length key.now ≤ LONGEST_KEY }
{
    !key.is_empty() && key.len() <= LONGEST_KEY
}

/// A table in a store whose short length is `SHORT`.
#[derive(Drop)]
pub(crate) struct ShortTable {
    pub(crate) table: Table,
    ghost short: { table.cells.short ≡ SHORT },
}

impl ShortTable {
    pub(crate) fn new(alloc: Global) -> Result<ShortTable, AllocError> {
        let table = Table::new(alloc, TABLE, SHORT)?;
        Ok(ShortTable { table })
    }

    /// Links a version in front of the chain of its key, and answers the cells.
    pub(crate) fn link(
        &mut self,
        rt: &impl Abort,
        alloc: Global,
        key: &[u8],
        version: &Version,
    ) -> Result<CellList, Fail> {
        let write = write_of(alloc, key, version)?;
        assert!(rt; fits(&write));
        let linking = self
            .table
            .prepare(version.xn, write)?
            .ok_or("the table is full")?;
        let cells = self.table.cells_of(&linking)?;
        self.table.lay(linking);
        Ok(cells)
    }

    /// Unlinks `count` versions of a key, from place `from` of its chain on, and answers the cells.
    pub(crate) fn unlink(
        &mut self,
        rt: &impl Abort,
        key: &[u8],
        from: u32,
        count: u32,
    ) -> Result<CellList, Fail> {
        let row = self.table.row_of(key).ok_or("there is no such row")?;
        let slots = self.table.slots_of(row)?;
        assert!(rt; 1 <= count);
        assert!(rt; u64::from(from) + u64::from(count) <= slots.len() as u64);
        let newer = slot_before(slots.as_slice(), from);
        let unlinking = self
            .table
            .prepare_unlink(row, newer, slots[from as usize], count)?;
        let cells = self.table.cells_unlinked(&unlinking)?;
        self.table.lay_unlinked(unlinking);
        Ok(cells)
    }
}

/// The slot in front of a place of a chain, 0 where none is.
fn slot_before(slots: &[u32], place: u32) -> u32
    requires { place < length slots.now }
    ensures { result ≡ slot_before slots.now place }
{
    if place == 0 {
        return 0;
    }
    slots[place as usize - 1]
}

/// Whether the walk along the chain of the key meets just these versions, the newest first. A key without versions has
/// no row.
pub(crate) fn has_chain(table: &Table, key: &[u8], versions: &[Version]) -> bool {
    let Some(row) = table.row_of(key) else {
        return versions.is_empty();
    };
    let mut left = versions.iter();
    for (_, slot) in table.versions(row) {
        match left.next() {
            Some(version) if is_version(slot, key, version) => {}
            _ => return false,
        }
    }
    left.next().is_none()
}

fn is_version(slot: &Slot, key: &[u8], version: &Version) -> bool {
    slot.key.as_slice() == key
        && slot.xn == version.xn
        && slot.state == version.state
        && slot.tag == version.tag
        && slot.total as usize == version.size
        && is_filled(slot.short.as_slice(), version)
}

fn is_filled(body: &[u8], version: &Version) -> bool {
    body.len() == version.size && body.iter().all(|byte| *byte == version.fill)
}
