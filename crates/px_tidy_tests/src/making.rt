ghost use Rattle.std.specs.Prelude.{◌≡◌, ◌≤◌, IfOk};
ghost use Rattle.px_model.specs.declared.limits.TheConstants.{LONGEST_KEY};
ghost use Rattle.px_tables.specs.Linking.{FitsSlot};
ghost use Rattle.px_tidy_tests.specs.declared.making.TheConstants.{SHORT};

use px_model::{Bytes, Row, Write};
use px_tables::Table;
use px_tidy::Done;
use std::alloc::{AllocError, Global};
use std::test::Fail;

const TABLE: u8 = 2;

const SHORT: u32 = 16;

/// All numbers below it are done, and these.
const LOW: u64 = 10;

const COMMITTED: [u64; 2] = [30, 20];

/// What a transaction wrote.
#[derive(Clone, Copy)]
pub(crate) enum Version {
    Put(u64),
    Delete(u64),
}

pub(crate) fn done(alloc: Global) -> Result<Done, AllocError> {
    let mut done = Done::new(alloc, LOW);
    for xn in COMMITTED {
        done.add(xn)?;
    }
    Ok(done)
}

/// A table in a store whose short length is `SHORT`.
#[derive(Drop)]
pub(crate) struct ShortTable {
    pub(crate) table: Table,
    ghost short: { table.cells.short ≡ SHORT },
}

impl ShortTable {
    pub(crate) fn new(alloc: Global) -> Result<ShortTable, AllocError> {
        let table = Table::new(alloc, TABLE, SHORT)?;
        Ok(ShortTable { table })
    }

    /// Links a version in front of the chain of the key of one byte.
    pub(crate) fn link(&mut self, alloc: Global, key: u8, version: Version) -> Result<(), Fail> {
        let (xn, write) = write_of(alloc, key, version)?;
        let linking = self.table.prepare(xn, write)?.ok_or("the table is full")?;
        self.table.lay(linking);
        Ok(())
    }
}

/// The stored number, and the write; a row's body is empty.
fn write_of(alloc: Global, key: u8, version: Version) -> Result<(u64, Write), AllocError>
    ensures { IfOk result (λ written. FitsSlot SHORT written.1) }
{
    let key = Bytes::from_slice(alloc, &[key])?;
    match version {
        Version::Put(xn) => Ok((
            xn,
            Write::Put(Row {
                table: TABLE,
                key,
                tag: 7,
                body: Bytes::new(alloc),
            }),
        )),
        Version::Delete(xn) => Ok((xn, Write::Delete { table: TABLE, key })),
    }
}
