ghost use Rattle.std.specs.Prelude.{◌≡◌, ◌<◌, Some, None, if◌then◌else◌, length, OnOk, OnErr};
ghost use Rattle.px_model.specs.Rows.{Key, same_key};
ghost use Rattle.px_locks.specs.Tables.{holder_in, IsSame};

use std::alloc::AllocError;
use std::collections::BTreeMap;

/// The keys of one table that are held, each with the number of its transaction.
#[derive(Debug, Drop)]
pub struct Table {
    pub holders: BTreeMap<Vec<u8>, u64>,
}

/// The number of the transaction that holds the key.
pub fn holder(tables: &[Table], table: u8, key: &[u8]) -> Option<u64>
    ensures { result ≡ holder_in (table, key.now) tables.now }
{
    tables.get(usize::from(table))?.holders.get(key).copied()
}

/// Gives the key to that number; fails only for want of memory.
pub fn insert(
    tables: &mut Vec<Table>,
    table: u8,
    key: Vec<u8>,
    number: u64,
) -> Result<(), AllocError>
    ensures held { OnOk result ((q : Key) → holder_in q tables.new.items
        ≡ (if same_key q (table, key.items) then Some number else holder_in q tables.old.items)) }
    ensures err { OnErr result (IsSame tables.old.items tables.new.items) }
{
    grow(tables, table)?;
    insert_at(tables, table, key, number)
}

/// Makes empty maps up to the one of that table.
fn grow(tables: &mut Vec<Table>, table: u8) -> Result<(), AllocError>
    ensures same { IsSame tables.old.items tables.new.items }
    ensures room { OnOk result (table < length tables.new.items) }
{
    let alloc = *tables.allocator();
    while tables.len() <= usize::from(table) {
        tables.push(Table {
            holders: BTreeMap::new(alloc),
        })?;
    }
    Ok(())
}

fn insert_at(
    tables: &mut Vec<Table>,
    table: u8,
    key: Vec<u8>,
    number: u64,
) -> Result<(), AllocError>
    requires { table < length tables.old.items }
    ensures held { OnOk result ((q : Key) → holder_in q tables.new.items
        ≡ (if same_key q (table, key.items) then Some number else holder_in q tables.old.items)) }
    ensures err { OnErr result (IsSame tables.old.items tables.new.items) }
{
    tables[usize::from(table)].holders.insert(key, number)?;
    Ok(())
}

/// Takes the key from whoever holds it.
pub fn remove(tables: &mut Vec<Table>, table: u8, key: &[u8])
    ensures { (q : Key) → holder_in q tables.new.items
        ≡ (if same_key q (table, key.now) then None else holder_in q tables.old.items) }
{
    let place = usize::from(table);
    if place < tables.len() {
        tables[place].holders.remove(key);
    }
}
