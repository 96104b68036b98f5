ghost use Rattle.std.specs.Prelude.{◌≡◌, ◌≤◌, IfOk, length};
ghost use Rattle.px_bench.specs.declared.chains.TheConstants.{SHORT};
ghost use Rattle.px_chain.specs.Sound.{Layout};
ghost use Rattle.px_tables.specs.Held.{HasLayout};
ghost use Rattle.px_tables.specs.Linking.{FitsSlot};

use crate::timing::tell;
use px_model::{Bytes, Row, Write};
use px_tables::Table;
use std::alloc::{AllocError, Global};
use std::time::CpuClock;

const KEY: [u8; 8] = *b"beqtalu!";

const BODY: [u8; 200] = [0x61; 200];

const SHORT: u32 = 256;

/// So many versions of one key, and all but the newest unlinked one by one, the oldest first.
pub fn unlinks(
    rt: &(impl Print + Eprint + CpuClock + AllocGlobal),
    count: u32,
) -> anyhow::Result<()> {
    let mut table = linked(rt.alloc(), count)?;
    let Some(row) = table.row_of(&KEY) else {
        anyhow::bail!("there is no row");
    };
    table.is_sound();
    let slots = table.slots_of(row)?;
    let start = rt.process_cpu_time()?;
    unlink_all(&mut table, row, &slots)?;
    tell(rt, "unlink", start)?;
    println!(rt; "unlinks {count}: the newest of {} is left", slots.len())?;
    Ok(())
}

/// A table with so many versions of one key.
fn linked(alloc: Global, count: u32) -> anyhow::Result<Table> {
    let mut table = Table::new(alloc, 1, SHORT)?;
    for number in 0..count {
        let write = put(alloc)?;
        let Some(linking) = table.prepare(u64::from(number), write)? else {
            anyhow::bail!("the table is full");
        };
        table.lay(linking);
    }
    Ok(table)
}

fn put(alloc: Global) -> Result<Write, AllocError>
    ensures { IfOk result (FitsSlot SHORT) }
{
    Ok(Write::Put(Row {
        table: 1,
        key: Bytes::from_slice(alloc, &KEY)?,
        tag: 7,
        body: Bytes::from_slice(alloc, &BODY)?,
    }))
}

/// Unlinks the versions of a row in these slots but the first, one by one from the last on, with the cells for the log.
fn unlink_all(table: &mut Table, row: u32, slots: &[u32]) -> Result<(), AllocError>
    requires { (layout : Layout) × HasLayout table.old.cells layout × (layout.chain row ≡ slots.now) }
{
    for place in (1..slots.len()).rev() {
        let unlinking = table.prepare_unlink(row, slots[place - 1], slots[place], 1)?;
        let _cells = table.cells_unlinked(&unlinking)?;
        table.lay_unlinked(unlinking);
    }
    Ok(())
}
