ghost use Rattle.std.specs.Prelude.{◌≡◌, ℕ, true, IfOk};
ghost use Rattle.px_bench.specs.declared.log.TheConstants.{SHORT, TABLES};
ghost use Rattle.px_change.specs.Grammar.{may_hold};
ghost use Rattle.px_tables.specs.Linking.{FitsSlot};

use crate::files::{FOLDER, clear};
use crate::timing::tell;
use px_change::{Change, ChangeKind, is_in_grammar, may_stand};
use px_log::{LogError, Xlog, open_log};
use px_model::{Bytes, Row, Write};
use px_realsite::RealSite;
use px_restart::Restart;
use px_site::Site;
use px_tables::Table;
use std::alloc::{AllocError, Global};
use std::time::CpuClock;

const KEY: [u8; 8] = *b"beqtalu!";

const TABLES: u32 = 1;

/// With it the frame of a row has 250 bytes.
const SHORT: u32 = 68;

/// It lies in its slot whole.
const BODY: [u8; 68] = [0x61; 68];

/// A new store's restart.
const RESTART: Restart = Restart {
    serial: 1,
    tables: TABLES,
    short: SHORT,
    commits: 0,
    next: 1,
    low: 1,
    first: 0,
    redo: 0,
    durable: 0,
    segment: 1,
};

/// So many frames of 250 bytes appended to a log in a folder.
pub fn appends(rt: &HostRuntime, count: u32) -> anyhow::Result<()> {
    clear(rt)?;
    let mut site = RealSite::new(rt.clone()?, FOLDER)?;
    let change = put(rt.alloc())?;
    let Ok((mut log, _changes)) = open_log(rt.alloc(), &mut site, &RESTART) else {
        anyhow::bail!("the log isn't opened");
    };
    let start = rt.process_cpu_time()?;
    let appended = append_all(&mut log, &mut site, &change, count);
    tell(rt, "append", start)?;
    let Ok(frames) = appended else {
        anyhow::bail!("the log refused a frame");
    };
    println!(rt; "appends {count}: {frames} frames")?;
    clear(rt)
}

fn append_all<W: Site>(
    log: &mut Xlog,
    site: &mut W,
    change: &Change,
    count: u32,
) -> Result<u64, LogError>
    requires { (number : ℕ) → may_hold log.old.tables number log.old.short change.now ≡ true }
{
    for _number in 0..count {
        log.append(site, change)?;
    }
    Ok(log.frames())
}

/// The cells of a transaction's row, which each frame of the store may hold.
#[tactic(auto, using(crate::proofs::EachFrame::each_may_hold))]
fn put(alloc: Global) -> anyhow::Result<Change>
    ensures { IfOk result (λ change. (number : ℕ) → may_hold TABLES number SHORT change ≡ true) }
{
    let mut table = Table::new(alloc, 1, SHORT)?;
    let write = row(alloc)?;
    let Some(linking) = table.prepare(1, write)? else {
        anyhow::bail!("the table is full");
    };
    let cells = table.cells_of(&linking)?;
    let change = Change {
        kind: ChangeKind::Put,
        xn: 1,
        commit: 0,
        cells,
    };
    if !is_in_grammar(&change, SHORT) || !may_stand(&change, TABLES, 0) {
        anyhow::bail!("no frame may hold the row");
    }
    Ok(change)
}

fn row(alloc: Global) -> Result<Write, AllocError>
    ensures { IfOk result (FitsSlot SHORT) }
{
    Ok(Write::Put(Row {
        table: 1,
        key: Bytes::from_slice(alloc, &KEY)?,
        tag: 7,
        body: Bytes::from_slice(alloc, &BODY)?,
    }))
}
