ghost use Rattle.std.specs.Prelude.{◌≡◌};

use px_cells::{Cell, CellKind, CellList};
use px_change::{Change, ChangeKind, is_in_grammar, may_stand};
use px_log::{LogError, Xlog, open_log};
use px_memsite::MemSite;
use px_model::Bytes;
use px_restart::Restart;
use px_site::FileName;
use std::alloc::{AllocError, Global};
use std::process::Abort;
use std::test::Fail;

pub const LOG: FileName = FileName::Xlog(1);

/// A new store with one table.
pub const RESTART: Restart = Restart {
    serial: 1,
    tables: 1,
    short: 64,
    commits: 0,
    next: 1,
    low: 1,
    first: 0,
    redo: 0,
    durable: 0,
    segment: 1,
};

/// The kinds, numbers and sizes of the cells of a Put.
const CELLS: [(CellKind, u32, usize); 3] = [
    (CellKind::Header, 0, 16),
    (CellKind::Slot, 5, 164),
    (CellKind::Pointer, 2, 8),
];

/// The commit of transaction 1 as the first one.
pub fn first_commit(alloc: Global) -> Change {
    Change {
        kind: ChangeKind::Commit,
        xn: 1,
        commit: 1,
        cells: CellList::new(alloc),
    }
}

/// The rollback of that transaction.
pub fn rollback_of(alloc: Global, xn: u64) -> Change {
    Change {
        kind: ChangeKind::Rollback,
        xn,
        commit: 0,
        cells: CellList::new(alloc),
    }
}

/// A Put of transaction 2 in that table, whose cells have nothing but bytes 7.
pub fn put_in(alloc: Global, table: u8) -> Result<Change, AllocError> {
    let mut cells = CellList::new(alloc);
    for (what, number, size) in CELLS {
        let bytes = vec![in alloc; 7; size]?;
        cells.push(Cell {
            what,
            table,
            number,
            bytes: Bytes::from_vec(bytes),
        })?;
    }
    Ok(Change {
        kind: ChangeKind::Put,
        xn: 2,
        commit: 0,
        cells,
    })
}

/// Appends a change that the log may have next.
#[tactic(auto, unfolding(px_change::specs::Grammar::may_hold))]
pub fn append(
    rt: &impl Abort,
    log: &mut Xlog,
    site: &mut MemSite,
    change: &Change,
) -> Result<u64, LogError>
    requires tables { log.old.tables ≡ 1 }
    requires short { log.old.short ≡ 64 }
    ensures tables { log.new.tables ≡ 1 }
    ensures short { log.new.short ≡ 64 }
{
    let number = log.frames();
    assert!(rt; number < 100);
    assert!(rt; is_in_grammar(change, RESTART.short));
    assert!(rt; may_stand(change, RESTART.tables, number));
    log.append(site, change)
}

#[test]
fn a_new_log_grows_frame_by_frame(rt: HostRuntime) -> Result<(), Fail> {
    let alloc = rt.alloc();
    let mut site = MemSite::new(alloc)?;
    let (mut log, changes) = open_log(alloc, &mut site, &RESTART)?;
    assert_eq!(rt; changes.as_slice().len(), 0);
    assert_eq!(rt; (log.frames(), log.full()), (0, None));
    assert_eq!(rt; append(&rt, &mut log, &mut site, &first_commit(alloc))?, 0);
    assert_eq!(rt; log.durable(), 0);
    // 16 bytes and a payload of 18
    assert_eq!(rt; site.content(LOG).len(), 34);
    log.flush(&mut site)?;
    assert_eq!(rt; log.durable(), 1);
    let put = put_in(alloc, 1)?;
    assert_eq!(rt; append(&rt, &mut log, &mut site, &put)?, 1);
    // 16 bytes and a payload of 230 behind them
    assert_eq!(rt; site.content(LOG).len(), 280);
    assert_eq!(rt; (log.frames(), log.durable()), (2, 1));
    assert_eq!(rt; log.segment_of(1), (1, 0));
    Ok(())
}

#[test]
fn what_was_appended_is_read_again(rt: HostRuntime) -> Result<(), Fail> {
    let alloc = rt.alloc();
    let mut site = MemSite::new(alloc)?;
    let (mut log, _none) = open_log(alloc, &mut site, &RESTART)?;
    append(&rt, &mut log, &mut site, &first_commit(alloc))?;
    append(&rt, &mut log, &mut site, &put_in(alloc, 1)?)?;
    let (log, changes) = open_log(alloc, &mut site, &RESTART)?;
    assert_eq!(rt; (log.frames(), log.durable()), (2, 2));
    let kinds_are = match changes.as_slice() {
        [commit, put] => commit.kind == ChangeKind::Commit && is_put(put),
        _ => false,
    };
    assert!(rt; kinds_are);
    Ok(())
}

fn is_put(change: &Change) -> bool {
    let cells = change.cells.as_slice();
    change.kind == ChangeKind::Put
        && cells.len() == CELLS.len()
        && cells.iter().all(|cell| {
            cell.table == 1 && cell.bytes.as_slice().iter().all(|byte| *byte == 7)
        })
}
