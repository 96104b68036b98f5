use crate::drawn::Drawn;
use crate::making::{ShortTable, Version, has_chain};
use crate::opening::{laid, opened};
use px_cells::CellList;
use px_change::{Change, ChangeKind};
use std::alloc::{AllocError, Global};
use std::process::Abort;
use std::test::Fail;

/// How many steps are drawn of each seed, and after how many the table is opened again.
const STEPS: u64 = 300;

const OPENING: u64 = 75;

const KEYS: [&[u8]; 6] = [b"a", b"a\0", b"aa", b"b", b"\0", &[255; 64]];

/// A key with its versions, the newest first; none where there is no row.
#[derive(Drop)]
struct PlainRow {
    key: &'static [u8],
    versions: Vec<Version>,
}

/// The same rows as a table and as plain lists, and the changes that made them.
#[derive(Drop)]
struct Both {
    table: ShortTable,
    rows: Vec<PlainRow>,
    log: Vec<Change>,
}

fn no_rows(alloc: Global) -> Result<Vec<PlainRow>, AllocError> {
    let mut rows = Vec::new(alloc);
    for key in KEYS {
        rows.push(PlainRow {
            key,
            versions: Vec::new(alloc),
        })?;
    }
    Ok(rows)
}

fn new_both(alloc: Global) -> Result<Both, AllocError> {
    Ok(Both {
        table: ShortTable::new(alloc)?,
        rows: no_rows(alloc)?,
        log: Vec::new(alloc),
    })
}

/// Links or unlinks versions of one key on both sides, and answers the change.
fn changed(
    rt: &impl Abort,
    alloc: Global,
    table: &mut ShortTable,
    row: &mut PlainRow,
    drawn: &mut Drawn,
    xn: u64,
) -> Result<Change, Fail> {
    if row.versions.is_empty() || drawn.below(3) < 2 {
        let version = drawn.version(xn)?;
        row.versions.insert(0, version)?;
        let cells = table.link(rt, alloc, row.key, &version)?;
        return Ok(change_of(ChangeKind::Put, xn, cells));
    }
    let (from, count) = drawn.places(row.versions.len())?;
    remove(&mut row.versions, from, count);
    let cells = table.unlink(rt, row.key, from, count)?;
    Ok(change_of(ChangeKind::Sweep, xn, cells))
}

fn change_of(kind: ChangeKind, xn: u64, cells: CellList) -> Change {
    Change {
        kind,
        xn,
        commit: 0,
        cells,
    }
}

fn remove(versions: &mut Vec<Version>, from: u32, count: u32) {
    for _ in 0..count {
        if (from as usize) < versions.len() {
            let _version = versions.remove(from as usize);
        }
    }
}

fn make(
    rt: &impl Abort,
    alloc: Global,
    both: &mut Both,
    drawn: &mut Drawn,
    xn: u64,
) -> Result<(), Fail> {
    let index = usize::try_from(drawn.below(6))?;
    let row = both.rows.get_mut(index).ok_or("no such key")?;
    let change = changed(rt, alloc, &mut both.table, row, drawn, xn)?;
    both.log.push(change)?;
    Ok(())
}

fn check(rt: &impl Abort, both: &Both) {
    for row in both.rows.as_slice() {
        assert!(rt;
            has_chain(&both.table.table, row.key, row.versions.as_slice()),
            "key {:?} after {} changes",
            row.key,
            both.log.len()
        );
    }
}

fn made_of(alloc: Global, log: &[Change]) -> Result<ShortTable, Fail> {
    let laid = laid(alloc, log)?;
    opened(alloc, &laid)
}

/// The table is lost, and is made again of the changes.
fn open_again(rt: &impl Abort, alloc: Global, both: &mut Both) -> Result<(), Fail> {
    let table = made_of(alloc, both.log.as_slice())?;
    assert_eq!(rt; table.table.header(), both.table.table.header());
    both.table = table;
    check(rt, both);
    Ok(())
}

#[test]
fn chains_are_as_in_plain_lists(rt: HostRuntime) -> Result<(), Fail> {
    let alloc = rt.alloc();
    for seed in [1, 20, 300] {
        let mut drawn = Drawn::of(seed);
        let mut both = new_both(alloc)?;
        for xn in 1..=STEPS {
            make(&rt, alloc, &mut both, &mut drawn, xn)?;
            check(&rt, &both);
            if xn % OPENING == 0 {
                open_again(&rt, alloc, &mut both)?;
            }
        }
    }
    Ok(())
}
