use crate::changes::{Given, GivenChange, Run, bytes_of, write};
use px_cells::CellKind;
use px_change::ChangeKind;
use px_memsite::{Keep, MemSite, Pick};
use px_site::FileName;
use std::alloc::Global;
use std::process::Abort;
use std::test::Fail;

const REC: FileName = FileName::Rec(5);

const ROW: FileName = FileName::Row(5);

/// A file of another table.
const OTHER: FileName = FileName::Rec(6);

const CHANGE: GivenChange = GivenChange {
    kind: ChangeKind::Put,
    short: 16,
    table: 5,
    cells: &[
        Given {
            what: CellKind::Header,
            number: 0,
            size: 16,
            fill: 0xa1,
        },
        Given {
            what: CellKind::Slot,
            number: 2,
            size: 116,
            fill: 0xb2,
        },
        Given {
            what: CellKind::Pointer,
            number: 3,
            size: 8,
            fill: 0xc3,
        },
    ],
};

/// The record file and the row file before the change, and behind it.
const REC_BEFORE: [u8; 300] = [0x55; 300];

const REC_AFTER: &[Run] = &[(16, 0xa1), (116, 0x55), (116, 0xb2), (52, 0x55)];

const ROW_BEFORE: [u8; 40] = [0x66; 40];

const ROW_AFTER: &[Run] = &[(16, 0x66), (8, 0xc3), (16, 0x66)];

const KEEPS: [Keep; 6] = [
    Keep::Synced,
    Keep::Written,
    Keep::Torn(1),
    Keep::Torn(20),
    Keep::Torn(132),
    Keep::Torn(135),
];

/// A site whose files are synced, and then the change is written.
fn new_site(rt: &impl Abort, alloc: Global) -> Result<MemSite, Fail> {
    let mut site = MemSite::new(alloc)?;
    site.put_file(REC, &REC_BEFORE)?;
    site.put_file(ROW, &ROW_BEFORE)?;
    site.put_file(OTHER, &[7, 8, 9])?;
    assert_eq!(rt; write(rt, alloc, &mut site, &CHANGE)?, Ok(()));
    Ok(site)
}

/// Whether each byte is as before or as behind the change; outside the cells these are the same.
fn is_between(left: &[u8], before: &[u8], after: &[u8]) -> bool {
    if left.len() != before.len() || left.len() != after.len() {
        return false;
    }
    for at in 0..left.len() {
        if left[at] != before[at] && left[at] != after[at] {
            return false;
        }
    }
    true
}

fn check(rt: &impl Abort, alloc: Global, pick: Pick) -> Result<(), Fail> {
    let site = new_site(rt, alloc)?;
    assert!(rt; pick.moment <= site.moments());
    let mut left = site.crash(pick)?;
    let rec = bytes_of(alloc, REC_AFTER)?;
    let row = bytes_of(alloc, ROW_AFTER)?;
    assert!(rt;
        is_between(left.content(REC), &REC_BEFORE, &rec),
        "rec at {pick:?}"
    );
    assert!(rt;
        is_between(left.content(ROW), &ROW_BEFORE, &row),
        "row at {pick:?}"
    );
    assert_eq!(rt; left.content(OTHER), [7, 8, 9].as_slice());
    // whatever is left, the change that is written again is there
    assert_eq!(rt; write(rt, alloc, &mut left, &CHANGE)?, Ok(()));
    assert_eq!(rt; left.content(REC), rec.as_slice());
    assert_eq!(rt; left.content(ROW), row.as_slice());
    Ok(())
}

#[test]
fn a_crash_leaves_each_byte_outside_the_cells(rt: HostRuntime) -> Result<(), Fail> {
    let alloc = rt.alloc();
    // two moments for each of the three writes
    assert_eq!(rt; new_site(&rt, alloc)?.moments(), 6);
    for moment in 0..=6 {
        for keep in KEEPS {
            check(&rt, alloc, Pick { moment, keep })?;
        }
    }
    Ok(())
}
