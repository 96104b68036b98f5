use crate::logs::{Given, GivenChange, SHORT, changes_of};
use px_cells::CellKind;
use px_opened::{OpenedError, lay_all, open_tables};
use px_site::FileName;
use std::alloc::Global;
use std::process::Abort;
use std::test::Fail;

/// The second slot of the free list has no state of the grammar.
const BAD_SLOT_IN_2: GivenChange = &[
    Given {
        what: CellKind::Header,
        table: 2,
        number: 0,
        bytes: &[0, 0, 0, 2, 0, 0, 0, 1],
    },
    Given {
        what: CellKind::Slot,
        table: 2,
        number: 1,
        bytes: &[
            0, 1, 0, 0, 0, 0, 0, 0, 0, 0, 0, 0, 0, 0, 0, 2, 0, 0, 0, 0, 0, 0, 0, 0, 0, 0, 0, 0, 0,
            0, 0, 0, 0, 0, 0, 0, 0x6b,
        ],
    },
    Given {
        what: CellKind::Slot,
        table: 2,
        number: 2,
        bytes: &[3],
    },
];

/// Two row pointers were used, both free, and the list has the first alone.
const FLAW_IN_1: GivenChange = &[
    Given {
        what: CellKind::Header,
        table: 1,
        number: 0,
        bytes: &[0, 0, 0, 0, 0, 0, 0, 0, 0, 0, 0, 2, 0, 0, 0, 1],
    },
    Given {
        what: CellKind::Pointer,
        table: 1,
        number: 1,
        bytes: &[],
    },
    Given {
        what: CellKind::Pointer,
        table: 1,
        number: 2,
        bytes: &[],
    },
];

/// Three row pointers were used.
const HEADER_OF_3: GivenChange = &[Given {
    what: CellKind::Header,
    table: 1,
    number: 0,
    bytes: &[0, 0, 0, 0, 0, 0, 0, 0, 0, 0, 0, 3, 0, 0, 0, 1],
}];

/// The free list begins with a slot that the table doesn't have.
const STRAY_LIST: GivenChange = &[Given {
    what: CellKind::Header,
    table: 1,
    number: 0,
    bytes: &[0, 0, 0, 0, 0, 0, 0, 1],
}];

/// A log, and the file and the place of its first damage.
type Row = (&'static [GivenChange], FileName, u64);

const LOGS: [Row; 4] = [
    // 16 + 116
    (&[BAD_SLOT_IN_2], FileName::Rec(2), 132),
    // in the second row pointer; the table with the lower number comes first
    (&[BAD_SLOT_IN_2, FLAW_IN_1], FileName::Row(1), 8),
    // the third row pointer isn't there; every cell is read before the second is found to be on no list
    (&[FLAW_IN_1, HEADER_OF_3], FileName::Row(1), 16),
    (&[STRAY_LIST], FileName::Rec(1), 0),
];

fn check(rt: &impl Abort, alloc: Global, row: Row) -> Result<(), Fail> {
    let (log, file, place) = row;
    let changes = changes_of(alloc, log)?;
    let laid = lay_all(alloc, &changes)?;
    let error = open_tables(alloc, 2, SHORT, &laid).err();
    assert_eq!(rt; error, Some(OpenedError::Damaged { file, place }));
    Ok(())
}

#[test]
fn the_first_damage_is_named(rt: HostRuntime) -> Result<(), Fail> {
    for row in LOGS {
        check(&rt, rt.alloc(), row)?;
    }
    Ok(())
}
