use crate::logs::{Given, GivenChange, SHORT, changes_of};
use px_cells::CellKind;
use px_opened::{lay_all, open_tables};
use std::alloc::Global;
use std::process::Abort;
use std::test::Fail;

/// Transaction 1 writes the row with the key 6b31, tag 7 and no body to the second table.
const FIRST: GivenChange = &[
    Given {
        what: CellKind::Header,
        table: 2,
        number: 0,
        bytes: &[0, 0, 0, 1, 0, 0, 0, 0, 0, 0, 0, 1],
    },
    Given {
        what: CellKind::Slot,
        table: 2,
        number: 1,
        bytes: &[
            1, 2, 0, 0, 0, 0, 0, 0, 0, 0, 0, 1, 0, 0, 0, 0, 0, 0, 0, 1, 0, 0, 0, 7, 0, 0, 0, 0, 0,
            0, 0, 0, 0, 0, 0, 0, 0x6b, 0x31,
        ],
    },
    Given {
        what: CellKind::Pointer,
        table: 2,
        number: 1,
        bytes: &[1, 0, 0, 0, 0, 0, 0, 1],
    },
];

/// Transaction 2 deletes it.
const SECOND: GivenChange = &[
    Given {
        what: CellKind::Header,
        table: 2,
        number: 0,
        bytes: &[0, 0, 0, 2, 0, 0, 0, 0, 0, 0, 0, 1],
    },
    Given {
        what: CellKind::Slot,
        table: 2,
        number: 2,
        bytes: &[
            2, 2, 0, 0, 0, 0, 0, 0, 0, 0, 0, 2, 0, 0, 0, 1, 0, 0, 0, 1, 0, 0, 0, 0, 0, 0, 0, 0, 0,
            0, 0, 0, 0, 0, 0, 0, 0x6b, 0x31,
        ],
    },
    Given {
        what: CellKind::Pointer,
        table: 2,
        number: 1,
        bytes: &[1, 0, 0, 0, 0, 0, 0, 2],
    },
];

/// Slots and row pointers of the first and of the second table, and the row of the key.
type Opened = ((u32, u32), (u32, u32), Option<u32>);

fn opened(alloc: Global, log: &[GivenChange]) -> Result<Opened, Fail> {
    let changes = changes_of(alloc, log)?;
    let laid = lay_all(alloc, &changes)?;
    let tables = open_tables(alloc, 2, SHORT, &laid)?;
    let first = tables[0].header();
    let second = tables[1].header();
    Ok((
        (first.slots, first.rows),
        (second.slots, second.rows),
        tables[1].row_of(b"k1"),
    ))
}

#[test]
fn a_log_opens_to_its_tables(rt: HostRuntime) -> Result<(), Fail> {
    let alloc = rt.alloc();
    assert_eq!(rt; opened(alloc, &[])?, ((0, 0), (0, 0), None));
    assert_eq!(rt; opened(alloc, &[FIRST])?, ((0, 0), (1, 1), Some(1)));
    assert_eq!(rt; opened(alloc, &[FIRST, SECOND])?, ((0, 0), (2, 1), Some(1)));
    Ok(())
}
