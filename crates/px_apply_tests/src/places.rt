use crate::changes::{Given, GivenChange, Run, bytes_of, write};
use px_cells::CellKind;
use px_change::ChangeKind;
use px_memsite::{Failure, MemSite};
use px_site::{Fault, FileName, SiteError};
use std::alloc::Global;
use std::process::Abort;
use std::test::Fail;

const HEADER: Given = Given {
    what: CellKind::Header,
    number: 0,
    size: 16,
    fill: 0xa1,
};

/// In a store whose short length is 64.
const SLOT_2: Given = Given {
    what: CellKind::Slot,
    number: 2,
    size: 164,
    fill: 0xb2,
};

const SLOT_4: Given = Given {
    what: CellKind::Slot,
    number: 4,
    size: 164,
    fill: 0xb4,
};

const POINTER_3: Given = Given {
    what: CellKind::Pointer,
    number: 3,
    size: 8,
    fill: 0xc3,
};

/// The first slot and the first row pointer of a store whose short length is 16.
const FIRST: GivenChange = GivenChange {
    kind: ChangeKind::Put,
    short: 16,
    table: 1,
    cells: &[
        HEADER,
        Given {
            what: CellKind::Slot,
            number: 1,
            size: 116,
            fill: 0xb1,
        },
        Given {
            what: CellKind::Pointer,
            number: 1,
            size: 8,
            fill: 0xc1,
        },
    ],
};

const PUT: GivenChange = GivenChange {
    kind: ChangeKind::Put,
    short: 64,
    table: 8,
    cells: &[HEADER, SLOT_4, POINTER_3],
};

const SWEEP: GivenChange = GivenChange {
    kind: ChangeKind::Sweep,
    short: 64,
    table: 2,
    cells: &[HEADER, SLOT_2, SLOT_4, POINTER_3],
};

const TIDY: GivenChange = GivenChange {
    kind: ChangeKind::Tidy,
    short: 64,
    table: 3,
    cells: &[HEADER, SLOT_2, SLOT_4],
};

/// The second slot, with the greatest short length.
const MOVE: GivenChange = GivenChange {
    kind: ChangeKind::Move,
    short: 1024,
    table: 7,
    cells: &[Given {
        what: CellKind::Slot,
        number: 2,
        size: 1124,
        fill: 0xd2,
    }],
};

const COMMIT: GivenChange = GivenChange {
    kind: ChangeKind::Commit,
    short: 64,
    table: 1,
    cells: &[],
};

/// A change, the write that fails and how many of its bytes go through, and what then stands in the record file and the
/// row file of its table.
type Row<'a> = (&'a GivenChange, Option<(u64, u64)>, &'a [Run], &'a [Run]);

fn check(rt: &impl Abort, alloc: Global, row: Row) -> Result<(), Fail> {
    let (change, failure, rec, pointers) = row;
    let (mut site, outcome) = match failure {
        None => (MemSite::new(alloc)?, Ok(())),
        Some((call, bytes)) => (
            MemSite::failing_partway(alloc, &[Failure { call, bytes }])?,
            Err(SiteError::Fault(Fault::Write)),
        ),
    };
    assert_eq!(rt; write(rt, alloc, &mut site, change)?, outcome);
    let rec = bytes_of(alloc, rec)?;
    assert_eq!(rt; site.content(FileName::Rec(change.table)), rec.as_slice());
    let pointers = bytes_of(alloc, pointers)?;
    assert_eq!(rt;
        site.content(FileName::Row(change.table)),
        pointers.as_slice()
    );
    Ok(())
}

#[test]
fn each_cell_stands_at_its_place(rt: HostRuntime) -> Result<(), Fail> {
    let table: [Row; 11] = [
        (&FIRST, None, &[(16, 0xa1), (116, 0xb1)], &[(8, 0xc1)]),
        // where nothing was written, a file that is there reads as zeros
        (
            &PUT,
            None,
            &[(16, 0xa1), (492, 0), (164, 0xb4)],
            &[(16, 0), (8, 0xc3)],
        ),
        (
            &SWEEP,
            None,
            &[(16, 0xa1), (164, 0), (164, 0xb2), (164, 0), (164, 0xb4)],
            &[(16, 0), (8, 0xc3)],
        ),
        (
            &TIDY,
            None,
            &[(16, 0xa1), (164, 0), (164, 0xb2), (164, 0), (164, 0xb4)],
            &[],
        ),
        (&MOVE, None, &[(16, 0), (1124, 0), (1124, 0xd2)], &[]),
        (&COMMIT, None, &[], &[]),
        // the header
        (&PUT, Some((0, 0)), &[], &[]),
        // the slot
        (&PUT, Some((1, 0)), &[(16, 0xa1)], &[]),
        (&PUT, Some((1, 5)), &[(16, 0xa1), (492, 0), (5, 0xb4)], &[]),
        // the row pointer
        (&FIRST, Some((2, 0)), &[(16, 0xa1), (116, 0xb1)], &[]),
        (
            &FIRST,
            Some((2, 3)),
            &[(16, 0xa1), (116, 0xb1)],
            &[(3, 0xc1)],
        ),
    ];
    for row in table {
        check(&rt, rt.alloc(), row)?;
    }
    Ok(())
}
