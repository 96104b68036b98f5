use crate::making::SHORT;
use crate::opening::laid;
use px_cells::{Cell, CellKind, CellList};
use px_change::{Change, ChangeKind};
use px_laid::{Laid, TableError};
use px_model::Bytes;
use std::alloc::{AllocError, Global};
use std::process::Abort;
use std::test::Fail;

/// A cell by its kind, its table's number and its own; how many bytes it has, and which of them aren't zero.
struct Given(CellKind, u8, u32, usize, &'static [(usize, u8)]);

/// A place, and as text the bytes that lie there and what they are read as.
struct Read(CellKind, u8, u32, &'static str);

struct Case {
    /// The cells of each change.
    log: &'static [&'static [Given]],
    reads: &'static [Read],
    /// What all cells of table 1 are read as.
    table: &'static str,
}

const CASES: [Case; 12] = [
    // what isn't there was never used
    Case {
        log: &[&[Given(CellKind::Pointer, 2, 1, 8, &[(0, 1), (7, 1)])]],
        reads: &[
            Read(CellKind::Header, 1, 0, "-> header 0 0 0 0"),
            Read(CellKind::Pointer, 1, 1, "-> free 0"),
            Read(CellKind::Slot, 1, 1, "-> Free 0 0 0 0 [] []"),
            Read(CellKind::Pointer, 2, 1, "0=1 7=1 -> used 1"),
        ],
        table: "0 row pointers, 0 slots",
    },
    // three cells with one number or none are three places
    Case {
        log: &[&[
            Given(CellKind::Header, 1, 0, 16, &[(3, 1), (11, 1)]),
            Given(
                CellKind::Slot,
                1,
                1,
                116,
                &[
                    (0, 1),
                    (1, 1),
                    (11, 9),
                    (19, 1),
                    (23, 7),
                    (27, 2),
                    (36, 107),
                    (100, 98),
                    (101, 99),
                ],
            ),
            Given(CellKind::Pointer, 1, 1, 8, &[(0, 1), (7, 1)]),
        ]],
        reads: &[
            Read(CellKind::Header, 1, 0, "3=1 11=1 -> header 1 0 1 0"),
            Read(
                CellKind::Slot,
                1,
                1,
                "0=1 1=1 11=9 19=1 23=7 27=2 36=107 100=98 101=99 -> Row 9 0 1 7 [107] [98, 99]",
            ),
            Read(CellKind::Pointer, 1, 1, "0=1 7=1 -> used 1"),
            Read(CellKind::Slot, 2, 1, "-> Free 0 0 0 0 [] []"),
        ],
        table: "1 row pointers, 1 slots",
    },
    // the later change lies over the earlier one, and of one change the later cell
    Case {
        log: &[
            &[
                Given(CellKind::Header, 1, 0, 16, &[(11, 2)]),
                Given(CellKind::Pointer, 1, 1, 8, &[(7, 2)]),
                Given(CellKind::Pointer, 1, 2, 8, &[(7, 3)]),
            ],
            &[
                Given(CellKind::Pointer, 1, 2, 8, &[(7, 4)]),
                Given(CellKind::Pointer, 1, 2, 8, &[(0, 1), (6, 1)]),
            ],
        ],
        reads: &[
            Read(CellKind::Pointer, 1, 1, "7=2 -> free 2"),
            Read(CellKind::Pointer, 1, 2, "0=1 6=1 -> used 256"),
        ],
        table: "2 row pointers, 0 slots",
    },
    // bytes outside of the grammar matter only where none lie over them
    Case {
        log: &[
            &[
                Given(CellKind::Header, 1, 0, 15, &[]),
                Given(CellKind::Pointer, 1, 1, 8, &[(0, 2)]),
            ],
            &[Given(CellKind::Header, 1, 0, 16, &[(11, 1)])],
        ],
        reads: &[
            Read(CellKind::Header, 1, 0, "11=1 -> header 0 0 1 0"),
            Read(CellKind::Pointer, 1, 1, "0=2 -> none"),
        ],
        table: "bad Pointer 1",
    },
    Case {
        log: &[
            &[Given(CellKind::Header, 1, 0, 16, &[])],
            &[Given(CellKind::Header, 1, 0, 17, &[])],
        ],
        reads: &[Read(CellKind::Header, 1, 0, "-> none")],
        table: "bad Header 0",
    },
    // a slot of another store's length
    Case {
        log: &[&[
            Given(CellKind::Header, 1, 0, 16, &[(3, 1)]),
            Given(CellKind::Slot, 1, 1, 164, &[]),
        ]],
        reads: &[Read(CellKind::Slot, 1, 1, "-> none")],
        table: "bad Slot 1",
    },
    // a row pointer comes before a slot, and a lower number before a higher one
    Case {
        log: &[&[
            Given(CellKind::Header, 1, 0, 16, &[(3, 1), (11, 3)]),
            Given(CellKind::Slot, 1, 1, 116, &[(0, 3)]),
            Given(CellKind::Pointer, 1, 1, 8, &[]),
            Given(CellKind::Pointer, 1, 2, 8, &[(1, 1)]),
            Given(CellKind::Pointer, 1, 3, 8, &[(2, 1)]),
        ]],
        reads: &[Read(CellKind::Slot, 1, 1, "0=3 -> none")],
        table: "bad Pointer 2",
    },
    // a place that is counted and was never laid
    Case {
        log: &[&[
            Given(CellKind::Header, 1, 0, 16, &[(3, 2)]),
            Given(CellKind::Slot, 1, 1, 116, &[]),
        ]],
        reads: &[Read(CellKind::Slot, 1, 2, "-> Free 0 0 0 0 [] []")],
        table: "bad Slot 2",
    },
    Case {
        log: &[&[Given(
            CellKind::Header,
            1,
            0,
            16,
            &[(8, 255), (9, 255), (10, 255), (11, 255)],
        )]],
        reads: &[],
        table: "bad Pointer 1",
    },
    // a place that was laid and isn't counted
    Case {
        log: &[&[
            Given(CellKind::Header, 1, 0, 16, &[(3, 1)]),
            Given(CellKind::Slot, 1, 1, 116, &[]),
            Given(CellKind::Slot, 1, 2, 116, &[(0, 3)]),
        ]],
        reads: &[Read(CellKind::Slot, 1, 2, "0=3 -> none")],
        table: "0 row pointers, 1 slots",
    },
    // the greatest number of all, and nothing else
    Case {
        log: &[&[Given(CellKind::Pointer, 1, 4_294_967_295, 8, &[(0, 1), (7, 1)])]],
        reads: &[
            Read(CellKind::Pointer, 1, 4_294_967_295, "0=1 7=1 -> used 1"),
            Read(CellKind::Pointer, 1, 4_294_967_294, "-> free 0"),
            Read(CellKind::Pointer, 1, 0, "-> free 0"),
            Read(CellKind::Pointer, 1, 1, "-> free 0"),
            Read(CellKind::Slot, 1, 4_294_967_295, "-> Free 0 0 0 0 [] []"),
        ],
        table: "0 row pointers, 0 slots",
    },
    // the fourth and the sixth are laid before those in front of them, and the sixth once more behind them
    Case {
        log: &[
            &[Given(CellKind::Pointer, 1, 4, 8, &[(7, 4)])],
            &[
                Given(CellKind::Pointer, 1, 6, 8, &[(7, 6)]),
                Given(CellKind::Pointer, 1, 1, 8, &[(7, 1)]),
                Given(CellKind::Pointer, 1, 3, 8, &[(7, 3)]),
            ],
            &[
                Given(CellKind::Pointer, 1, 5, 8, &[(7, 5)]),
                Given(CellKind::Pointer, 1, 6, 8, &[(7, 7)]),
            ],
        ],
        reads: &[
            Read(CellKind::Pointer, 1, 1, "7=1 -> free 1"),
            Read(CellKind::Pointer, 1, 2, "-> free 0"),
            Read(CellKind::Pointer, 1, 3, "7=3 -> free 3"),
            Read(CellKind::Pointer, 1, 4, "7=4 -> free 4"),
            Read(CellKind::Pointer, 1, 5, "7=5 -> free 5"),
            Read(CellKind::Pointer, 1, 6, "7=7 -> free 7"),
            Read(CellKind::Pointer, 1, 7, "-> free 0"),
        ],
        table: "0 row pointers, 0 slots",
    },
];

fn cell_of(alloc: Global, given: &Given) -> Result<Cell, AllocError> {
    let Given(what, table, number, size, set) = given;
    let mut bytes = vec![in alloc; 0; *size]?;
    for (place, byte) in *set {
        if let Some(old) = bytes.get_mut(*place) {
            *old = *byte;
        }
    }
    Ok(Cell {
        what: *what,
        table: *table,
        number: *number,
        bytes: Bytes::from_vec(bytes),
    })
}

fn change_of(alloc: Global, given: &[Given]) -> Result<Change, AllocError> {
    let mut cells = CellList::new(alloc);
    for one in given {
        cells.push(cell_of(alloc, one)?)?;
    }
    Ok(Change {
        kind: ChangeKind::Put,
        xn: 1,
        commit: 0,
        cells,
    })
}

fn log_of(alloc: Global, given: &[&[Given]]) -> Result<Vec<Change>, AllocError> {
    let mut log = Vec::new(alloc);
    for one in given {
        log.push(change_of(alloc, one)?)?;
    }
    Ok(log)
}

fn header_text(alloc: Global, laid: &Laid<'_>, table: u8) -> Result<String, Fail> {
    let Some(header) = laid.header(table) else {
        return Ok(format!(in alloc; "none")?);
    };
    Ok(format!(in alloc;
        "header {} {} {} {}",
        header.slots, header.free_slot, header.rows, header.free_row
    )?)
}

fn pointer_text(alloc: Global, laid: &Laid<'_>, table: u8, number: u32) -> Result<String, Fail> {
    let Some(pointer) = laid.pointer(table, number) else {
        return Ok(format!(in alloc; "none")?);
    };
    let used = if pointer.used { "used" } else { "free" };
    Ok(format!(in alloc; "{used} {}", pointer.head)?)
}

fn slot_text(alloc: Global, laid: &Laid<'_>, table: u8, number: u32) -> Result<String, Fail> {
    let Some(slot) = laid.slot(alloc, table, number, SHORT)? else {
        return Ok(format!(in alloc; "none")?);
    };
    Ok(format!(in alloc;
        "{:?} {} {} {} {} {:?} {:?}",
        slot.state,
        slot.xn,
        slot.next,
        slot.row,
        slot.tag,
        slot.key.as_slice(),
        slot.short.as_slice()
    )?)
}

/// The bytes at the place that aren't zero, each with its own.
fn bytes_text(alloc: Global, bytes: &[u8]) -> Result<String, Fail> {
    let mut text = String::new(alloc);
    for (place, byte) in bytes.iter().enumerate() {
        if *byte != 0 {
            text.push_str(format!(in alloc; "{place}={byte} ")?.as_str())?;
        }
    }
    Ok(text)
}

fn read_text(alloc: Global, laid: &Laid<'_>, read: &Read) -> Result<String, Fail> {
    let Read(what, table, number, _) = read;
    let bytes = laid.bytes(*what, *table, *number).unwrap_or(&[]);
    let mut text = bytes_text(alloc, bytes)?;
    text.push_str("-> ")?;
    text.push_str(value_text(alloc, laid, read)?.as_str())?;
    Ok(text)
}

fn value_text(alloc: Global, laid: &Laid<'_>, read: &Read) -> Result<String, Fail> {
    let Read(what, table, number, _) = read;
    match what {
        CellKind::Header => header_text(alloc, laid, *table),
        CellKind::Slot => slot_text(alloc, laid, *table, *number),
        CellKind::Pointer => pointer_text(alloc, laid, *table, *number),
    }
}

fn table_text(alloc: Global, laid: &Laid<'_>) -> Result<String, Fail> {
    match laid.table(alloc, 1, SHORT) {
        Ok(cells) => Ok(format!(in alloc;
            "{} row pointers, {} slots",
            cells.pointers.len(),
            cells.slots.len()
        )?),
        Err(TableError::BadCell { what, number }) => {
            Ok(format!(in alloc; "bad {what:?} {number}")?)
        }
        Err(TableError::OutOfMemory) => Err(Fail::new("out of memory")),
    }
}

fn check(rt: &impl Abort, alloc: Global, case: &Case) -> Result<(), Fail> {
    let log = log_of(alloc, case.log)?;
    let laid = laid(alloc, &log)?;
    for read in case.reads {
        let Read(_, _, _, want) = read;
        assert_eq!(rt; read_text(alloc, &laid, read)?.as_str(), *want);
    }
    assert_eq!(rt; table_text(alloc, &laid)?.as_str(), case.table);
    Ok(())
}

#[test]
fn later_cells_lie_over_earlier_ones(rt: HostRuntime) -> Result<(), Fail> {
    for case in &CASES {
        check(&rt, rt.alloc(), case)?;
    }
    Ok(())
}
