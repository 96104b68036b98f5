use crate::making::{ShortTable, Version};
use px_cells::{CellList, SlotState};
use px_tables::Table;
use std::alloc::Global;
use std::process::Abort;
use std::test::Fail;

enum Step {
    /// A transaction's row with a tag and an empty body.
    Put(u64, &'static [u8], u32),
    Delete(u64, &'static [u8]),
    /// From which place of the chain on, and how many.
    Unlink(&'static [u8], u32, u32),
}

/// A step with the cells that it changes, and what is there then.
struct Moment {
    step: Step,
    cells: &'static str,
    /// How many slots were ever used, the first free one, and the same of row pointers.
    header: (u32, u32, u32, u32),
    /// The walks along the rows of the keys `a`, `b` and `bb`.
    walks: [&'static str; 3],
}

const LIFE: [Moment; 9] = [
    Moment {
        step: Step::Put(1, b"a", 10),
        cells: "Header 0, Slot 1, Pointer 1, ",
        header: (1, 0, 1, 0),
        walks: ["row 1: 1 Row 10, ", "", ""],
    },
    Moment {
        step: Step::Put(2, b"b", 20),
        cells: "Header 0, Slot 2, Pointer 2, ",
        header: (2, 0, 2, 0),
        walks: ["row 1: 1 Row 10, ", "row 2: 2 Row 20, ", ""],
    },
    Moment {
        step: Step::Put(3, b"a", 11),
        cells: "Header 0, Slot 3, Pointer 1, ",
        header: (3, 0, 2, 0),
        walks: ["row 1: 3 Row 11, 1 Row 10, ", "row 2: 2 Row 20, ", ""],
    },
    Moment {
        step: Step::Put(4, b"a", 12),
        cells: "Header 0, Slot 4, Pointer 1, ",
        header: (4, 0, 2, 0),
        walks: [
            "row 1: 4 Row 12, 3 Row 11, 1 Row 10, ",
            "row 2: 2 Row 20, ",
            "",
        ],
    },
    Moment {
        step: Step::Unlink(b"a", 2, 1),
        cells: "Header 0, Slot 1, Slot 3, ",
        header: (4, 1, 2, 0),
        walks: ["row 1: 4 Row 12, 3 Row 11, ", "row 2: 2 Row 20, ", ""],
    },
    Moment {
        step: Step::Delete(5, b"b"),
        cells: "Header 0, Slot 1, Pointer 2, ",
        header: (4, 0, 2, 0),
        walks: [
            "row 1: 4 Row 12, 3 Row 11, ",
            "row 2: 1 Deletion 0, 2 Row 20, ",
            "",
        ],
    },
    Moment {
        step: Step::Unlink(b"b", 0, 2),
        cells: "Header 0, Slot 1, Slot 2, Pointer 2, ",
        header: (4, 1, 2, 2),
        walks: ["row 1: 4 Row 12, 3 Row 11, ", "", ""],
    },
    Moment {
        step: Step::Put(6, b"bb", 30),
        cells: "Header 0, Slot 1, Pointer 2, ",
        header: (4, 2, 2, 0),
        walks: ["row 1: 4 Row 12, 3 Row 11, ", "", "row 2: 1 Row 30, "],
    },
    Moment {
        step: Step::Put(7, b"b", 40),
        cells: "Header 0, Slot 2, Pointer 3, ",
        header: (4, 0, 3, 0),
        walks: [
            "row 1: 4 Row 12, 3 Row 11, ",
            "row 3: 2 Row 40, ",
            "row 2: 1 Row 30, ",
        ],
    },
];

fn make(
    rt: &impl Abort,
    alloc: Global,
    table: &mut ShortTable,
    step: &Step,
) -> Result<CellList, Fail> {
    let (xn, key, state, tag) = match step {
        Step::Put(xn, key, tag) => (*xn, *key, SlotState::Row, *tag),
        Step::Delete(xn, key) => (*xn, *key, SlotState::Deletion, 0),
        Step::Unlink(key, from, count) => return table.unlink(rt, key, *from, *count),
    };
    let version = Version {
        xn,
        state,
        tag,
        size: 0,
        fill: 0,
    };
    table.link(rt, alloc, key, &version)
}

fn cells_text(alloc: Global, cells: &CellList) -> Result<String, Fail> {
    let mut text = String::new(alloc);
    for cell in cells.as_slice() {
        text.push_str(format!(in alloc; "{:?} {}, ", cell.what, cell.number)?.as_str())?;
    }
    Ok(text)
}

/// The row of the key, and of each version the slot's number, the state and the tag; nothing where there is no row.
fn walk_text(alloc: Global, table: &Table, key: &[u8]) -> Result<String, Fail> {
    let Some(row) = table.row_of(key) else {
        return Ok(String::new(alloc));
    };
    let mut text = format!(in alloc; "row {row}: ")?;
    for (number, slot) in table.versions(row) {
        text.push_str(format!(in alloc; "{number} {:?} {}, ", slot.state, slot.tag)?.as_str())?;
    }
    Ok(text)
}

fn check(rt: &impl Abort, alloc: Global, table: &Table, moment: &Moment) -> Result<(), Fail> {
    let header = table.header();
    assert_eq!(rt;
        (header.slots, header.free_slot, header.rows, header.free_row),
        moment.header
    );
    let [a, b, bb] = moment.walks;
    assert_eq!(rt; walk_text(alloc, table, b"a")?.as_str(), a);
    assert_eq!(rt; walk_text(alloc, table, b"b")?.as_str(), b);
    assert_eq!(rt; walk_text(alloc, table, b"bb")?.as_str(), bb);
    Ok(())
}

#[test]
fn a_table_lives(rt: HostRuntime) -> Result<(), Fail> {
    let alloc = rt.alloc();
    let mut table = ShortTable::new(alloc)?;
    for moment in &LIFE {
        let cells = make(&rt, alloc, &mut table, &moment.step)?;
        assert_eq!(rt; cells_text(alloc, &cells)?.as_str(), moment.cells);
        check(&rt, alloc, &table.table, moment)?;
    }
    Ok(())
}

/// The steps in front of the slots that are read.
const SOME: [Step; 4] = [
    Step::Put(258, b"k1", 7),
    Step::Delete(259, b"k1"),
    Step::Put(260, b"k2", 8),
    Step::Unlink(b"k2", 0, 1),
];

/// The slots from 0: the state, the transaction, the next slot, the row, the tag and the key.
const SLOTS: [&str; 4] = [
    "Free 0 0 0 0 []",
    "Row 258 0 1 7 [107, 49]",
    "Deletion 259 1 1 0 [107, 49]",
    "Free 0 0 0 8 [107, 50]",
];

fn slot_text(rt: &impl Abort, alloc: Global, table: &Table, number: u32) -> Result<String, Fail> {
    assert!(rt; number <= table.header().slots);
    let slot = table.slot(number);
    Ok(format!(in alloc;
        "{:?} {} {} {} {} {:?}",
        slot.state,
        slot.xn,
        slot.next,
        slot.row,
        slot.tag,
        slot.key.as_slice()
    )?)
}

#[test]
fn single_cells_are_read(rt: HostRuntime) -> Result<(), Fail> {
    let alloc = rt.alloc();
    let mut table = ShortTable::new(alloc)?;
    for step in &SOME {
        let _cells = make(&rt, alloc, &mut table, step)?;
    }
    let table = table.table;
    for (number, want) in (0..).zip(&SLOTS) {
        assert_eq!(rt; slot_text(&rt, alloc, &table, number)?.as_str(), *want);
    }
    assert_eq!(rt; table.row_of(b"k1"), Some(1));
    assert_eq!(rt; table.row_of(b"k2"), None);
    assert_eq!(rt; table.row_of(b"k"), None);
    Ok(())
}
