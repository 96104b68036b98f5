use px_cells::{Cell, CellKind, CellList};
use px_change::{Change, ChangeKind, Payload, decode, is_in_grammar, text_size};
use px_model::Bytes;
use std::alloc::{AllocError, Global};
use std::test::Fail;

const SHORT: u32 = 16;

const TABLE: u8 = 3;

/// The commit of transaction 1 as the first one.
const COMMIT: &[u8; 18] = b"\x02\0\0\0\0\0\0\0\x01\0\0\0\0\0\0\0\x01\0";

/// A cell whose bytes are all the same, and what stands before them.
struct Given {
    what: CellKind,
    number: u32,
    size: usize,
    fill: u8,
    head: &'static [u8; 8],
}

const HEADER: Given = Given {
    what: CellKind::Header,
    number: 0,
    size: 16,
    fill: 0xa1,
    head: b"\x01\x03\0\0\0\0\0\x10",
};

const SLOT: Given = Given {
    what: CellKind::Slot,
    number: 5,
    size: 116,
    fill: 0xb2,
    head: b"\x02\x03\0\0\0\x05\0\x74",
};

const NEXT_SLOT: Given = Given {
    what: CellKind::Slot,
    number: 4_294_967_295,
    size: 116,
    fill: 0xb3,
    head: b"\x02\x03\xff\xff\xff\xff\0\x74",
};

const POINTER: Given = Given {
    what: CellKind::Pointer,
    number: 65_536,
    size: 8,
    fill: 0xc4,
    head: b"\x03\x03\0\x01\0\0\0\x08",
};

fn bytes_of(alloc: Global, given: &Given) -> Result<Vec<u8>, AllocError> {
    vec![in alloc; given.fill; given.size]
}

fn cells_of(alloc: Global, given: &[Given]) -> Result<CellList, AllocError> {
    let mut cells = CellList::new(alloc);
    for one in given {
        let bytes = bytes_of(alloc, one)?;
        cells.push(Cell {
            what: one.what,
            table: TABLE,
            number: one.number,
            bytes: Bytes::from_vec(bytes),
        })?;
    }
    Ok(cells)
}

#[test]
fn a_commit_is_read(rt: HostRuntime) -> Result<(), Fail> {
    let alloc = rt.alloc();
    let read = decode(alloc, COMMIT, SHORT)?;
    let commit = read.expect(&rt, "a commit");
    assert_eq!(rt;
        (commit.kind, commit.xn, commit.commit),
        (ChangeKind::Commit, 1, 1)
    );
    assert_eq!(rt; commit.cells.as_slice().len(), 0);
    let mut longer = Vec::from_slice(alloc, COMMIT)?;
    longer.push(0)?;
    assert!(rt; decode(alloc, &longer, SHORT)?.is_none());
    Ok(())
}

struct Case {
    kind: ChangeKind,
    commit: u64,
    head: &'static [u8; 18],
    given: &'static [Given],
}

/// One of each kind, of the transaction with the stored number 258.
const CASES: [Case; 6] = [
    Case {
        kind: ChangeKind::Put,
        commit: 0,
        head: b"\x01\0\0\0\0\0\0\x01\x02\0\0\0\0\0\0\0\0\x03",
        given: &[HEADER, SLOT, POINTER],
    },
    Case {
        kind: ChangeKind::Commit,
        commit: 65_539,
        head: b"\x02\0\0\0\0\0\0\x01\x02\0\0\0\0\0\x01\0\x03\0",
        given: &[],
    },
    Case {
        kind: ChangeKind::Rollback,
        commit: 0,
        head: b"\x03\0\0\0\0\0\0\x01\x02\0\0\0\0\0\0\0\0\0",
        given: &[],
    },
    Case {
        kind: ChangeKind::Sweep,
        commit: 0,
        head: b"\x04\0\0\0\0\0\0\x01\x02\0\0\0\0\0\0\0\0\x04",
        given: &[HEADER, SLOT, NEXT_SLOT, POINTER],
    },
    Case {
        kind: ChangeKind::Move,
        commit: 0,
        head: b"\x05\0\0\0\0\0\0\x01\x02\0\0\0\0\0\0\0\0\x01",
        given: &[SLOT],
    },
    Case {
        kind: ChangeKind::Tidy,
        commit: 0,
        head: b"\x06\0\0\0\0\0\0\x01\x02\0\0\0\0\0\0\0\0\x03",
        given: &[HEADER, SLOT, NEXT_SLOT],
    },
];

fn change_of(alloc: Global, case: &Case) -> Result<Change, AllocError> {
    let given = case.given;
    let cells = cells_of(alloc, given)?;
    Ok(Change {
        kind: case.kind,
        xn: 258,
        commit: case.commit,
        cells,
    })
}

fn text_of(alloc: Global, case: &Case) -> Result<Vec<u8>, AllocError> {
    let head = case.head;
    let mut text = Vec::from_slice(alloc, head)?;
    let given = case.given;
    for one in given {
        let head = one.head;
        text.extend_from_slice(head)?;
        let bytes = bytes_of(alloc, one)?;
        text.extend_from_slice(&bytes)?;
    }
    Ok(text)
}

#[test]
fn each_kind_is_written(rt: HostRuntime) -> Result<(), Fail> {
    let alloc = rt.alloc();
    for case in &CASES {
        let change = change_of(alloc, case)?;
        let text = text_of(alloc, case)?;
        assert!(rt; is_in_grammar(&change, SHORT));
        let mut out = vec![in alloc; 7]?;
        change.encode(SHORT, &mut out)?;
        assert_eq!(rt; &out[1..], text.as_slice());
        assert_eq!(rt; text_size(&change), text.len());
        match change.end() {
            Some(end) => assert_eq!(rt; end.as_slice(), text.as_slice()),
            None => assert!(rt; !change.cells.as_slice().is_empty()),
        }
    }
    Ok(())
}

fn is_cell(alloc: Global, cell: &Cell, given: &Given) -> Result<bool, AllocError> {
    let bytes = bytes_of(alloc, given)?;
    Ok(
        cell.what == given.what
            && cell.table == TABLE
            && cell.number == given.number
            && cell.bytes.as_slice() == bytes.as_slice(),
    )
}

fn are_cells(alloc: Global, cells: &[Cell], given: &[Given]) -> Result<bool, AllocError> {
    for (cell, one) in cells.iter().zip(given) {
        if !is_cell(alloc, cell, one)? {
            return Ok(false);
        }
    }
    Ok(cells.len() == given.len())
}

fn is_case(alloc: Global, change: &Change, case: &Case) -> Result<bool, AllocError> {
    if change.kind != case.kind || change.xn != 258 || change.commit != case.commit {
        return Ok(false);
    }
    let given = case.given;
    are_cells(alloc, change.cells.as_slice(), given)
}

#[test]
fn each_kind_is_read(rt: HostRuntime) -> Result<(), Fail> {
    let alloc = rt.alloc();
    for case in &CASES {
        let mut text = text_of(alloc, case)?;
        let change = decode(alloc, &text, SHORT)?.expect(&rt, "a change");
        assert!(rt; is_case(alloc, &change, case)?);
        text.push(0)?;
        assert!(rt; decode(alloc, &text, SHORT)?.is_none());
        let _added = text.pop();
        let _last = text.pop();
        assert!(rt; decode(alloc, &text, SHORT)?.is_none());
    }
    Ok(())
}
