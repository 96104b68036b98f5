use px_cells::{Header, Pointer, Slot, SlotState};
use px_model::Bytes;
use px_survey::{Flaw, survey};
use std::alloc::{AllocError, Global};
use std::test::Fail;

#[derive(Clone, Copy)]
enum GivenPointer {
    /// The next free row pointer.
    Free(u32),
    /// The newest version's slot.
    Used(u32),
}

#[derive(Clone, Copy)]
enum GivenSlot {
    /// The next free slot.
    Free(u32),
    /// The row pointer, the slot of the next older version, and the key's one byte.
    Row(u32, u32, u8),
    Deletion(u32, u32, u8),
}

struct Case {
    name: &'static str,
    /// The first of the free slots and of the free row pointers.
    free: (u32, u32),
    pointers: &'static [GivenPointer],
    slots: &'static [GivenSlot],
    flaw: Option<Flaw>,
}

const CASES: [Case; 33] = [
    Case {
        name: "no cells",
        free: (0, 0),
        pointers: &[],
        slots: &[],
        flaw: None,
    },
    Case {
        name: "one row",
        free: (0, 0),
        pointers: &[GivenPointer::Used(1)],
        slots: &[GivenSlot::Row(1, 0, b'a')],
        flaw: None,
    },
    Case {
        name: "a deletion in front of a row",
        free: (0, 0),
        pointers: &[GivenPointer::Used(2)],
        slots: &[GivenSlot::Row(1, 0, b'a'), GivenSlot::Deletion(1, 1, b'a')],
        flaw: None,
    },
    Case {
        name: "free lists alone",
        free: (1, 2),
        pointers: &[GivenPointer::Free(0), GivenPointer::Free(1)],
        slots: &[GivenSlot::Free(2), GivenSlot::Free(0)],
        flaw: None,
    },
    Case {
        name: "rows among free places",
        free: (3, 2),
        pointers: &[
            GivenPointer::Used(1),
            GivenPointer::Free(0),
            GivenPointer::Used(4),
        ],
        slots: &[
            GivenSlot::Row(1, 2, b'a'),
            GivenSlot::Row(1, 0, b'a'),
            GivenSlot::Free(0),
            GivenSlot::Deletion(3, 0, b'b'),
        ],
        flaw: None,
    },
    Case {
        name: "the first free slot is past the last slot",
        free: (1, 0),
        pointers: &[],
        slots: &[],
        flaw: Some(Flaw::Header),
    },
    Case {
        name: "the first free slot is used",
        free: (1, 0),
        pointers: &[GivenPointer::Used(1)],
        slots: &[GivenSlot::Row(1, 0, b'a')],
        flaw: Some(Flaw::Header),
    },
    Case {
        name: "a free slot leads to a used one",
        free: (2, 0),
        pointers: &[GivenPointer::Used(1)],
        slots: &[GivenSlot::Row(1, 0, b'a'), GivenSlot::Free(1)],
        flaw: Some(Flaw::Header),
    },
    Case {
        name: "a free slot leads past the last slot",
        free: (1, 0),
        pointers: &[],
        slots: &[GivenSlot::Free(2)],
        flaw: Some(Flaw::Header),
    },
    Case {
        name: "a free slot leads to itself",
        free: (1, 0),
        pointers: &[],
        slots: &[GivenSlot::Free(1)],
        flaw: Some(Flaw::Header),
    },
    Case {
        name: "free slots lead in a circle that the first isn't in",
        free: (1, 0),
        pointers: &[],
        slots: &[GivenSlot::Free(2), GivenSlot::Free(3), GivenSlot::Free(2)],
        flaw: Some(Flaw::Header),
    },
    Case {
        name: "the first free row pointer is past the last one",
        free: (0, 1),
        pointers: &[],
        slots: &[],
        flaw: Some(Flaw::Header),
    },
    Case {
        name: "the first free row pointer is used",
        free: (0, 1),
        pointers: &[GivenPointer::Used(1)],
        slots: &[GivenSlot::Row(1, 0, b'a')],
        flaw: Some(Flaw::Header),
    },
    Case {
        name: "free row pointers lead in a circle",
        free: (0, 1),
        pointers: &[GivenPointer::Free(2), GivenPointer::Free(1)],
        slots: &[],
        flaw: Some(Flaw::Header),
    },
    Case {
        name: "a free list comes before a row",
        free: (3, 0),
        pointers: &[GivenPointer::Used(0)],
        slots: &[GivenSlot::Free(0)],
        flaw: Some(Flaw::Header),
    },
    Case {
        name: "a free row pointer is on no list",
        free: (0, 1),
        pointers: &[GivenPointer::Free(0), GivenPointer::Free(1)],
        slots: &[],
        flaw: Some(Flaw::Pointer(2)),
    },
    Case {
        name: "a row without versions",
        free: (0, 0),
        pointers: &[GivenPointer::Used(0)],
        slots: &[],
        flaw: Some(Flaw::Pointer(1)),
    },
    Case {
        name: "a head past the last slot",
        free: (0, 0),
        pointers: &[GivenPointer::Used(1), GivenPointer::Used(2)],
        slots: &[GivenSlot::Row(1, 0, b'a')],
        flaw: Some(Flaw::Pointer(2)),
    },
    Case {
        name: "a free slot as a head",
        free: (1, 0),
        pointers: &[GivenPointer::Used(1)],
        slots: &[GivenSlot::Free(0)],
        flaw: Some(Flaw::Pointer(1)),
    },
    Case {
        name: "a version leads to a free slot",
        free: (2, 0),
        pointers: &[GivenPointer::Used(1)],
        slots: &[GivenSlot::Row(1, 2, b'a'), GivenSlot::Free(0)],
        flaw: Some(Flaw::Pointer(1)),
    },
    Case {
        name: "a version leads past the last slot",
        free: (0, 0),
        pointers: &[GivenPointer::Used(1)],
        slots: &[GivenSlot::Row(1, 2, b'a')],
        flaw: Some(Flaw::Pointer(1)),
    },
    Case {
        name: "versions lead in a circle",
        free: (0, 0),
        pointers: &[GivenPointer::Used(1)],
        slots: &[GivenSlot::Row(1, 2, b'a'), GivenSlot::Row(1, 1, b'a')],
        flaw: Some(Flaw::Pointer(1)),
    },
    Case {
        name: "a head of another row",
        free: (0, 0),
        pointers: &[GivenPointer::Used(1)],
        slots: &[GivenSlot::Row(2, 0, b'a')],
        flaw: Some(Flaw::Pointer(1)),
    },
    Case {
        name: "a version leads to one of another row",
        free: (0, 0),
        pointers: &[GivenPointer::Used(1)],
        slots: &[GivenSlot::Row(1, 2, b'a'), GivenSlot::Row(2, 0, b'a')],
        flaw: Some(Flaw::Pointer(1)),
    },
    Case {
        name: "a version leads to one with another key",
        free: (0, 0),
        pointers: &[GivenPointer::Used(1)],
        slots: &[GivenSlot::Row(1, 2, b'a'), GivenSlot::Row(1, 0, b'b')],
        flaw: Some(Flaw::Pointer(1)),
    },
    Case {
        name: "a slot in two chains",
        free: (0, 0),
        pointers: &[GivenPointer::Used(1), GivenPointer::Used(2)],
        slots: &[
            GivenSlot::Row(1, 3, b'a'),
            GivenSlot::Row(2, 3, b'b'),
            GivenSlot::Row(1, 0, b'a'),
        ],
        flaw: Some(Flaw::Pointer(2)),
    },
    Case {
        name: "two rows with one key",
        free: (0, 0),
        pointers: &[GivenPointer::Used(1), GivenPointer::Used(2)],
        slots: &[GivenSlot::Row(1, 0, b'a'), GivenSlot::Row(2, 0, b'a')],
        flaw: Some(Flaw::Pointer(2)),
    },
    Case {
        name: "of two row pointers the lower one comes first",
        free: (0, 0),
        pointers: &[
            GivenPointer::Used(1),
            GivenPointer::Free(0),
            GivenPointer::Used(0),
        ],
        slots: &[GivenSlot::Row(1, 0, b'a')],
        flaw: Some(Flaw::Pointer(2)),
    },
    Case {
        name: "a row pointer comes before a slot",
        free: (0, 0),
        pointers: &[GivenPointer::Used(2)],
        slots: &[GivenSlot::Free(0)],
        flaw: Some(Flaw::Pointer(1)),
    },
    Case {
        name: "a free slot on no list",
        free: (0, 0),
        pointers: &[],
        slots: &[GivenSlot::Free(0)],
        flaw: Some(Flaw::Slot(1)),
    },
    Case {
        name: "a version in no chain",
        free: (0, 0),
        pointers: &[GivenPointer::Used(1)],
        slots: &[GivenSlot::Row(1, 0, b'a'), GivenSlot::Row(1, 0, b'a')],
        flaw: Some(Flaw::Slot(2)),
    },
    Case {
        name: "a version of a free row pointer",
        free: (0, 1),
        pointers: &[GivenPointer::Free(0)],
        slots: &[GivenSlot::Row(1, 0, b'a')],
        flaw: Some(Flaw::Slot(1)),
    },
    Case {
        name: "of two slots the lower one comes first",
        free: (1, 0),
        pointers: &[GivenPointer::Used(4)],
        slots: &[
            GivenSlot::Free(0),
            GivenSlot::Row(1, 0, b'a'),
            GivenSlot::Free(0),
            GivenSlot::Row(1, 0, b'a'),
        ],
        flaw: Some(Flaw::Slot(2)),
    },
];

fn slot_of(alloc: Global, given: GivenSlot) -> Result<Slot, AllocError> {
    let (state, row, next, key) = match given {
        GivenSlot::Free(next) => (SlotState::Free, 0, next, b'f'),
        GivenSlot::Row(row, next, key) => (SlotState::Row, row, next, key),
        GivenSlot::Deletion(row, next, key) => (SlotState::Deletion, row, next, key),
    };
    let xn = if state == SlotState::Free { 0 } else { 1 };
    Ok(Slot {
        state,
        xn,
        next,
        row,
        tag: 0,
        total: 0,
        log: 0,
        place: 0,
        key: Bytes::from_slice(alloc, &[key])?,
        short: Bytes::new(alloc),
    })
}

fn slots_of(alloc: Global, given: &[GivenSlot]) -> Result<Vec<Slot>, AllocError> {
    let mut slots = Vec::new(alloc);
    for one in given {
        slots.push(slot_of(alloc, *one)?)?;
    }
    Ok(slots)
}

fn pointers_of(alloc: Global, given: &[GivenPointer]) -> Result<Vec<Pointer>, AllocError> {
    let mut pointers = Vec::new(alloc);
    for one in given {
        let (used, head) = match *one {
            GivenPointer::Free(next) => (false, next),
            GivenPointer::Used(head) => (true, head),
        };
        pointers.push(Pointer { used, head })?;
    }
    Ok(pointers)
}

/// The first flaw of the case's cells.
fn surveyed(alloc: Global, case: &Case) -> Result<Option<Flaw>, Fail> {
    let pointers = pointers_of(alloc, case.pointers)?;
    let slots = slots_of(alloc, case.slots)?;
    let header = Header {
        slots: u32::try_from(slots.len())?,
        free_slot: case.free.0,
        rows: u32::try_from(pointers.len())?,
        free_row: case.free.1,
    };
    Ok(survey(alloc, &header, &pointers, &slots)?)
}

#[test]
fn the_first_flaw_is_found(rt: HostRuntime) -> Result<(), Fail> {
    for case in &CASES {
        assert_eq!(rt; surveyed(rt.alloc(), case)?, case.flaw, "{}", case.name);
    }
    Ok(())
}
