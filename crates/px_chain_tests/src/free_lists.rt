use px_cells::Header;
use px_free::{give_row, give_slot, take_row, take_slot};

const fn header(slots: u32, free_slot: u32, rows: u32, free_row: u32) -> Header {
    Header {
        slots,
        free_slot,
        rows,
        free_row,
    }
}

#[test]
fn places_are_taken(rt: HostRuntime) {
    for (before, next, taken) in [
        (header(0, 0, 0, 0), 0, Some((1, header(1, 0, 0, 0)))),
        (header(u32::MAX, 0, 5, 0), 0, None),
        (header(12, 9, 3, 2), 4, Some((9, header(12, 4, 3, 2)))),
        (
            header(u32::MAX, 9, 3, 0),
            0,
            Some((9, header(u32::MAX, 0, 3, 0))),
        ),
    ] {
        assert_eq!(rt; take_slot(before, next), taken);
    }
    for (before, next, taken) in [
        (header(0, 0, 0, 0), 0, Some((1, header(0, 0, 1, 0)))),
        (header(5, 4, u32::MAX, 0), 0, None),
        (header(12, 9, 3, 2), 1, Some((2, header(12, 9, 3, 1)))),
    ] {
        assert_eq!(rt; take_row(before, next), taken);
    }
}

#[test]
fn places_are_given_back(rt: HostRuntime) {
    assert_eq!(rt; give_slot(header(12, 4, 3, 2), 9), header(12, 9, 3, 2));
    assert_eq!(rt; give_row(header(12, 4, 3, 0), 3), header(12, 4, 3, 3));
}
