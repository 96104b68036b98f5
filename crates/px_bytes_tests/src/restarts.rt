use px_restart::{Restart, pick, restart_bytes};

/// What a store of one table with short length 64 is made with.
const MADE: Restart = Restart {
    serial: 1,
    tables: 1,
    short: 64,
    commits: 0,
    next: 1,
    low: 1,
    first: 0,
    redo: 0,
    durable: 0,
    segment: 1,
};

const MADE_BYTES: &[u8; 80] = b"PXTR\0\0\0\x01\0\0\0\0\0\0\0\x01\0\0\0\x01\0\0\0\x40\
    \0\0\0\0\0\0\0\0\0\0\0\0\0\0\0\x01\0\0\0\0\0\0\0\x01\0\0\0\0\0\0\0\0\
    \0\0\0\0\0\0\0\0\0\0\0\0\0\0\0\0\0\0\0\x01\x5a\xdf\x21\x73";

const LATER: Restart = Restart {
    serial: 2,
    tables: 8,
    short: 1024,
    commits: 3,
    next: 9,
    low: 7,
    first: 1,
    redo: 2,
    durable: 5,
    segment: 4,
};

const LATER_BYTES: &[u8; 80] = b"PXTR\0\0\0\x01\0\0\0\0\0\0\0\x02\0\0\0\x08\0\0\x04\0\
    \0\0\0\0\0\0\0\x03\0\0\0\0\0\0\0\x09\0\0\0\0\0\0\0\x07\0\0\0\0\0\0\0\x01\
    \0\0\0\0\0\0\0\x02\0\0\0\0\0\0\0\x05\0\0\0\x04\x33\x47\xa2\x63";

/// The first one, but of version 2 and with the sum that is right for it.
const OTHER_VERSION: &[u8; 80] = b"PXTR\0\0\0\x02\0\0\0\0\0\0\0\x01\0\0\0\x01\0\0\0\x40\
    \0\0\0\0\0\0\0\0\0\0\0\0\0\0\0\x01\0\0\0\0\0\0\0\x01\0\0\0\0\0\0\0\0\
    \0\0\0\0\0\0\0\0\0\0\0\0\0\0\0\0\0\0\0\x01\xee\x84\x33\x76";

#[test]
fn restarts_are_written(rt: HostRuntime) {
    assert_eq!(rt; restart_bytes(&MADE).as_slice(), MADE_BYTES.as_slice());
    assert_eq!(rt; restart_bytes(&LATER).as_slice(), LATER_BYTES.as_slice());
}

#[test]
fn the_newer_one_that_checks_is_picked(rt: HostRuntime) {
    let mut torn = *MADE_BYTES;
    torn[79] = 0x72;
    let made = MADE_BYTES.as_slice();
    let later = LATER_BYTES.as_slice();
    let empty = b"".as_slice();
    for (a, b, picked) in [
        (made, empty, Some(MADE)),
        (empty, made, Some(MADE)),
        (made, later, Some(LATER)),
        (later, made, Some(LATER)),
        (torn.as_slice(), later, Some(LATER)),
        (torn.as_slice(), empty, None),
        (OTHER_VERSION.as_slice(), empty, None),
        (empty, empty, None),
    ] {
        assert_eq!(rt; pick(a, b), picked);
    }
}
