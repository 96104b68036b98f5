use px_cells::SlotState;
use px_recs::{read_slot, write_slot};
use std::alloc::{AllocError, Global};
use std::test::Fail;

/// How many bytes of a body stand in these slots.
const SHORT: u32 = 64;

/// A row with key 6b31, tag 7 and body 616263.
const ROW: &[u8; 164] = b"\x01\x02\0\0\0\0\0\0\0\0\0\x01\
    \0\0\0\0\0\0\0\x01\0\0\0\x07\0\0\0\x03\0\0\0\0\0\0\0\0\
    k1\0\0\0\0\0\0\0\0\0\0\0\0\0\0\0\0\0\0\0\0\0\0\0\0\0\0\0\0\0\0\
    \0\0\0\0\0\0\0\0\0\0\0\0\0\0\0\0\0\0\0\0\0\0\0\0\0\0\0\0\0\0\0\0\
    abc\0\0\0\0\0\0\0\0\0\0\0\0\0\0\0\0\0\0\0\0\0\0\0\0\0\0\0\0\0\
    \0\0\0\0\0\0\0\0\0\0\0\0\0\0\0\0\0\0\0\0\0\0\0\0\0\0\0\0\0\0\0\0";

/// A row with a body of 68 bytes, of which the last four lie at place 9 of data log 2.
const LONG: &[u8; 164] = b"\x01\x01\0\0\0\0\0\0\0\0\x01\x02\
    \0\0\0\x03\0\0\0\x02\0\0\0\0\0\0\0D\0\0\0\x02\0\0\0\x09\
    k\0\0\0\0\0\0\0\0\0\0\0\0\0\0\0\0\0\0\0\0\0\0\0\0\0\0\0\0\0\0\0\
    \0\0\0\0\0\0\0\0\0\0\0\0\0\0\0\0\0\0\0\0\0\0\0\0\0\0\0\0\0\0\0\0\
    abcdefghijklmnopqrstuvwxyzabcdef\
    ghijklmnopqrstuvwxyzabcdefghijkl";

/// The deletion of a row.
const DELETED: &[u8; 164] = b"\x02\x02\0\0\0\0\0\0\0\0\0\x05\
    \0\0\0\x01\0\0\0\x01\0\0\0\0\0\0\0\0\0\0\0\0\0\0\0\0\
    k1\0\0\0\0\0\0\0\0\0\0\0\0\0\0\0\0\0\0\0\0\0\0\0\0\0\0\0\0\0\0\
    \0\0\0\0\0\0\0\0\0\0\0\0\0\0\0\0\0\0\0\0\0\0\0\0\0\0\0\0\0\0\0\0\
    \0\0\0\0\0\0\0\0\0\0\0\0\0\0\0\0\0\0\0\0\0\0\0\0\0\0\0\0\0\0\0\0\
    \0\0\0\0\0\0\0\0\0\0\0\0\0\0\0\0\0\0\0\0\0\0\0\0\0\0\0\0\0\0\0\0";

/// A slot that had a row and was freed; slot 4 is free too.
const FREED: &[u8; 164] = b"\0\x02\0\0\0\0\0\0\0\0\0\0\
    \0\0\0\x04\0\0\0\0\0\0\0\x07\0\0\0\0\0\0\0\0\0\0\0\0\
    k1\0\0\0\0\0\0\0\0\0\0\0\0\0\0\0\0\0\0\0\0\0\0\0\0\0\0\0\0\0\0\
    \0\0\0\0\0\0\0\0\0\0\0\0\0\0\0\0\0\0\0\0\0\0\0\0\0\0\0\0\0\0\0\0\
    \0\0\0\0\0\0\0\0\0\0\0\0\0\0\0\0\0\0\0\0\0\0\0\0\0\0\0\0\0\0\0\0\
    \0\0\0\0\0\0\0\0\0\0\0\0\0\0\0\0\0\0\0\0\0\0\0\0\0\0\0\0\0\0\0\0";

/// A slot that was never used.
const UNUSED: &[u8; 164] = &[0; 164];

#[test]
fn a_row_is_read(rt: HostRuntime) -> Result<(), Fail> {
    let Some(row) = read_slot(rt.alloc(), ROW, SHORT)? else {
        return Err(Fail::new("it is no slot"));
    };
    assert_eq!(rt; row.state, SlotState::Row);
    assert_eq!(rt; (row.xn, row.next, row.row, row.tag), (1, 0, 1, 7));
    assert_eq!(rt; (row.total, row.log, row.place), (3, 0, 0));
    assert_eq!(rt; row.key.as_slice(), b"k1".as_slice());
    assert_eq!(rt; row.short.as_slice(), b"abc".as_slice());
    assert!(rt; read_slot(rt.alloc(), ROW, SHORT - 1)?.is_none());
    assert!(rt; read_slot(rt.alloc(), ROW, SHORT + 1)?.is_none());
    Ok(())
}

/// Each case is a slot with the byte at that place changed, and whether what comes of it is one.
#[test]
fn what_a_slot_is(rt: HostRuntime) -> Result<(), Fail> {
    for (bytes, place, byte, is_slot) in [
        // the state, the key's length, the gap
        (ROW, 0, 1, true),
        (ROW, 0, 3, false),
        (ROW, 0, 2, false),
        (ROW, 0, 0, false),
        (ROW, 1, 0, false),
        (ROW, 1, 1, false),
        (ROW, 1, 3, true),
        (ROW, 1, 64, true),
        (ROW, 1, 65, false),
        (ROW, 2, 1, false),
        (ROW, 3, 1, false),
        // the numbers, and where the body lies
        (ROW, 4, 255, true),
        (ROW, 12, 255, true),
        (ROW, 23, 255, true),
        (ROW, 25, 2, false),
        (ROW, 27, 2, false),
        (ROW, 27, 4, true),
        (ROW, 27, 65, false),
        (ROW, 31, 1, false),
        (ROW, 35, 1, false),
        (LONG, 27, 64, false),
        (LONG, 31, 0, false),
        (LONG, 35, 0, true),
        (LONG, 25, 1, false),
        // past the key's end and past the body's
        (ROW, 38, 1, false),
        (ROW, 99, 1, false),
        (ROW, 103, 1, false),
        (ROW, 163, 1, false),
        (DELETED, 163, 1, false),
        (FREED, 100, 1, false),
        // a deletion
        (DELETED, 0, 2, true),
        (DELETED, 23, 1, false),
        (DELETED, 27, 1, false),
        (DELETED, 31, 1, false),
        (DELETED, 35, 1, false),
        // a slot that was freed, and one that was never used
        (FREED, 0, 0, true),
        (FREED, 1, 0, false),
        (FREED, 11, 1, false),
        (FREED, 19, 1, false),
        (FREED, 27, 1, false),
        (UNUSED, 0, 0, true),
        (UNUSED, 15, 1, false),
        (UNUSED, 23, 1, false),
        (UNUSED, 0, 1, false),
    ] {
        let changed = with_byte(rt.alloc(), bytes, place, byte)?;
        let written = written_back(rt.alloc(), &changed)?;
        let wanted = is_slot.then_some(changed);
        assert_eq!(rt; written, wanted, "byte {place} is {byte}");
    }
    Ok(())
}

fn with_byte(alloc: Global, bytes: &[u8], place: usize, byte: u8) -> Result<Vec<u8>, AllocError> {
    let mut changed = Vec::from_slice(alloc, bytes)?;
    if let Some(at) = changed.get_mut(place) {
        *at = byte;
    }
    Ok(changed)
}

/// The bytes of the slot that was read from these; None where there is none.
fn written_back(alloc: Global, bytes: &[u8]) -> Result<Option<Vec<u8>>, AllocError> {
    let Some(slot) = read_slot(alloc, bytes, SHORT)? else {
        return Ok(None);
    };
    let mut out = Vec::new(alloc);
    write_slot(&slot, SHORT, &mut out)?;
    Ok(Some(out))
}
