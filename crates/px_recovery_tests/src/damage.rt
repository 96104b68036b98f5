use crate::files::{EARLY, FIRST, LOG, MADE, PUT};
use crate::stores::{opened, store};
use px_frame::write_frame;
use px_memsite::MemSite;
use px_recovery::{OpenError, OpenReport};
use px_site::FileName;
use std::alloc::Global;
use std::process::Abort;
use std::test::Fail;

const REC: FileName = FileName::Rec(1);

const ROW: FileName = FileName::Row(1);

/// A byte of the Put's payload that is another one, and the file and the place that are damaged then.
const BYTES: [(usize, u8, FileName, u64); 17] = [
    // a slot has one of three states, a key, two zero bytes, and no data log where its body is short
    (50, 3, REC, 16),
    (51, 0, REC, 16),
    (52, 1, REC, 16),
    (81, 1, REC, 16),
    // a row pointer has one of two states, and three zero bytes
    (174, 2, ROW, 0),
    (177, 1, ROW, 0),
    // a second slot and a second row pointer that no frame has
    (29, 2, REC, 132),
    (37, 2, ROW, 8),
    // the free lists begin with the slot and with the row pointer that are used
    (33, 1, REC, 0),
    (41, 1, REC, 0),
    // the chain of the row is empty, begins with no slot, has a slot of another row, and comes back to its slot
    (181, 0, ROW, 0),
    (181, 2, ROW, 0),
    (69, 2, ROW, 0),
    (65, 1, ROW, 0),
    // the slot stands in no chain, where there is no row, and where the row pointer is free: that is on no list first
    (37, 0, REC, 16),
    (174, 0, ROW, 0),
    // no transaction has this number
    (61, 0, REC, 16),
];

/// The log of the Put alone, with another byte at this place of its payload.
fn log_with(rt: &impl Abort, alloc: Global, place: usize, byte: u8) -> Result<Vec<u8>, Fail> {
    let mut payload = *PUT;
    assert!(rt; place < payload.len());
    payload[place] = byte;
    let mut log = Vec::new(alloc);
    write_frame(&mut log, 0, &payload)?;
    Ok(log)
}

/// The store isn't opened, for this damage, and its files are as they were.
fn is_damaged(
    rt: &impl Abort,
    alloc: Global,
    log: &[u8],
    file: FileName,
    place: u64,
) -> Result<(), Fail> {
    let mut site = store(rt, alloc, &[], log)?;
    let refused: Result<OpenReport, OpenError> = Err(OpenError::Damaged { file, place });
    assert_eq!(rt; opened(alloc, &mut site), refused);
    assert_eq!(rt; site.content(LOG), log);
    assert_eq!(rt; site.content(FIRST), MADE.as_slice());
    Ok(())
}

#[test]
fn cells_that_no_store_has_are_damage(rt: HostRuntime) -> Result<(), Fail> {
    for (at, byte, file, place) in BYTES {
        let log = log_with(&rt, rt.alloc(), at, byte)?;
        is_damaged(&rt, rt.alloc(), &log, file, place)?;
    }
    Ok(())
}

#[test]
fn a_store_of_the_first_stages_is_damaged_at_its_first_put(rt: HostRuntime) -> Result<(), Fail> {
    is_damaged(&rt, rt.alloc(), EARLY.as_slice(), LOG, 0)
}
