use crate::logs::{LOG, RESTART, put_in};
use px_change::{Payload, is_in_grammar};
use px_frame::write_frame;
use px_log::{LogOpenError, open_log};
use px_memsite::MemSite;
use px_restart::Restart;
use std::alloc::Global;
use std::process::Abort;
use std::test::Fail;

/// The commit of transaction 1 as the first one.
const COMMIT: &[u8; 18] = b"\x02\0\0\0\0\0\0\0\x01\0\0\0\0\0\0\0\x01\0";

/// The commit of transaction 2 as the third one.
const THIRD: &[u8; 18] = b"\x02\0\0\0\0\0\0\0\x02\0\0\0\0\0\0\0\x03\0";

/// A payload of the early format: a row of transaction 1 in table 1, with the key 1, the tag 5 and a body of one byte.
const ROW: &[u8; 28] =
    b"\x01\0\0\0\0\0\0\0\x01\0\0\0\0\0\0\0\0\x01\x01\x01\0\0\0\x05\0\x01\x01\xaa";

/// The bytes of a Put in that table.
fn put_bytes(rt: &impl Abort, alloc: Global, table: u8) -> Result<Vec<u8>, Fail> {
    let put = put_in(alloc, table)?;
    assert!(rt; is_in_grammar(&put, RESTART.short));
    let mut bytes = Vec::new(alloc);
    put.encode(RESTART.short, &mut bytes)?;
    Ok(bytes)
}

/// What opening a log answers that has frames of the Commit and of this payload.
fn opened(
    rt: &impl Abort,
    alloc: Global,
    payload: &[u8],
    restart: &Restart,
) -> Result<Option<LogOpenError>, Fail> {
    assert!(rt; 18 <= payload.len() && payload.len() <= 1_000);
    let mut bytes = Vec::new(alloc);
    write_frame(&mut bytes, 0, COMMIT)?;
    write_frame(&mut bytes, 1, payload)?;
    assert!(rt; bytes.len() < 10_000);
    let mut site = MemSite::new(alloc)?;
    site.put_file(LOG, &bytes)?;
    match open_log(alloc, &mut site, restart) {
        Ok(_opened) => Ok(None),
        Err(error) => Ok(Some(error)),
    }
}

fn damaged_at(place: u64) -> Option<LogOpenError> {
    Some(LogOpenError::Damaged { file: LOG, place })
}

#[test]
fn a_frame_that_the_store_cannot_have_is_damage(rt: HostRuntime) -> Result<(), Fail> {
    let alloc = rt.alloc();
    assert_eq!(rt; opened(&rt, alloc, ROW, &RESTART)?, damaged_at(34));
    assert_eq!(rt; opened(&rt, alloc, THIRD, &RESTART)?, damaged_at(34));
    let other_table = put_bytes(&rt, alloc, 2)?;
    assert_eq!(rt; opened(&rt, alloc, &other_table, &RESTART)?, damaged_at(34));
    let other_short = Restart {
        short: 65,
        ..RESTART
    };
    let put = put_bytes(&rt, alloc, 1)?;
    assert_eq!(rt; opened(&rt, alloc, &put, &RESTART)?, None);
    assert_eq!(rt; opened(&rt, alloc, &put, &other_short)?, damaged_at(34));
    Ok(())
}

#[test]
fn a_log_that_ends_below_its_durable_frames_is_damage(rt: HostRuntime) -> Result<(), Fail> {
    let put = put_bytes(&rt, rt.alloc(), 1)?;
    for (durable, wanted) in [(2, None), (3, damaged_at(280))] {
        let restart = Restart { durable, ..RESTART };
        assert_eq!(rt; opened(&rt, rt.alloc(), &put, &restart)?, wanted);
    }
    Ok(())
}
