use crate::files::{FIRST, FRAMES, LOG, SAVED, SECOND, SECOND_FRAME, TIDY};
use crate::scripts::{Part, look_into, played};
use crate::stores::{found, opened, store};
use px_memsite::MemSite;
use px_recovery::{OpenError, make};
use px_site::Fault;
use std::process::Abort;
use std::test::Fail;

#[test]
fn a_store_that_was_made_is_opened(rt: HostRuntime) -> Result<(), Fail> {
    let mut site = MemSite::new(rt.alloc())?;
    assert_eq!(rt; opened(rt.alloc(), &mut site), Err(OpenError::NoStore));
    make(&mut site, 1, 16)?;
    assert_eq!(rt; opened(rt.alloc(), &mut site), found(0, 0, 0));
    Ok(())
}

/// The first bytes of the log.
fn front(rt: &impl Abort, size: usize) -> &'static [u8] {
    assert!(rt; size <= FRAMES.len());
    &FRAMES[..size]
}

/// Its frames that are whole there, and the one behind them that an opening appends.
fn left_of(size: usize) -> (&'static [u8], &'static [u8]) {
    if size < SECOND_FRAME {
        (&[], &[])
    } else if size < FRAMES.len() {
        (&FRAMES[..SECOND_FRAME], TIDY.as_slice())
    } else {
        (FRAMES.as_slice(), &[])
    }
}

/// Fronts of the log: so many bytes of it, the commits and the rows of the frames that are whole there, how many they are, and
/// how many the next opening finds.
const FRONTS: [(usize, u64, u64, u64, u64); 6] = [
    (0, 0, 0, 0, 0),
    (197, 0, 0, 0, 0),
    (198, 0, 0, 1, 2),
    (199, 0, 0, 1, 2),
    (231, 0, 0, 1, 2),
    (232, 1, 1, 2, 2),
];

#[test]
fn a_front_of_a_log_is_opened(rt: HostRuntime) -> Result<(), Fail> {
    for (size, commits, rows, redone, again) in FRONTS {
        let mut site = store(&rt, rt.alloc(), &[], front(&rt, size))?;
        assert_eq!(rt;
            opened(rt.alloc(), &mut site),
            found(commits, rows, redone),
            "{size} bytes"
        );
        let (whole, appended) = left_of(size);
        let mut log = Vec::from_slice(rt.alloc(), whole)?;
        log.extend_from_slice(appended)?;
        assert_eq!(rt; site.content(LOG), log.as_slice());
        assert_eq!(rt; opened(rt.alloc(), &mut site), found(commits, rows, again));
    }
    Ok(())
}

/// What the frames say, as a session's calls.
const INSERTED: Part = Part {
    lines: "a begin\na insert 1 6b31 7 616263\na commit",
    rows: "found 1 | at 6b31 7 616263",
};

#[test]
fn a_log_has_the_frames_of_its_calls(rt: HostRuntime) -> Result<(), Fail> {
    let site = played(rt.alloc(), &[INSERTED], "")?;
    assert_eq!(rt; site.content(LOG), FRAMES.as_slice());
    Ok(())
}

#[test]
fn an_insert_without_a_commit_is_tidied_once(rt: HostRuntime) -> Result<(), Fail> {
    let left = played(rt.alloc(), &[], "a begin\na insert 1 01 0 aa")?;
    let first = look_into(rt.alloc(), left)?;
    assert_eq!(rt; Ok(first.report), found(0, 0, 1));
    let second = look_into(rt.alloc(), first.site)?;
    assert_eq!(rt; Ok(second.report), found(0, 0, 2));
    let third = look_into(rt.alloc(), second.site)?;
    assert_eq!(rt; Ok(third.report), found(0, 0, 2));
    Ok(())
}

#[test]
fn the_newer_restart_counts(rt: HostRuntime) -> Result<(), Fail> {
    // frames below `redo` aren't counted, and the log has to reach `durable`
    let short = OpenError::Damaged {
        file: LOG,
        place: 198,
    };
    for (size, report) in [(198, Err(short)), (231, Err(short)), (232, found(1, 1, 1))] {
        let log = front(&rt, size);
        let mut site = store(&rt, rt.alloc(), &[], log)?;
        site.put_file(SECOND, SAVED.as_slice())?;
        assert_eq!(rt; opened(rt.alloc(), &mut site), report);
    }
    Ok(())
}

/// The calls of an opening that change something or may fail, and what the next one then finds redone.
const CALLS: [(u64, Fault, u64); 9] = [
    (0, Fault::Read, 1),
    (1, Fault::Read, 1),
    (2, Fault::Sync, 1),
    (3, Fault::Sync, 1),
    (4, Fault::Read, 1),
    (5, Fault::Write, 1),
    (6, Fault::Sync, 1),
    (7, Fault::Write, 1),
    (8, Fault::Sync, 2),
];

#[test]
fn each_call_of_an_opening_may_fail(rt: HostRuntime) -> Result<(), Fail> {
    for (call, fault, redone) in CALLS {
        let mut site = store(&rt, rt.alloc(), &[call], front(&rt, 231))?;
        let refused = opened(rt.alloc(), &mut site);
        assert_eq!(rt; refused, Err(OpenError::Fault(fault)), "call {call}");
        assert_eq!(rt;
            opened(rt.alloc(), &mut site),
            found(0, 0, redone),
            "call {call}"
        );
    }
    Ok(())
}
