// What a crash leaves.
use crate::calls::{Call, made};
use px_memsite::{Keep, MemSite, Pick};
use px_site::{FileName, Site};
use std::alloc::Global;
use std::process::Abort;
use std::test::Fail;

const ROWS: FileName = FileName::Row(1);

const LOG: FileName = FileName::Xlog(1);

/// A log with a durable write and one behind it, and a file of rows that was written and cut. The
/// numbers are those of the moments after the calls.
fn new_site(rt: &impl Abort, alloc: Global) -> Result<MemSite, Fail> {
    let calls = [
        Call::Write(LOG, 0, &[5, 6, 7]), // 2
        Call::Sync(LOG), // 4
        Call::Write(LOG, 2, &[8, 9]), // 6
        Call::Write(ROWS, 0, &[4, 9]), // 8
        Call::Cut(ROWS, 1), // 10
        Call::Tell(b"ok"), // 12
    ];
    let mut site = MemSite::new(alloc)?;
    site.put_file(ROWS, &[1, 2, 3])?;
    for call in calls {
        made(rt, &mut site, call)?;
    }
    Ok(site)
}

fn crashed(rt: &impl Abort, site: MemSite, moment: u64, keep: Keep) -> Result<MemSite, Fail> {
    assert!(rt; moment <= site.moments());
    Ok(site.crash(Pick { moment, keep })?)
}

#[test]
fn a_crash_leaves_what_is_picked(rt: HostRuntime) -> Result<(), Fail> {
    let cases: [(u64, Keep, &[u8], &[u8]); 17] = [
        (0, Keep::Synced, &[1, 2, 3], &[]),
        (0, Keep::Written, &[1, 2, 3], &[]),
        (0, Keep::Torn(9), &[1, 2, 3], &[]),
        // within the first write
        (1, Keep::Synced, &[1, 2, 3], &[]),
        (1, Keep::Torn(2), &[1, 2, 3], &[5, 6]),
        (1, Keep::Written, &[1, 2, 3], &[5, 6, 7]),
        // within the sync, and after it
        (3, Keep::Synced, &[1, 2, 3], &[]),
        (4, Keep::Synced, &[1, 2, 3], &[5, 6, 7]),
        // after the second write
        (6, Keep::Torn(0), &[1, 2, 3], &[5, 6, 7]),
        (6, Keep::Torn(1), &[1, 2, 3], &[5, 6, 8]),
        (6, Keep::Written, &[1, 2, 3], &[5, 6, 8, 9]),
        // at the end: the rows have three touched bytes, and the log two
        (12, Keep::Synced, &[1, 2, 3], &[5, 6, 7]),
        (12, Keep::Torn(1), &[4, 2, 3], &[5, 6, 7]),
        (12, Keep::Torn(3), &[4, 9, 3], &[5, 6, 7]),
        (12, Keep::Torn(4), &[4, 9, 3], &[5, 6, 8]),
        (12, Keep::Torn(u64::MAX), &[4, 9, 3], &[5, 6, 8, 9]),
        (12, Keep::Written, &[4, 9, 3], &[5, 6, 8, 9]),
    ];
    for (moment, keep, rows, log) in cases {
        let left = crashed(&rt, new_site(&rt, rt.alloc())?, moment, keep)?;
        assert_eq!(rt; left.content(ROWS), rows, "rows at {moment}");
        assert_eq!(rt; left.content(LOG), log, "log at {moment}");
        assert_eq!(rt; left.told(), [].as_slice());
        assert_eq!(rt; left.moments(), 0);
    }
    Ok(())
}

#[test]
fn the_site_reads_as_written_before_the_crash(rt: HostRuntime) -> Result<(), Fail> {
    let mut site = new_site(&rt, rt.alloc())?;
    assert_eq!(rt; site.content(ROWS), [4].as_slice());
    assert_eq!(rt; site.content(LOG), [5, 6, 8, 9].as_slice());
    assert_eq!(rt; site.told(), b"ok".as_slice());
    assert_eq!(rt; site.moments(), 12);
    let mut buf = [0; 3];
    assert_eq!(rt; site.read_at(LOG, 2, &mut buf), Ok(2));
    assert_eq!(rt; buf.as_slice(), [8, 9, 0].as_slice());
    Ok(())
}

#[test]
fn a_removed_file_comes_back(rt: HostRuntime) -> Result<(), Fail> {
    let cases: [(Keep, &[u8]); 2] = [(Keep::Synced, &[5, 6, 7]), (Keep::Written, &[5, 6, 8, 9])];
    for (keep, log) in cases {
        let mut site = new_site(&rt, rt.alloc())?;
        site.put_file(ROWS, &[7])?;
        made(&rt, &mut site, Call::Remove(LOG))?; // 14
        assert_eq!(rt; site.content(LOG), [].as_slice());
        let left = crashed(&rt, site, 14, keep)?;
        assert_eq!(rt; left.content(LOG), log);
        assert_eq!(rt; left.content(ROWS), [7].as_slice());
    }
    Ok(())
}
