ghost use Rattle.std.specs.Prelude.{◌≡◌};

use crate::logs::{LOG, RESTART, append, put_in, rollback_of};
use px_change::{Change, ChangeKind};
use px_log::{LogError, Xlog, open_log};
use px_memsite::{Failure, Keep, MemSite, Pick};
use px_site::Fault;
use std::alloc::Global;
use std::process::Abort;
use std::test::Fail;

/// Which call of the site fails and how many of its bytes go through; the fault that the log answers, how many changes
/// are durable then, and how many are read if the site goes on without a crash.
type Row = (u64, u64, Fault, usize, usize);

/// How many bytes the log has with none of the changes, with the first of them, and so on.
const SIZES: [usize; 5] = [0, 246, 280, 314, 348];

const KEEPS: [Keep; 5] = [
    Keep::Synced,
    Keep::Written,
    Keep::Torn(1),
    Keep::Torn(7),
    Keep::Torn(20),
];

/// A new log, opened by the calls 0 to 2 of the site, until the call that fails.
fn given_up(rt: &impl Abort, alloc: Global, row: Row) -> Result<MemSite, Fail> {
    let (call, bytes, fault, durable, _read) = row;
    let mut site = MemSite::failing_partway(alloc, &[Failure { call, bytes }])?;
    let (mut log, _changes) = open_log(alloc, &mut site, &RESTART)?;
    assert_eq!(rt;
        append_all(rt, alloc, &mut log, &mut site),
        Err(LogError::Fault(fault))
    );
    assert_eq!(rt; log.durable(), durable as u64);
    Ok(site)
}

/// The calls 3 to 8 of the site, with two moments each, from 5 on: a write, a sync, two writes, a sync and a write.
fn append_all(
    rt: &impl Abort,
    alloc: Global,
    log: &mut Xlog,
    site: &mut MemSite,
) -> Result<(), LogError>
    requires tables { log.old.tables ≡ 1 }
    requires short { log.old.short ≡ 64 }
{
    append(rt, log, site, &put_in(alloc, 1)?)?;
    log.flush(site)?;
    append(rt, log, site, &rollback_of(alloc, 1))?;
    append(rt, log, site, &rollback_of(alloc, 2))?;
    log.flush(site)?;
    append(rt, log, site, &rollback_of(alloc, 3))?;
    Ok(())
}

/// How many changes were begun by this moment, and how many are durable if no sync failed.
fn marks_at(moment: u64) -> (usize, usize) {
    match moment {
        0..=4 => (0, 0),
        5..=7 => (1, 0),
        8 => (1, 1),
        9..=10 => (2, 1),
        11..=13 => (3, 1),
        14 => (3, 3),
        _ => (4, 3),
    }
}

/// Opens the log again, and answers how many changes are read. They are the first of those that were appended.
fn reopened(rt: &impl Abort, alloc: Global, site: MemSite) -> Result<usize, Fail> {
    let mut site = site;
    let (_log, changes) = open_log(alloc, &mut site, &RESTART)?;
    let changes = changes.as_slice();
    for (at, change) in changes.iter().enumerate() {
        assert!(rt; is_appended(at, change));
    }
    assert!(rt; changes.len() < SIZES.len());
    assert_eq!(rt; site.content(LOG).len(), SIZES[changes.len()]);
    Ok(changes.len())
}

fn is_appended(at: usize, change: &Change) -> bool {
    match (at, change.kind, change.xn) {
        (0, ChangeKind::Put, 2) => true,
        (1, ChangeKind::Rollback, 1) => true,
        (2, ChangeKind::Rollback, 2) => true,
        (3, ChangeKind::Rollback, 3) => true,
        _ => false,
    }
}

fn stopped_at_each_moment(rt: &impl Abort, alloc: Global, row: Row) -> Result<(), Fail> {
    let site = given_up(rt, alloc, row)?;
    for moment in 0..=site.moments() {
        stopped_at(rt, alloc, row, moment)?;
    }
    assert_eq!(rt; reopened(rt, alloc, site)?, row.4);
    Ok(())
}

fn stopped_at(rt: &impl Abort, alloc: Global, row: Row, moment: u64) -> Result<(), Fail> {
    let (begun, durable) = marks_at(moment);
    let least = durable.min(row.3);
    for keep in KEEPS {
        let site = given_up(rt, alloc, row)?;
        assert!(rt; moment <= site.moments());
        let read = reopened(rt, alloc, site.crash(Pick { moment, keep })?)?;
        assert!(rt;
            least <= read && read <= begun,
            "{read} read at {moment} of {row:?}"
        );
    }
    Ok(())
}

#[test]
fn a_log_that_is_given_up_is_read_as_a_front(rt: HostRuntime) -> Result<(), Fail> {
    let table: [Row; 12] = [
        // the first append, of a frame of 246 bytes
        (3, 0, Fault::Write, 0, 0),
        (3, 7, Fault::Write, 0, 0),
        (3, 246, Fault::Write, 0, 1),
        // the first flush
        (4, 0, Fault::Sync, 0, 1),
        // the two appends behind it, of frames of 34 bytes
        (5, 0, Fault::Write, 1, 1),
        (5, 20, Fault::Write, 1, 1),
        (5, 34, Fault::Write, 1, 2),
        (6, 33, Fault::Write, 1, 2),
        (6, 34, Fault::Write, 1, 3),
        // the second flush
        (7, 0, Fault::Sync, 1, 3),
        // one more append
        (8, 20, Fault::Write, 3, 3),
        (8, 34, Fault::Write, 3, 4),
    ];
    for row in table {
        stopped_at_each_moment(&rt, rt.alloc(), row)?;
    }
    Ok(())
}
