use px_dlog::{Dlogs, LOG_SIZE, LogError, PartRef};
use px_memsite::{Failure, Keep, MemSite, Pick};
use px_site::{Fault, FileName, Site};
use std::alloc::Global;
use std::process::Abort;
use std::test::Fail;

const FIRST: FileName = FileName::Dlog(1);

/// So many bytes have a part of 65,536, of which sixteen fill a log.
const PART_BYTES: usize = 65_520;

const PARTS_OF_A_LOG: usize = 16;

/// A test has fewer logs.
const MOST_LOGS: u32 = 8;

/// A part of so many bytes 7, for slot 5 of table 1.
fn append(
    alloc: Global,
    dlogs: &mut Dlogs,
    site: &mut MemSite,
    count: usize,
) -> Result<PartRef, LogError> {
    let bytes = vec![in alloc; 7; count]?;
    if bytes.is_empty() || bytes.len() > PART_BYTES {
        return Err(LogError::OutOfMemory);
    }
    dlogs.append_part(site, 1, 5, &bytes)
}

/// How many bytes of a part are read, and all are 7.
fn read(
    rt: &impl Abort,
    alloc: Global,
    dlogs: &Dlogs,
    site: &mut MemSite,
    part: &PartRef,
) -> Result<usize, LogError> {
    let mut bytes = Vec::new(alloc);
    dlogs.read_part(site, part, &mut bytes)?;
    assert!(rt; bytes.iter().all(|byte| *byte == 7));
    Ok(bytes.len())
}

#[test]
fn a_part_is_read_until_a_byte_of_it_changes(rt: HostRuntime) -> Result<(), Fail> {
    let alloc = rt.alloc();
    let mut site = MemSite::new(alloc)?;
    let mut dlogs = Dlogs::new(alloc);
    append(alloc, &mut dlogs, &mut site, 3)?;
    let part = append(alloc, &mut dlogs, &mut site, 1)?;
    assert_eq!(rt; (part.log, part.place, part.length), (1, 19, 1));
    assert_eq!(rt; read(&rt, alloc, &dlogs, &mut site, &part)?, 1);
    let mut bytes = Vec::from_slice(alloc, site.content(FIRST))?;
    // 16 bytes in front of three, and again of one
    assert_eq!(rt; bytes.len(), 36);
    bytes[35] ^= 1;
    site.put_file(FIRST, &bytes)?;
    assert_eq!(rt;
        read(&rt, alloc, &dlogs, &mut site, &part),
        Err(LogError::Damaged {
            file: FIRST,
            place: 19
        })
    );
    Ok(())
}

/// A log of just the size at which it takes no part any more, and a part in the next one.
fn filled(alloc: Global, dlogs: &mut Dlogs, site: &mut MemSite) -> Result<PartRef, LogError> {
    for _ in 0..PARTS_OF_A_LOG {
        append(alloc, dlogs, site, PART_BYTES)?;
    }
    append(alloc, dlogs, site, 1)
}

#[test]
fn a_full_log_is_synced_and_closed(rt: HostRuntime) -> Result<(), Fail> {
    let alloc = rt.alloc();
    let mut site = MemSite::new(alloc)?;
    let mut dlogs = Dlogs::new(alloc);
    let part = filled(alloc, &mut dlogs, &mut site)?;
    assert_eq!(rt; (part.log, part.place), (2, 0));
    assert_eq!(rt;
        (dlogs.full(), site.content(FIRST).len() as u64),
        (None, LOG_SIZE)
    );
    let moment = site.moments();
    let mut left = site.crash(Pick {
        moment,
        keep: Keep::Synced,
    })?;
    // the part in the second log isn't synced yet
    assert_eq!(rt; left.content(FIRST).len() as u64, LOG_SIZE);
    assert_eq!(rt; left.content(FileName::Dlog(2)).len(), 0);
    assert_eq!(rt;
        read(&rt, alloc, &dlogs, &mut left, &part),
        Err(LogError::Damaged {
            file: FileName::Dlog(2),
            place: 0
        })
    );
    Ok(())
}

#[test]
fn a_part_that_was_synced_outlives_a_crash(rt: HostRuntime) -> Result<(), Fail> {
    let alloc = rt.alloc();
    let mut site = MemSite::new(alloc)?;
    let mut dlogs = Dlogs::new(alloc);
    let part = append(alloc, &mut dlogs, &mut site, 9)?;
    dlogs.sync_current(&mut site)?;
    append(alloc, &mut dlogs, &mut site, 9)?;
    let moment = site.moments();
    let mut left = site.crash(Pick {
        moment,
        keep: Keep::Torn(4),
    })?;
    assert_eq!(rt; read(&rt, alloc, &dlogs, &mut left, &part)?, 9);
    Ok(())
}

/// Two appends and a sync behind each, until a call of the site fails.
fn until_a_failure(alloc: Global, call: u64) -> Result<LogError, Fail> {
    let mut site = MemSite::failing_partway(alloc, &[Failure { call, bytes: 5 }])?;
    let mut dlogs = Dlogs::new(alloc);
    for _ in 0..2 {
        if let Err(error) = append(alloc, &mut dlogs, &mut site, 9) {
            return Ok(error);
        }
        if let Err(error) = dlogs.sync_current(&mut site) {
            return Ok(error);
        }
    }
    Err("no call failed".into())
}

/// The logs that there are, with their bytes and whether they are closed, in order.
fn listing(alloc: Global, dlogs: &Dlogs) -> Result<Vec<(u32, u64, bool)>, Fail> {
    let mut logs = Vec::new(alloc);
    let mut last = 0;
    for _ in 0..MOST_LOGS {
        let Some(log) = dlogs.next_log(last) else {
            break;
        };
        let Some((bytes, closed)) = dlogs.extent(log) else {
            return Err("a log without bytes".into());
        };
        logs.push((log, bytes, closed))?;
        last = log;
    }
    Ok(logs)
}

#[test]
fn the_logs_of_a_store_that_was_left_are_found(rt: HostRuntime) -> Result<(), Fail> {
    let alloc = rt.alloc();
    let mut site = MemSite::new(alloc)?;
    let mut first = Dlogs::new(alloc);
    let part = filled(alloc, &mut first, &mut site)?;
    assert_eq!(rt;
        listing(alloc, &first)?.as_slice(),
        [(1, LOG_SIZE, true), (2, 17, false)].as_slice()
    );
    let mut dlogs = Dlogs::load(alloc, &mut site, 0)?;
    assert_eq!(rt; read(&rt, alloc, &dlogs, &mut site, &part)?, 1);
    let next = append(alloc, &mut dlogs, &mut site, 2)?;
    assert_eq!(rt; (next.log, next.place), (3, 0));
    assert_eq!(rt;
        listing(alloc, &dlogs)?.as_slice(),
        [(1, LOG_SIZE, true), (2, 17, true), (3, 18, false)].as_slice()
    );
    Ok(())
}

#[test]
fn a_log_begins_past_those_that_were_named(rt: HostRuntime) -> Result<(), Fail> {
    let alloc = rt.alloc();
    let table = [(0, 6), (4, 6), (5, 6), (9, 10), (u32::MAX - 1, u32::MAX)];
    for (named, number) in table {
        let mut site = MemSite::new(alloc)?;
        site.put_file(FileName::Dlog(2), b"any bytes")?;
        site.put_file(FileName::Dlog(5), b"others")?;
        let mut dlogs = Dlogs::load(alloc, &mut site, named)?;
        assert_eq!(rt;
            listing(alloc, &dlogs)?.as_slice(),
            [(2, 9, true), (5, 6, true)].as_slice()
        );
        assert_eq!(rt; append(alloc, &mut dlogs, &mut site, 1)?.log, number);
    }
    let mut site = MemSite::new(alloc)?;
    let mut dlogs = Dlogs::load(alloc, &mut site, u32::MAX)?;
    assert_eq!(rt; dlogs.full(), Some(1 << 32));
    assert_eq!(rt;
        append(alloc, &mut dlogs, &mut site, 1),
        Err(LogError::LogFull(1 << 32))
    );
    Ok(())
}

/// What is found of a log whose last part wasn't synced, and what is read of that part.
#[test]
fn a_log_that_was_left_without_a_sync_is_found_as_it_is(rt: HostRuntime) -> Result<(), Fail> {
    let alloc = rt.alloc();
    let damaged = Err(LogError::Damaged {
        file: FIRST,
        place: 19,
    });
    let table = [
        (Keep::Synced, 19, damaged),
        (Keep::Torn(4), 23, damaged),
        (Keep::Written, 44, Ok(9)),
    ];
    for (keep, bytes, answer) in table {
        let mut site = MemSite::new(alloc)?;
        let mut first = Dlogs::new(alloc);
        let synced = append(alloc, &mut first, &mut site, 3)?;
        first.sync_current(&mut site)?;
        let part = append(alloc, &mut first, &mut site, 9)?;
        let moment = site.moments();
        let mut left = site.crash(Pick { moment, keep })?;
        let dlogs = Dlogs::load(alloc, &mut left, 0)?;
        assert_eq!(rt; dlogs.extent(1), Some((bytes, true)));
        assert_eq!(rt; read(&rt, alloc, &dlogs, &mut left, &synced)?, 3);
        assert_eq!(rt; read(&rt, alloc, &dlogs, &mut left, &part), answer);
    }
    Ok(())
}

/// Removes a log where it is closed.
fn remove(dlogs: &mut Dlogs, site: &mut MemSite, log: u32) -> Result<bool, LogError> {
    if !dlogs.is_closed(log) {
        return Ok(false);
    }
    dlogs.remove(site, log)?;
    Ok(true)
}

#[test]
fn a_closed_log_is_removed(rt: HostRuntime) -> Result<(), Fail> {
    let alloc = rt.alloc();
    let mut site = MemSite::new(alloc)?;
    let mut dlogs = Dlogs::new(alloc);
    let part = filled(alloc, &mut dlogs, &mut site)?;
    assert!(rt; remove(&mut dlogs, &mut site, 1)?);
    assert_eq!(rt;
        listing(alloc, &dlogs)?.as_slice(),
        [(2, 17, false)].as_slice()
    );
    assert_eq!(rt; site.content(FIRST).len(), 0);
    assert_eq!(rt; read(&rt, alloc, &dlogs, &mut site, &part)?, 1);
    // one that isn't there, and the current one
    for log in [1, 2] {
        assert!(rt; !remove(&mut dlogs, &mut site, log)?);
    }
    Ok(())
}

/// Loads what is there and removes log 1, until a call of the site fails.
fn until_a_call_fails(alloc: Global, call: u64) -> Result<LogError, Fail> {
    let mut site = MemSite::failing_partway(alloc, &[Failure { call, bytes: 0 }])?;
    site.put_file(FIRST, b"a part")?;
    match Dlogs::load(alloc, &mut site, 0) {
        Err(error) => Ok(error),
        Ok(mut dlogs) => match remove(&mut dlogs, &mut site, 1) {
            Err(error) => Ok(error),
            Ok(_) => Err("no call failed".into()),
        },
    }
}

#[test]
fn the_fault_of_a_load_or_a_removal_is_answered(rt: HostRuntime) -> Result<(), Fail> {
    let table = [
        (0, Fault::List),
        (1, Fault::Read),
        (2, Fault::List),
        (3, Fault::Remove),
    ];
    for (call, fault) in table {
        assert_eq!(rt;
            until_a_call_fails(rt.alloc(), call)?,
            LogError::Fault(fault)
        );
    }
    Ok(())
}

#[test]
fn the_fault_of_a_call_is_answered(rt: HostRuntime) -> Result<(), Fail> {
    let table = [
        (0, Fault::Write),
        (1, Fault::Sync),
        (2, Fault::Write),
        (3, Fault::Sync),
    ];
    for (call, fault) in table {
        assert_eq!(rt; until_a_failure(rt.alloc(), call)?, LogError::Fault(fault));
    }
    Ok(())
}
