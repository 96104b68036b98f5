use crate::logs::{LOG, RESTART, append, first_commit, put_in};
use px_log::open_log;
use px_memsite::{Keep, MemSite, Pick};
use std::alloc::Global;
use std::process::Abort;
use std::test::Fail;

/// How many bytes the log has with no change, with the Commit, and with the Put behind it.
const SIZES: [usize; 3] = [0, 34, 280];

const KEEPS: [Keep; 7] = [
    Keep::Synced,
    Keep::Written,
    Keep::Torn(1),
    Keep::Torn(33),
    Keep::Torn(34),
    Keep::Torn(245),
    Keep::Torn(246),
];

/// The last moment of `played`.
const LAST: u64 = 12;

/// A log that was opened, with two changes, each flushed. The six calls that change it have two moments each: a cut, a
/// sync, a write, a sync, a write and a sync.
fn played(rt: &impl Abort, alloc: Global) -> Result<MemSite, Fail> {
    let mut site = MemSite::new(alloc)?;
    let (mut log, _none) = open_log(alloc, &mut site, &RESTART)?;
    append(rt, &mut log, &mut site, &first_commit(alloc))?;
    log.flush(&mut site)?;
    append(rt, &mut log, &mut site, &put_in(alloc, 1)?)?;
    log.flush(&mut site)?;
    assert_eq!(rt; site.moments(), LAST);
    Ok(site)
}

/// How many changes are durable at this moment, and how many were begun by then.
fn marks_at(moment: u64) -> (usize, usize) {
    match moment {
        0..=4 => (0, 0),
        5..=7 => (0, 1),
        8 => (1, 1),
        9..=11 => (1, 2),
        _ => (2, 2),
    }
}

/// How many changes are read after a crash. The log has no more than their bytes then.
fn read_after(rt: &impl Abort, alloc: Global, moment: u64, keep: Keep) -> Result<usize, Fail> {
    let site = played(rt, alloc)?;
    assert!(rt; moment <= site.moments());
    let mut left = site.crash(Pick { moment, keep })?;
    let (_log, changes) = open_log(alloc, &mut left, &RESTART)?;
    let read = changes.as_slice().len();
    assert!(rt; read < SIZES.len());
    assert_eq!(rt; left.content(LOG).len(), SIZES[read]);
    Ok(read)
}

#[test]
fn a_crash_leaves_the_durable_changes_and_whole_ones_behind_them(
    rt: HostRuntime,
) -> Result<(), Fail> {
    for moment in 0..=LAST {
        let (durable, begun) = marks_at(moment);
        for keep in KEEPS {
            let read = read_after(&rt, rt.alloc(), moment, keep)?;
            let wanted = match keep {
                Keep::Synced => durable..=durable,
                Keep::Written => begun..=begun,
                _ => durable..=begun,
            };
            assert!(rt; wanted.contains(&read), "{read} read at {moment}");
        }
    }
    Ok(())
}

#[test]
fn a_whole_frame_behind_a_torn_one_is_cut(rt: HostRuntime) -> Result<(), Fail> {
    let alloc = rt.alloc();
    let mut site = played(&rt, alloc)?;
    let mut bytes = Vec::from_slice(alloc, site.content(LOG))?;
    assert_eq!(rt; bytes.len(), SIZES[2]);
    // the sum of the first of the two frames
    bytes[7] ^= 1;
    site.put_file(LOG, &bytes)?;
    let (log, changes) = open_log(alloc, &mut site, &RESTART)?;
    assert_eq!(rt; (log.frames(), changes.as_slice().len()), (0, 0));
    assert_eq!(rt; site.content(LOG).len(), 0);
    Ok(())
}
