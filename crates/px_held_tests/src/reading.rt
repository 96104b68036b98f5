use crate::making::{BASE, held, xacts};
use px_held::{Held, Reader};
use px_memsite::MemSite;
use px_xacts::Xacts;
use std::process::Abort;
use std::test::Fail;

/// The key `a` was written before the opening, by the transaction that committed since, and by one that is open; `c` before the
/// opening; `b` by the one that is open.
const VERSIONS: [(u8, u32); 5] = [(b'a', 3), (b'c', 4), (b'a', 11), (b'a', 12), (b'b', 12)];

/// Which tag a reader with this number and this snapshot sees of `a`: 3 before the commit, 11 behind it, and its own write.
const SEEN: [(u64, u64, u32); 3] = [(13, 0, 3), (13, 1, 11), (BASE + 2, 0, 12)];

#[test]
fn keys_come_in_their_order(rt: HostRuntime) -> Result<(), Fail> {
    let mut site = MemSite::new(rt.alloc())?;
    let mut held = held(rt.alloc(), &VERSIONS)?;
    for (after, key, row) in [
        (None, b'a', 1),
        (Some(b'a'), b'b', 3),
        (Some(b'b'), b'c', 2),
    ] {
        let last = [after.unwrap_or(0)];
        let after = after.map(|_| last.as_slice());
        let (found, its_row) = held.key_past(&mut site, 1, after)?.ok_or("no key")?;
        assert_eq!(rt; (found.as_slice(), its_row), ([key].as_slice(), row));
    }
    Ok(())
}

#[test]
fn each_reader_sees_its_version(rt: HostRuntime) -> Result<(), Fail> {
    let all = xacts(rt.alloc())?;
    let mut held = held(rt.alloc(), &VERSIONS)?;
    for (own, snapshot, tag) in SEEN {
        assert_eq!(rt; tag_seen(&rt, &mut held, &all, own, snapshot)?, tag);
    }
    Ok(())
}

/// The tag of the version of the first row that the reader sees.
fn tag_seen(
    rt: &HostRuntime,
    held: &mut Held,
    all: &Xacts,
    own: u64,
    snapshot: u64,
) -> Result<u32, Fail> {
    let mut site = MemSite::new(rt.alloc())?;
    let reader = Reader {
        xacts: all,
        own,
        snapshot,
    };
    let slot = held.seen(&mut site, 1, 1, &reader)?.ok_or("it sees none")?;
    Ok(held.slot(&mut site, 1, slot)?.tag)
}

#[test]
fn the_newest_commit_is_the_one_since_the_opening(rt: HostRuntime) -> Result<(), Fail> {
    let all = xacts(rt.alloc())?;
    let mut site = MemSite::new(rt.alloc())?;
    let mut held = held(rt.alloc(), &VERSIONS)?;
    let newest = held.newest_committed(&mut site, 1, 1, &all)?;
    assert_eq!(rt; newest.map(|view| (view.slot, view.xn)), Some((3, 11)));
    assert_eq!(rt; held.row_of(&mut site, 1, b"d")?, None);
    Ok(())
}
