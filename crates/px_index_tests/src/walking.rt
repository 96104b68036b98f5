use crate::making::{VERSIONS, entries_of_all, unlink};
use px_index::MemEntries;
use px_index::walks::{next_key, next_of_key, next_of_tag};
use std::alloc::Global;
use std::test::Fail;

/// The slots that a walk over a tag of table 1 meets.
fn slots_of_tag(alloc: Global, entries: &mut MemEntries, tag: u32) -> Result<Vec<u32>, Fail> {
    let mut slots = Vec::new(alloc);
    let mut from = 0;
    for _ in 0..VERSIONS.len() {
        let Some(slot) = next_of_tag(entries, 1, tag, from)? else {
            break;
        };
        slots.push(slot)?;
        let Some(next) = slot.checked_add(1) else {
            break;
        };
        from = next;
    }
    Ok(slots)
}

/// The slots that a walk over a key of table 1 meets.
fn slots_of_key(alloc: Global, entries: &mut MemEntries, key: &[u8]) -> Result<Vec<u32>, Fail> {
    let mut slots = Vec::new(alloc);
    let mut from = 0;
    for _ in 0..VERSIONS.len() {
        let Some(slot) = next_of_key(alloc, entries, 1, key, from)? else {
            break;
        };
        slots.push(slot)?;
        let Some(next) = slot.checked_add(1) else {
            break;
        };
        from = next;
    }
    Ok(slots)
}

/// Tags of table 1, and the slots in which rows have them.
const TAGS: [(u32, &[u32]); 5] = [
    (0, &[]),
    (5, &[1, 3, 300]),
    (6, &[2, 4]),
    (7, &[]),
    (4_294_967_295, &[4_294_967_295]),
];

/// Keys of table 1, and the slots of their versions.
const KEYS: [(&[u8], &[u32]); 5] = [
    (b"\x00", &[]),
    (b"\x01", &[1, 2, 7, 300]),
    (b"\x01\x00", &[4]),
    (b"\x02", &[3]),
    (b"\xff", &[4_294_967_295]),
];

#[test]
fn a_walk_meets_the_slots_in_order(rt: HostRuntime) -> Result<(), Fail> {
    let alloc = rt.alloc();
    let mut entries = entries_of_all(alloc)?;
    for (tag, want) in TAGS {
        let slots = slots_of_tag(alloc, &mut entries, tag)?;
        assert_eq!(rt; slots.as_slice(), want, "tag {tag}");
    }
    for (key, want) in KEYS {
        let slots = slots_of_key(alloc, &mut entries, key)?;
        assert_eq!(rt; slots.as_slice(), want, "key {key:?}");
    }
    Ok(())
}

#[test]
fn a_version_that_goes_takes_no_other_slot(rt: HostRuntime) -> Result<(), Fail> {
    let alloc = rt.alloc();
    let mut entries = entries_of_all(alloc)?;
    assert!(rt; unlink(&mut entries, alloc, &VERSIONS[3])?);
    for (tag, want) in [(5, [1, 3, 300].as_slice()), (6, [4].as_slice())] {
        let slots = slots_of_tag(alloc, &mut entries, tag)?;
        assert_eq!(rt; slots.as_slice(), want, "tag {tag}");
    }
    let slots = slots_of_key(alloc, &mut entries, b"\x01")?;
    assert_eq!(rt; slots.as_slice(), [1, 7, 300].as_slice());
    Ok(())
}

/// A key, and the one past it in its table with its first slot.
const NEXT_KEYS: [(u8, Option<&[u8]>, Option<(&[u8], u32)>); 9] = [
    (1, None, Some((b"\x01", 1))),
    (1, Some(b"\x00\xff"), Some((b"\x01", 1))),
    (1, Some(b"\x01"), Some((b"\x01\x00", 4))),
    (1, Some(b"\x01\x00"), Some((b"\x02", 3))),
    (1, Some(b"\x02"), Some((b"\xff", 4_294_967_295))),
    (1, Some(b"\xff"), None),
    (2, None, Some((b"\x01", 1))),
    (2, Some(b"\x01"), None),
    (3, None, None),
];

#[test]
fn a_front_of_a_key_comes_before_it(rt: HostRuntime) -> Result<(), Fail> {
    let alloc = rt.alloc();
    let mut entries = entries_of_all(alloc)?;
    for (table, after, want) in NEXT_KEYS {
        let next = next_key(alloc, &mut entries, table, after)?;
        let next = match &next {
            Some((key, slot)) => Some((key.as_slice(), *slot)),
            None => None,
        };
        assert_eq!(rt; next, want, "table {table} after {after:?}");
    }
    Ok(())
}
