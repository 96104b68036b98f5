use crate::making::{ShortTable, Version, done};
use px_tidy::{next_row, versions_to_tidy};
use std::test::Fail;

/// The versions of a key, the oldest first, and the places of those that go.
struct Case {
    versions: &'static [Version],
    places: &'static [usize],
}

const CASES: [Case; 11] = [
    Case {
        versions: &[Version::Put(9)],
        places: &[],
    },
    Case {
        versions: &[Version::Put(10)],
        places: &[0],
    },
    Case {
        versions: &[Version::Delete(20)],
        places: &[0],
    },
    Case {
        versions: &[Version::Put(3), Version::Put(20)],
        places: &[1],
    },
    Case {
        versions: &[Version::Put(3), Version::Put(21)],
        places: &[0],
    },
    Case {
        versions: &[Version::Put(3), Version::Delete(29)],
        places: &[0],
    },
    Case {
        versions: &[Version::Put(11), Version::Put(12)],
        places: &[1, 0],
    },
    Case {
        versions: &[Version::Put(3), Version::Put(20), Version::Delete(30)],
        places: &[2, 1, 0],
    },
    Case {
        versions: &[Version::Put(3), Version::Delete(20), Version::Put(31)],
        places: &[2, 1, 0],
    },
    Case {
        versions: &[Version::Put(3), Version::Put(20), Version::Delete(15)],
        places: &[2, 0],
    },
    Case {
        versions: &[
            Version::Put(3),
            Version::Delete(9),
            Version::Put(30),
            Version::Put(40),
            Version::Delete(40),
        ],
        places: &[4, 3, 1, 0],
    },
];

#[test]
fn all_go_but_the_newest_row_that_is_done(rt: HostRuntime) -> Result<(), Fail> {
    let alloc = rt.alloc();
    let done = done(alloc)?;
    for case in &CASES {
        let mut short = ShortTable::new(alloc)?;
        for version in case.versions {
            short.link(alloc, b'k', *version)?;
        }
        let row = next_row(&short.table, 0).ok_or("there is no row")?;
        let slots = short.table.slots_of(row)?;
        let mut places = case.places.iter();
        for version in &versions_to_tidy(alloc, &short.table, row, &done)? {
            let place = *places.next().ok_or("one version too many goes")?;
            assert_eq!(rt; slots.as_slice().get(place), Some(&version.slot));
            assert_eq!(rt; version.newer, slot_before(slots.as_slice(), place));
        }
        assert!(rt; places.next().is_none());
    }
    Ok(())
}

/// The slot in front of a place of a chain, 0 where none is.
fn slot_before(slots: &[u32], place: usize) -> u32 {
    match place.checked_sub(1) {
        Some(before) => slots.get(before).copied().unwrap_or(0),
        None => 0,
    }
}
