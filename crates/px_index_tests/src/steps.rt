use crate::making::{VERSIONS, entries_of_all, key_entry, link, unlink};
use px_index::{Entries, Entry, Field, MemEntries};
use std::test::Fail;

/// Before all entries of this table.
fn first_of(table: u8) -> Entry {
    Entry {
        table,
        field: Field::Tag(0),
        slot: 0,
    }
}

#[test]
fn entries_come_once_and_go_once(rt: HostRuntime) -> Result<(), Fail> {
    let alloc = rt.alloc();
    let mut entries = MemEntries::new(alloc)?;
    for (linking, want) in [(true, true), (true, false), (false, true), (false, false)] {
        for version in &VERSIONS {
            let done = if linking {
                link(&mut entries, alloc, version)?
            } else {
                unlink(&mut entries, alloc, version)?
            };
            assert_eq!(rt; done, want, "{version:?}");
        }
    }
    assert!(rt; entries.next_from(&first_of(0))?.is_none());
    Ok(())
}

/// The entries of all versions in their order: the table, 1 for a key or 2 for a tag, and the slot.
const IN_ORDER: [(u8, u8, u32); 15] = [
    (1, 1, 1),
    (1, 1, 2),
    (1, 1, 7),
    (1, 1, 300),
    (1, 1, 4),
    (1, 1, 3),
    (1, 1, 4_294_967_295),
    (1, 2, 1),
    (1, 2, 3),
    (1, 2, 300),
    (1, 2, 2),
    (1, 2, 4),
    (1, 2, 4_294_967_295),
    (2, 1, 1),
    (2, 2, 1),
];

#[test]
fn entries_stand_in_order(rt: HostRuntime) -> Result<(), Fail> {
    let mut entries = entries_of_all(rt.alloc())?;
    for (table, kind, slot) in IN_ORDER {
        let Some(least) = entries.next_from(&first_of(0))? else {
            return Err(Fail::new("an entry is missing"));
        };
        assert_eq!(rt;
            (least.table, least.field.kind(), least.slot),
            (table, kind, slot)
        );
        entries.remove(&least)?;
    }
    assert!(rt; entries.next_from(&first_of(0))?.is_none());
    Ok(())
}

#[test]
fn an_entry_is_its_own_next_one(rt: HostRuntime) -> Result<(), Fail> {
    let mut entries = entries_of_all(rt.alloc())?;
    for version in &VERSIONS {
        let entry = key_entry(rt.alloc(), version)?;
        assert!(rt; entries.next_from(&entry)? == Some(entry), "{version:?}");
    }
    Ok(())
}
