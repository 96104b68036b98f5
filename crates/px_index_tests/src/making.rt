//! Versions whose entries are added and taken out.
use px_index::{Entries, EntriesError, Entry, Field, MemEntries};
use px_model::Bytes;
use std::alloc::{AllocError, Global};

/// A version: its table, its key, its tag where it is a row, and its slot.
pub(crate) type Version = (u8, &'static [u8], Option<u32>, u32);

/// They come in this order.
pub(crate) const VERSIONS: [Version; 8] = [
    (1, b"\x01\x00", Some(6), 4),
    (1, b"\x01", Some(5), 1),
    (1, b"\x02", Some(5), 3),
    (1, b"\x01", Some(6), 2),
    (1, b"\x01", None, 7),
    (2, b"\x01", Some(5), 1),
    (1, b"\xff", Some(4_294_967_295), 4_294_967_295),
    (1, b"\x01", Some(5), 300),
];

pub(crate) fn key_entry(alloc: Global, version: &Version) -> Result<Entry, AllocError> {
    let (table, key, _, slot) = *version;
    Ok(Entry {
        table,
        field: Field::Key(Bytes::from_slice(alloc, key)?),
        slot,
    })
}

fn tag_entry(version: &Version) -> Option<Entry> {
    let (table, _, tag, slot) = *version;
    let tag = tag?;
    Some(Entry {
        table,
        field: Field::Tag(tag),
        slot,
    })
}

/// Adds the version's entries; whether all of them are new.
pub(crate) fn link(
    entries: &mut MemEntries,
    alloc: Global,
    version: &Version,
) -> Result<bool, EntriesError> {
    let by_key = entries.add(key_entry(alloc, version)?)?;
    match tag_entry(version) {
        Some(entry) => Ok(entries.add(entry)? && by_key),
        None => Ok(by_key),
    }
}

/// Takes the version's entries out; whether all of them were there.
pub(crate) fn unlink(
    entries: &mut MemEntries,
    alloc: Global,
    version: &Version,
) -> Result<bool, EntriesError> {
    let by_key = entries.remove(&key_entry(alloc, version)?)?;
    match tag_entry(version) {
        Some(entry) => Ok(entries.remove(&entry)? && by_key),
        None => Ok(by_key),
    }
}

/// The entries of all the versions.
pub(crate) fn entries_of_all(alloc: Global) -> Result<MemEntries, EntriesError> {
    let mut entries = MemEntries::new(alloc)?;
    for version in &VERSIONS {
        link(&mut entries, alloc, version)?;
    }
    Ok(entries)
}
