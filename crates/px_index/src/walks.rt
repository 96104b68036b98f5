//! What is found by one call in entries, whoever keeps them: the next slot of a key or of a tag, and the next key.
ghost use Rattle.std.specs.Prelude.{◌≡◌, List, IfOk, IfErr, option_map};
ghost use Rattle.px_site.specs.Cause.{NoneFell};
ghost use Rattle.px_index.specs.Errors.{HasReadCause, IsPassing};
ghost use Rattle.px_index.specs.Walks.{IsNextKey, IsNextSlot, key_there, least_past, slot_there};
ghost use Rattle.px_index.specs.declared.entry.Entry.{Entry};
ghost use Rattle.px_index.specs.declared.field.Field.TheVariants.{Key, Tag};

use crate::{Entries, EntriesError, Entry, Field};
use px_model::Bytes;
use std::alloc::{AllocError, Global};

/// The least slot, from this one on, at which the table has an entry of the key. None exactly where there is none.
pub fn next_of_key<E: Entries>(
    alloc: Global,
    entries: &mut E,
    table: u8,
    key: &[u8],
    from: u32,
) -> Result<Option<u32>, EntriesError>
    ensures next { (listed : List Entry) → E.lists entries.old listed → IfOk result (IsNextSlot listed table (Key key.now) from) }
    ensures same { (listed : List Entry) → E.lists entries.old listed → E.lists entries.new listed }
    ensures sound { (listed : List Entry) → E.lists entries.old listed → IfErr result IsPassing }
    ensures fault { IfErr result (HasReadCause (E.counts entries.old) (E.counts entries.new)) }
    ensures none_fell { NoneFell (E.counts entries.old) (E.counts entries.new) }
{
    let key = Bytes::from_slice(alloc, key)?;
    let from = Entry {
        table,
        field: Field::Key(key),
        slot: from,
    };
    next_slot(entries, &from)
}

/// The least slot, from this one on, at which the table has an entry of the tag. None exactly where there is none.
pub fn next_of_tag<E: Entries>(
    entries: &mut E,
    table: u8,
    tag: u32,
    from: u32,
) -> Result<Option<u32>, EntriesError>
    ensures next { (listed : List Entry) → E.lists entries.old listed → IfOk result (IsNextSlot listed table (Tag tag) from) }
    ensures same { (listed : List Entry) → E.lists entries.old listed → E.lists entries.new listed }
    ensures sound { (listed : List Entry) → E.lists entries.old listed → IfErr result IsPassing }
    ensures fault { IfErr result (HasReadCause (E.counts entries.old) (E.counts entries.new)) }
    ensures none_fell { NoneFell (E.counts entries.old) (E.counts entries.new) }
{
    let from = Entry {
        table,
        field: Field::Tag(tag),
        slot: from,
    };
    next_slot(entries, &from)
}

/// The least slot, from the entry's on, with an entry of its field.
fn next_slot<E: Entries>(entries: &mut E, from: &Entry) -> Result<Option<u32>, EntriesError>
    ensures next { (listed : List Entry) → E.lists entries.old listed → IfOk result (IsNextSlot listed from.now.table from.now.field from.now.slot) }
    ensures same { (listed : List Entry) → E.lists entries.old listed → E.lists entries.new listed }
    ensures sound { (listed : List Entry) → E.lists entries.old listed → IfErr result IsPassing }
    ensures fault { IfErr result (HasReadCause (E.counts entries.old) (E.counts entries.new)) }
    ensures none_fell { NoneFell (E.counts entries.old) (E.counts entries.new) }
{
    match entries.next_from(from)? {
        Some(next) => Ok(slot_there(&next, from)),
        None => Ok(None),
    }
}

/// The entry's slot, where it stands under the same field of the same table as the other.
fn slot_there(entry: &Entry, other: &Entry) -> Option<u32>
    ensures { result ≡ slot_there entry.now other.now }
{
    if entry.is_beside(other) {
        Some(entry.slot)
    } else {
        None
    }
}

/// The least key of the table past another one that has an entry, and the least slot of its entries; the least of all after None.
/// None exactly where there is none.
pub fn next_key<E: Entries>(
    alloc: Global,
    entries: &mut E,
    table: u8,
    after: Option<&[u8]>,
) -> Result<Option<(Bytes, u32)>, EntriesError>
    ensures next { (listed : List Entry) → E.lists entries.old listed → IfOk result (IsNextKey listed table (option_map (λ key. key.now) after.entry)) }
    ensures same { (listed : List Entry) → E.lists entries.old listed → E.lists entries.new listed }
    ensures sound { (listed : List Entry) → E.lists entries.old listed → IfErr result IsPassing }
    ensures fault { IfErr result (HasReadCause (E.counts entries.old) (E.counts entries.new)) }
    ensures none_fell { NoneFell (E.counts entries.old) (E.counts entries.new) }
{
    let from = Entry {
        table,
        field: Field::Key(least_past(alloc, after)?),
        slot: 0,
    };
    match entries.next_from(&from)? {
        Some(next) => Ok(key_there(next, table)),
        None => Ok(None),
    }
}

/// The key and the slot of an entry by key in this table.
fn key_there(entry: Entry, table: u8) -> Option<(Bytes, u32)>
    ensures { result ≡ key_there entry table }
{
    if entry.table != table {
        return None;
    }
    let slot = entry.slot;
    match entry.field {
        Field::Key(key) => Some((key, slot)),
        Field::Tag(_) => None,
    }
}

/// The least bytes past these; the least of all after None.
fn least_past(alloc: Global, after: Option<&[u8]>) -> Result<Bytes, AllocError>
    ensures { IfOk result (λ least. least ≡ least_past (option_map (λ key. key.now) after.entry)) }
{
    let mut least = Vec::new(alloc);
    if let Some(key) = after {
        least.extend_from_slice(key)?;
        least.push(0)?;
    }
    Ok(Bytes::from_vec(least))
}
