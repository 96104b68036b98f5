//! The rows of a table that a reader sees.

ghost use Rattle.std.specs.Prelude.{◌≡◌, ◌++◌, ℕ, IfErr, IfOk, OnOk, filter, option_map, option_to_list};
ghost use Rattle.px_chain.specs.Sound.{IsUsedRow, key_of};
ghost use Rattle.px_history.specs.Store.{Store};
ghost use Rattle.px_held.specs.Errors.{HasReadCause, IsPassing};
ghost use Rattle.px_held.specs.Serving.{Serves};
ghost use Rattle.px_model.specs.Machine.{view};
ghost use Rattle.px_model.specs.Rows.{row_at};
ghost use Rattle.px_model_laws.specs.Keys.{row_written};
ghost use Rattle.px_shown.specs.Parts.{no_parts};
ghost use Rattle.px_shown.specs.Shown.{write_of};
ghost use Rattle.px_shown.specs.Tables.{AreSound};
ghost use Rattle.px_answers.specs.Reading.{ForReader, ReadsOnly, Stays, has_tag, rows_wanted};

use px_cells::{Slot, SlotState};
use px_held::{Held, HeldError, Reader};
use px_model::{Bytes, Row, RowList};
use px_site::Site;
use std::alloc::{AllocError, Global};

/// The row of the key.
pub(crate) fn row_seen<W: Site>(
    site: &mut W,
    held: &mut Held,
    reader: &Reader<'_>,
    table: u8,
    key: &[u8],
) -> Result<Option<Row>, HeldError>
    ensures row { W.tells → ForReader (W.state site.old) held.old reader.now (λ store m xact.
        IfOk result (λ row. row ≡ row_at (table, key.now) (view m xact))) }
    ensures reads { ReadsOnly W.tells W.state W.counts site.old site.new held.old held.new result }
{
    match held.row_of(site, table, key)? {
        Some(row) => row_in(site, held, reader, table, row),
        None => Ok(None),
    }
}

/// What it sees of a used row.
pub(crate) fn row_in<W: Site>(
    site: &mut W,
    held: &mut Held,
    reader: &Reader<'_>,
    table: u8,
    row: u32,
) -> Result<Option<Row>, HeldError>
    ensures row { W.tells → ForReader (W.state site.old) held.old reader.now (λ store m xact. IsUsedRow (store.tables table) row
        → IfOk result (λ found. found ≡ row_at (table, key_of (store.tables table) row) (view m xact))) }
    ensures stays { Stays W.tells W.state W.counts site.old site.new held.old held.new }
    ensures fault { IfErr result (HasReadCause (W.counts site.old) (W.counts site.new)) }
    ensures sound { W.tells → (short : ℕ) (store : Store) → Serves (W.state site.old) held.old store → AreSound short store.tables store.layouts
        → IsUsedRow (store.tables table) row → IfErr result IsPassing }
{
    let Some(slot) = held.seen(site, table, row, reader)? else {
        return Ok(None);
    };
    let slot = held.slot(site, table, slot)?;
    Ok(row_of(table, slot))
}

/// The row that a version wrote. None where it is a deletion.
fn row_of(table: u8, slot: Slot) -> Option<Row>
    ensures { result ≡ row_written (write_of no_parts table slot) }
{
    match slot.state {
        SlotState::Row => Some(Row {
            table,
            key: slot.key,
            tag: slot.tag,
            body: slot.short,
        }),
        SlotState::Deletion | SlotState::Free => None,
    }
}

/// The rows of the table, in order of key, of all tags or of one. There are fewer than 2^64 keys, or there is no memory for them.
pub(crate) fn rows_seen<W: Site>(
    alloc: Global,
    site: &mut W,
    held: &mut Held,
    reader: &Reader<'_>,
    table: u8,
    tag: Option<u32>,
) -> Result<RowList, HeldError>
    ensures rows { W.tells → ForReader (W.state site.old) held.old reader.now (λ store m xact.
        IfOk result (λ rows. rows ≡ rows_wanted table tag (view m xact))) }
    ensures reads { ReadsOnly W.tells W.state W.counts site.old site.new held.old held.new result }
{
    let mut rows = RowList::new(alloc);
    let mut last = None;
    for _key in 0..u64::MAX {
        let Some((key, row)) = held.key_past(site, table, bytes_of(&last))? else {
            return Ok(rows);
        };
        let seen = row_in(site, held, reader, table, row)?;
        push_wanted(&mut rows, seen, tag)?;
        last = Some(key);
    }
    Err(HeldError::OutOfMemory)
}

fn bytes_of(key: &Option<Bytes>) -> Option<&[u8]>
    ensures { option_map (λ bytes. bytes.now) result ≡ key.now }
{
    match key {
        Some(key) => Some(key.as_slice()),
        None => None,
    }
}

/// Appends the row, if there is one, unless another tag is wanted.
fn push_wanted(rows: &mut RowList, row: Option<Row>, tag: Option<u32>) -> Result<(), AllocError>
    ensures { OnOk result (rows.new ≡ rows.old ++ filter (has_tag tag) (option_to_list row)) }
{
    let Some(row) = row else {
        return Ok(());
    };
    match tag {
        Some(tag) if row.tag != tag => Ok(()),
        _ => rows.push(row),
    }
}
