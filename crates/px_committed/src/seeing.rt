//! What is committed now of one row.

ghost use Rattle.std.specs.Prelude.{◌≡◌, ℕ, IfErr, IfOk, length};
ghost use Rattle.px_answers.specs.Reading.{Stays};
ghost use Rattle.px_answers.specs.Seeing.{Sees};
ghost use Rattle.px_chain.specs.Sound.{IsUsedRow, key_of};
ghost use Rattle.px_held.specs.Errors.{HasReadCause, IsPassing};
ghost use Rattle.px_held.specs.Serving.{Serves};
ghost use Rattle.px_history.specs.Store.{Store};
ghost use Rattle.px_locks.specs.Holders.{Holders};
ghost use Rattle.px_logged.specs.Recounting.{rows_now};
ghost use Rattle.px_model.specs.Machine.{Machine};
ghost use Rattle.px_model.specs.Rows.{row_at};
ghost use Rattle.px_model_laws.specs.Keys.{row_written};
ghost use Rattle.px_shown.specs.Parts.{no_parts};
ghost use Rattle.px_shown.specs.Shown.{write_of};
ghost use Rattle.px_shown.specs.Tables.{AreSound};

use px_cells::{Slot, SlotState};
use px_held::{Held, HeldError, Reader};
use px_model::Row;
use px_site::Site;
use px_xacts::Xacts;

/// What is committed now of a used row. None where nothing is, and where the newest version of it that is committed deletes.
pub(crate) fn row_in<W: Site>(
    site: &mut W,
    held: &mut Held,
    xacts: &Xacts,
    table: u8,
    row: u32,
) -> Result<Option<Row>, HeldError>
    ensures row { W.tells → (holders : Holders) (m : Machine) (store : Store) → Sees (W.state site.old) held.old xacts.now holders m store
        → IsUsedRow (store.tables table) row → IfOk result (λ found. found ≡ row_at (table, key_of (store.tables table) row) (rows_now m)) }
    ensures stays { Stays W.tells W.state W.counts site.old site.new held.old held.new }
    ensures fault { IfErr result (HasReadCause (W.counts site.old) (W.counts site.new)) }
    ensures sound { W.tells → (short : ℕ) (store : Store) → Serves (W.state site.old) held.old store → AreSound short store.tables store.layouts
        → IsUsedRow (store.tables table) row → IfErr result IsPassing }
{
    let reader = now(xacts);
    let Some(slot) = held.seen(site, table, row, &reader)? else {
        return Ok(None);
    };
    let slot = held.slot(site, table, slot)?;
    Ok(row_of(table, slot))
}

/// Who sees all that is committed now, and nothing else: nobody, come after all that ended. No version has the number 0.
fn now(xacts: &Xacts) -> Reader<'_>
    ensures xacts { result.xacts.now ≡ xacts.now }
    ensures own { result.own ≡ 0 }
    ensures snapshot { result.snapshot ≡ length xacts.now.outcomes }
{
    Reader {
        xacts,
        own: 0,
        snapshot: xacts.count(),
    }
}

/// The row that a version wrote. None where it is a deletion.
fn row_of(table: u8, slot: Slot) -> Option<Row>
    ensures { result ≡ row_written (write_of no_parts table slot) }
{
    match slot.state {
        SlotState::Row => Some(Row {
            table,
            key: slot.key,
            tag: slot.tag,
            body: slot.short,
        }),
        SlotState::Deletion | SlotState::Free => None,
    }
}
