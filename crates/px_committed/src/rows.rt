//! The rows that are committed now, one after the other.

ghost use Rattle.std.specs.Prelude.{◌≡◌, IfOk, length, option_map};
ghost use Rattle.std.specs.Option.{option_copied};
ghost use Rattle.px_answers.specs.Reading.{ReadsOnly};
ghost use Rattle.px_answers.specs.Seeing.{Sees};
ghost use Rattle.px_committed.specs.Rows.{first_past};
ghost use Rattle.px_committed.specs.Walking.{IsFirstIn, first_table, key_in, last_passed};
ghost use Rattle.px_history.specs.Store.{Store};
ghost use Rattle.px_locks.specs.Holders.{Holders};
ghost use Rattle.px_logged.specs.Recounting.{rows_now};
ghost use Rattle.px_model.specs.Machine.{Machine};

use crate::seeing::row_in;
use px_held::{Held, HeldError};
use px_model::{Bytes, KeyOf, Row};
use px_site::Site;
use px_xacts::Xacts;

/// The first row past a key, in order of table and key, among those that are committed now; the first of all after None. None
/// exactly where there is none. `tables` says how many tables the store has. It takes the time of the keys that are passed over.
/// Fails for want of memory, or where a read of the site fails.
pub fn next_row<W: Site>(
    site: &mut W,
    held: &mut Held,
    xacts: &Xacts,
    tables: u8,
    after: Option<&KeyOf>,
) -> Result<Option<Row>, HeldError>
    ensures row { W.tells → tables ≡ length held.old.tables → (holders : Holders) (m : Machine) (store : Store)
        → Sees (W.state site.old) held.old xacts.now holders m store → IfOk result (λ row. row ≡ first_past (option_copied after.entry) (rows_now m)) }
    ensures reads { ReadsOnly W.tells W.state W.counts site.old site.new held.old held.new result }
{
    for table in first_table(after)..=tables {
        if let Some(row) = row_past(site, held, xacts, table, key_in(after, table))? {
            return Ok(Some(row));
        }
    }
    Ok(None)
}

/// The first row of the table past a key; the first of all after None. There are fewer than 2^64 keys.
fn row_past<W: Site>(
    site: &mut W,
    held: &mut Held,
    xacts: &Xacts,
    table: u8,
    after: Option<&[u8]>,
) -> Result<Option<Row>, HeldError>
    ensures row { W.tells → (holders : Holders) (m : Machine) (store : Store) → Sees (W.state site.old) held.old xacts.now holders m store
        → IfOk result (IsFirstIn (rows_now m) table (option_map (λ key. key.now) after.entry)) }
    ensures reads { ReadsOnly W.tells W.state W.counts site.old site.new held.old held.new result }
{
    let mut passed = None;
    for _key in 0..u64::MAX {
        let Some((key, row)) = held.key_past(site, table, last_passed(after, &passed))? else {
            return Ok(None);
        };
        if let Some(row) = row_in(site, held, xacts, table, row)? {
            return Ok(Some(row));
        }
        passed = Some(key);
    }
    Err(HeldError::OutOfMemory)
}

fn first_table(after: Option<&KeyOf>) -> u8
    ensures { result ≡ first_table (option_copied after.entry) }
{
    match after {
        Some(after) => after.table,
        None => 1,
    }
}

fn key_in(after: Option<&KeyOf>, table: u8) -> Option<&[u8]>
    ensures { option_map (λ key. key.now) result ≡ key_in (option_copied after.entry) table }
{
    match after {
        Some(after) if after.table == table => Some(after.key.as_slice()),
        _ => None,
    }
}

fn last_passed<'a>(after: Option<&'a [u8]>, passed: &'a Option<Bytes>) -> Option<&'a [u8]>
    ensures { option_map (λ key. key.now) result ≡ last_passed (option_map (λ key. key.now) after.entry) passed.now }
{
    match passed {
        Some(key) => Some(key.as_slice()),
        None => after,
    }
}
