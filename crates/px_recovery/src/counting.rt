// How many rows a store has that was just opened.
ghost use Rattle.std.specs.Prelude.{◌≡◌, ℕ, IfErr, IfOk, List, length, option_map};
ghost use Rattle.px_answers.specs.Reading.{Stays};
ghost use Rattle.px_calls.specs.Steps.{rows_of_table};
ghost use Rattle.px_held.specs.Errors.{HasReadCause, IsPassing};
ghost use Rattle.px_held.specs.Serving.{Serves};
ghost use Rattle.px_history.specs.Store.{Store};
ghost use Rattle.px_model.specs.declared.row.Row.{Row};
ghost use Rattle.px_recovery.specs.Counting.{HasRows};

use px_held::{Held, HeldError};
use px_model::Bytes;
use px_site::Site;

/// How many rows the tables have, from 1 to the last, where each used row pointer is that of a row. There are fewer than 2^64, or there is
/// no memory for them.
pub(crate) fn count_rows<W: Site>(
    site: &mut W,
    held: &mut Held,
    tables: u8,
) -> Result<u64, HeldError>
    ensures count { W.tells → (store : Store) (rows : List Row) → Serves (W.state site.old) held.old store → HasRows store rows
        → tables ≡ length held.old.tables → IfOk result (λ count. count ≡ length rows) }
    ensures stays { Stays W.tells W.state W.counts site.old site.new held.old held.new }
    ensures sound { W.tells → (store : Store) → Serves (W.state site.old) held.old store → IfErr result IsPassing }
    ensures fault { IfErr result (HasReadCause (W.counts site.old) (W.counts site.new)) }
{
    let mut count = 0u64;
    for before in 0..tables {
        let more = count_keys(site, held, before + 1)?;
        count = match count.checked_add(more) {
            Some(sum) => sum,
            None => return Err(HeldError::OutOfMemory),
        };
    }
    Ok(count)
}

/// How many keys the table has.
fn count_keys<W: Site>(site: &mut W, held: &mut Held, table: u8) -> Result<u64, HeldError>
    ensures count { W.tells → (store : Store) (rows : List Row) → Serves (W.state site.old) held.old store → HasRows store rows
        → IfOk result (λ count. count ≡ length (rows_of_table table rows)) }
    ensures stays { Stays W.tells W.state W.counts site.old site.new held.old held.new }
    ensures sound { W.tells → (store : Store) → Serves (W.state site.old) held.old store → IfErr result IsPassing }
    ensures fault { IfErr result (HasReadCause (W.counts site.old) (W.counts site.new)) }
{
    let mut last = None;
    for count in 0..u64::MAX {
        let Some((key, _row)) = held.key_past(site, table, bytes_of(&last))? else {
            return Ok(count);
        };
        last = Some(key);
    }
    Err(HeldError::OutOfMemory)
}

fn bytes_of(key: &Option<Bytes>) -> Option<&[u8]>
    ensures { option_map (λ bytes. bytes.now) result ≡ key.now }
{
    match key {
        Some(key) => Some(key.as_slice()),
        None => None,
    }
}
