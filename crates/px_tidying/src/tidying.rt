ghost use Rattle.std.specs.Prelude.{◌≡◌, ◌+◌, ◌≤◌, ℕ, [], ◌∷◌, IfErr, IfOk, OnOk, length};
ghost use Rattle.px_chain.specs.Sound.{IsUsedRow};
ghost use Rattle.px_history.specs.Steps.{Step, after_steps};
ghost use Rattle.px_history.specs.Store.{Store};
ghost use Rattle.px_life.specs.Life.{Life, end_of};
ghost use Rattle.px_log.specs.Touching.{TouchesLog};
ghost use Rattle.px_model.specs.Machine.{Machine, commits};
ghost use Rattle.px_reached.specs.Reachable.{Marks};
ghost use Rattle.px_restart.specs.declared.restart.Restart.{Restart};
ghost use Rattle.px_shown.specs.Parts.{Parts};
ghost use Rattle.px_site.specs.Cause.{NoneFell};
ghost use Rattle.px_tidy.specs.Numbers.{done_of};
ghost use Rattle.px_tidy.specs.Steps.{tidying_row, tidying_table, tidying_tables};
ghost use Rattle.px_working.specs.Follows.{last_store};
ghost use Rattle.px_beginning.specs.Tidied.{tidied};
ghost use Rattle.px_tidying.specs.Errors.{HasTidyCause, IsFileFault, IsFullWithin, IsPassing};
ghost use Rattle.px_tidying.specs.Going.{HasRow, IsDoneBy, MayGo};
ghost use Rattle.px_tidying.specs.Opening.{HasLife, HasStore, LastsThrough, Made, opening};

use crate::error::TidyError;
use px_change::{Change, ChangeKind};
use px_held::Held;
use px_log::Xlog;
use px_site::Site;
use px_tidy::{Done, Unneeded};

/// Unlinks each version of the store that nobody will see, and makes these frames durable. Answers how many they are. A store that lasts
/// does so at each moment of it, so after an error the opening may be tried again.
pub fn tidy<W: Site>(
    site: &mut W,
    held: &mut Held,
    log: &mut Xlog,
    tables: u32,
    done: &Done,
) -> Result<u64, TidyError>
    requires store { (store : Store) × IsDoneBy (done_of done.now) store × HasStore store (opening (W.state site.old) held.old log.old) }
    requires tables { tables ≡ log.old.tables }
    ensures tidied { W.tells → (parts : Parts) (least : ℕ) (m : Machine) (life : Life) (restart : Restart) (marks : Marks) → IsDoneBy (done_of done.now) (last_store life)
        → HasLife parts least m life restart marks (opening (W.state site.old) held.old log.old)
        → let end = end_of (tidied restart life) in
        OnOk result (HasLife parts (commits m) m (tidied restart life) restart (record marks { durable = end }) (opening (W.state site.new) held.new log.new)) }
    ensures after { (store : Store) → IsDoneBy (done_of done.now) store → HasStore store (opening (W.state site.old) held.old log.old)
        → OnOk result (HasStore (after_steps store (tidying_tables store tables)) (opening (W.state site.new) held.new log.new)) }
    ensures count { (store : Store) → IsDoneBy (done_of done.now) store → HasStore store (opening (W.state site.old) held.old log.old)
        → IfOk result (λ count. count ≡ length (tidying_tables store tables)) }
    ensures frames { IfOk result (λ count. log.new.frames ≡ log.old.frames + count) }
    ensures lasts { (store : Store) → IsDoneBy (done_of done.now) store → HasStore store (opening (W.state site.old) held.old log.old)
        → LastsThrough W.tells store (opening (W.state site.old) held.old log.old) (opening (W.state site.new) held.new log.new) }
    ensures sound { W.tells → IfErr result IsPassing }
    ensures touches { (store : Store) → IsDoneBy (done_of done.now) store → HasStore store (opening (W.state site.old) held.old log.old)
        → W.tells → TouchesLog (length (tidying_tables store tables) + 1) (W.state site.old) (W.state site.new) }
    ensures full { (store : Store) → IsDoneBy (done_of done.now) store → HasStore store (opening (W.state site.old) held.old log.old)
        → IfErr result (IsFullWithin log.old.frames (log.old.frames + length (tidying_tables store tables))) }
    ensures own { IfErr result IsFileFault }
    ensures cause { IfErr result (HasTidyCause (W.counts site.old) (W.counts site.new)) }
    ensures none_fell { NoneFell (W.counts site.old) (W.counts site.new) }
{
    let before = log.frames();
    tidy_tables(site, held, log, tables, done)?;
    log.flush(site)?;
    Ok(log.frames() - before)
}

/// The same without the sync.
fn tidy_tables<W: Site>(
    site: &mut W,
    held: &mut Held,
    log: &mut Xlog,
    tables: u32,
    done: &Done,
) -> Result<(), TidyError>
    requires store { (store : Store) × IsDoneBy (done_of done.now) store × HasStore store (opening (W.state site.old) held.old log.old) }
    requires tables { tables ≡ log.old.tables }
    ensures made { (store : Store) → IsDoneBy (done_of done.now) store → HasStore store (opening (W.state site.old) held.old log.old)
        → OnOk result (Made W.tells store (tidying_tables store tables) (opening (W.state site.old) held.old log.old) (opening (W.state site.new) held.new log.new)) }
    ensures lasts { (store : Store) → IsDoneBy (done_of done.now) store → HasStore store (opening (W.state site.old) held.old log.old)
        → LastsThrough W.tells store (opening (W.state site.old) held.old log.old) (opening (W.state site.new) held.new log.new) }
    ensures sound { W.tells → IfErr result IsPassing }
    ensures touches { (store : Store) → IsDoneBy (done_of done.now) store → HasStore store (opening (W.state site.old) held.old log.old)
        → W.tells → TouchesLog (length (tidying_tables store tables) + 1) (W.state site.old) (W.state site.new) }
    ensures full { (store : Store) → IsDoneBy (done_of done.now) store → HasStore store (opening (W.state site.old) held.old log.old)
        → IfErr result (IsFullWithin log.old.frames (log.old.frames + length (tidying_tables store tables))) }
    ensures own { IfErr result IsFileFault }
    ensures cause { IfErr result (HasTidyCause (W.counts site.old) (W.counts site.new)) }
    ensures none_fell { NoneFell (W.counts site.old) (W.counts site.new) }
{
    for before in 0..tables {
        tidy_table(site, held, log, (before + 1) as u8, done)?;
    }
    Ok(())
}

/// Unlinks the versions of a table that nobody will see, row by row.
fn tidy_table<W: Site>(
    site: &mut W,
    held: &mut Held,
    log: &mut Xlog,
    table: u8,
    done: &Done,
) -> Result<(), TidyError>
    requires { (store : Store) × IsDoneBy (done_of done.now) store × HasStore store (opening (W.state site.old) held.old log.old) }
    ensures made { (store : Store) → IsDoneBy (done_of done.now) store → HasStore store (opening (W.state site.old) held.old log.old)
        → OnOk result (Made W.tells store (tidying_table store table) (opening (W.state site.old) held.old log.old) (opening (W.state site.new) held.new log.new)) }
    ensures lasts { (store : Store) → IsDoneBy (done_of done.now) store → HasStore store (opening (W.state site.old) held.old log.old)
        → LastsThrough W.tells store (opening (W.state site.old) held.old log.old) (opening (W.state site.new) held.new log.new) }
    ensures sound { W.tells → IfErr result IsPassing }
    ensures touches { (store : Store) → IsDoneBy (done_of done.now) store → HasStore store (opening (W.state site.old) held.old log.old)
        → W.tells → TouchesLog (length (tidying_table store table) + 1) (W.state site.old) (W.state site.new) }
    ensures full { (store : Store) → IsDoneBy (done_of done.now) store → HasStore store (opening (W.state site.old) held.old log.old)
        → IfErr result (IsFullWithin log.old.frames (log.old.frames + length (tidying_table store table))) }
    ensures own { IfErr result IsFileFault }
    ensures cause { IfErr result (HasTidyCause (W.counts site.old) (W.counts site.new)) }
    ensures none_fell { NoneFell (W.counts site.old) (W.counts site.new) }
{
    let mut last = 0;
    while let Some(row) = held.next_row(site, table, last)? {
        tidy_row(site, held, log, table, row, done)?;
        last = row;
    }
    Ok(())
}

/// Unlinks the versions of a row that nobody will see, the oldest first: so no older one shows in between.
fn tidy_row<W: Site>(
    site: &mut W,
    held: &mut Held,
    log: &mut Xlog,
    table: u8,
    row: u32,
    done: &Done,
) -> Result<(), TidyError>
    requires { (store : Store) × HasRow (done_of done.now) table row store × HasStore store (opening (W.state site.old) held.old log.old) }
    ensures made { (store : Store) → HasRow (done_of done.now) table row store → HasStore store (opening (W.state site.old) held.old log.old)
        → OnOk result (Made W.tells store (tidying_row store table row) (opening (W.state site.old) held.old log.old) (opening (W.state site.new) held.new log.new)) }
    ensures lasts { (store : Store) → HasRow (done_of done.now) table row store → HasStore store (opening (W.state site.old) held.old log.old)
        → LastsThrough W.tells store (opening (W.state site.old) held.old log.old) (opening (W.state site.new) held.new log.new) }
    ensures sound { W.tells → IfErr result IsPassing }
    ensures touches { (store : Store) → HasRow (done_of done.now) table row store → HasStore store (opening (W.state site.old) held.old log.old)
        → W.tells → TouchesLog (length (tidying_row store table row) + 1) (W.state site.old) (W.state site.new) }
    ensures full { (store : Store) → HasRow (done_of done.now) table row store → HasStore store (opening (W.state site.old) held.old log.old)
        → IfErr result (IsFullWithin log.old.frames (log.old.frames + length (tidying_row store table row))) }
    ensures own { IfErr result IsFileFault }
    ensures cause { IfErr result (HasTidyCause (W.counts site.old) (W.counts site.new)) }
    ensures none_fell { NoneFell (W.counts site.old) (W.counts site.new) }
{
    let versions = held.versions_to_tidy(site, table, row, done)?;
    for version in &versions {
        unlink(site, held, log, table, row, version)?;
    }
    Ok(())
}

/// Unlinks one version of a row: its frame is appended before the tables change.
fn unlink<W: Site>(
    site: &mut W,
    held: &mut Held,
    log: &mut Xlog,
    table: u8,
    row: u32,
    version: &Unneeded,
) -> Result<(), TidyError>
    requires { (store : Store) × (place : ℕ) × MayGo store table row place version.now × HasStore store (opening (W.state site.old) held.old log.old) }
    ensures made { (store : Store) (place : ℕ) → MayGo store table row place version.now → HasStore store (opening (W.state site.old) held.old log.old)
        → OnOk result (Made W.tells store (Step.unlink table row place 1 ∷ []) (opening (W.state site.old) held.old log.old) (opening (W.state site.new) held.new log.new)) }
    ensures lasts { (store : Store) (place : ℕ) → MayGo store table row place version.now → HasStore store (opening (W.state site.old) held.old log.old)
        → LastsThrough W.tells store (opening (W.state site.old) held.old log.old) (opening (W.state site.new) held.new log.new) }
    ensures sound { W.tells → IfErr result IsPassing }
    ensures touches { W.tells → TouchesLog 1 (W.state site.old) (W.state site.new) }
    ensures full { IfErr result (IsFullWithin log.old.frames (log.old.frames + 1)) }
    ensures own { IfErr result IsFileFault }
    ensures cause { IfErr result (HasTidyCause (W.counts site.old) (W.counts site.new)) }
    ensures none_fell { NoneFell (W.counts site.old) (W.counts site.new) }
{
    let xn = held.writer_of(site, table, version.slot)?;
    let prepared = held.prepare_unlink(site, table, row, version.newer, version.slot, 1)?;
    let change = Change {
        kind: ChangeKind::Tidy,
        xn,
        commit: 0,
        cells: held.cells_unlinked(&prepared)?,
    };
    log.append(site, &change)?;
    held.lay_unlinked(prepared);
    Ok(())
}
