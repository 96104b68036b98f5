// `dump`.
ghost use Rattle.std.specs.Prelude.{◌≡◌, None, Some, IfErr, length, option_copied, true};
ghost use Rattle.px_site.specs.Cause.{NoneFell};
ghost use Rattle.px_site.specs.State.{EachMoment};
ghost use Rattle.px_model.specs.Machine.{Machine};
ghost use Rattle.px_model.specs.Rows.{in_order};
ghost use Rattle.px_calls.specs.Texts.{row_line};
ghost use Rattle.px_logged.specs.Recounting.{rows_now};
ghost use Rattle.px_cell_standing.specs.Images.{ImagesStandFor};
ghost use Rattle.px_cell_standing.specs.Found.{Found, IsFoundOn, IsSettledStore, machine_of};
ghost use Rattle.px_core.specs.Working.{WorksFor};
ghost use Rattle.px_play.specs.Causes.{IsUndamaged};
ghost use Rattle.px_run.specs.Causes.{HasStatusCause, RefusesBad, ShowsRefusal};
ghost use Rattle.px_run.specs.Working.{DumpsRows, HasDumpCause, HasRowCause, HasTellCause, RefusesQuietly, TellsLines, TellsPiece, TellsRows};
ghost use Rattle.px_run.specs.declared.command.Command.{Command};
ghost use Rattle.px_run.specs.Told.{OnlyTells};

use crate::ended::Ended;
use crate::telling::tell;
use px_calls::{Status, count_line, row_line};
use px_core::Core;
use px_model::{KeyOf, Row};
use px_recovery::{open_store, what_has_no_room_is_not_refused, what_opens_is_not_refused};
use px_site::Site;
use std::alloc::Global;

/// Opens the store, and tells how many rows it has and a line for each, in order of table and key.
pub(crate) fn dump_rows<W: Site>(alloc: Global, site: W) -> Ended<W>
    ensures cause { HasStatusCause (Some Command.Dump) (W.counts site) (W.counts result.site) 0 0 result.status }
    ensures shown { W.tells → ShowsRefusal (W.state site).content (W.state result.site).content result.status }
    ensures refused { W.tells → RefusesBad (W.state site).content result.status }
    ensures quiet { W.tells → RefusesQuietly (W.state site) (W.state result.site) result.status }
    ensures dumps { W.tells → (found : Found) → IsFoundOn found (W.state site)
        → DumpsRows found (W.state site) (W.state result.site) result.status }
    ensures moments { W.tells → (found : Found) → IsSettledStore found (W.state site)
        → EachMoment (ImagesStandFor found.commits found.rows) (W.state site) (W.state result.site) }
    ensures none_fell { NoneFell (W.counts site) (W.counts result.site) }
{
    what_has_no_room_is_not_refused();
    what_opens_is_not_refused();
    match open_store(alloc, site) {
        Ok(opened) => {
            let report = opened.report;
            let mut core = opened.core;
            let status = tell_rows(alloc, &mut core, report.rows);
            let site = core.close();
            Ended { site, status }
        }
        Err(refused) => Ended {
            site: refused.site,
            status: Status::from(refused.error),
        },
    }
}

/// Tells the rows that are committed now, and first how many there are, which is known of the opening. The status is Done,
/// OutputFault, OutOfMemory or DiskFault of a read; Damaged never on a site that tells.
fn tell_rows<W: Site>(alloc: Global, core: &mut Core<W>, count: u64) -> Status
    requires { core.old.error ≡ None }
    ensures cause { HasDumpCause (W.counts core.old.site) (W.counts core.new.site) result }
    ensures sound { W.tells → IsUndamaged result }
    ensures tells { W.tells → (found : Found) → WorksFor W.state core.old (machine_of found) → count ≡ length found.rows
        → TellsRows found (W.state core.old.site) (W.state core.new.site) result }
    ensures only { W.tells → OnlyTells (W.state core.old.site) (W.state core.new.site) }
    ensures works { W.tells → (m : Machine) → WorksFor W.state core.old m → WorksFor W.state core.new m }
    ensures none_fell { NoneFell (W.counts core.old.site) (W.counts core.new.site) }
{
    if let Err(status) = tell(core, count_line(count).as_slice()) {
        return status;
    }
    match tell_each(alloc, core, count) {
        Ok(()) => Status::Done,
        Err(status) => status,
    }
}

/// Tells a line for each row: so many there are.
fn tell_each<W: Site>(alloc: Global, core: &mut Core<W>, count: u64) -> Result<(), Status>
    requires { core.old.error ≡ None }
    ensures cause { IfErr result (HasRowCause (W.counts core.old.site) (W.counts core.new.site)) }
    ensures sound { W.tells → IfErr result IsUndamaged }
    ensures tells { W.tells → (m : Machine) → WorksFor W.state core.old m → in_order (rows_now m) ≡ true → count ≡ length (rows_now m)
        → TellsLines (rows_now m) (W.state core.old.site) (W.state core.new.site) result }
    ensures only { W.tells → OnlyTells (W.state core.old.site) (W.state core.new.site) }
    ensures works { W.tells → (m : Machine) → WorksFor W.state core.old m → WorksFor W.state core.new m }
    ensures none_fell { NoneFell (W.counts core.old.site) (W.counts core.new.site) }
{
    let mut text = Vec::new(alloc);
    let mut last = None;
    for told in 0..count {
        let Some(row) = core.next_row(key_told(&last))? else {
            return Ok(());
        };
        tell_row(core, &row, &mut text)?;
        last = Some(key_of(row));
    }
    Ok(())
}

/// The key past which the next row is.
fn key_told(last: &Option<KeyOf>) -> Option<&KeyOf>
    ensures { option_copied result ≡ last.now }
{
    match last {
        Some(key) => Some(key),
        None => None,
    }
}

fn key_of(row: Row) -> KeyOf
    ensures { result ≡ record { table = row.table; key = row.key } }
{
    let Row { table, key, .. } = row;
    KeyOf { table, key }
}

/// Tells a row's line. `text` is room for it, whatever stands in it.
fn tell_row<W: Site>(core: &mut Core<W>, row: &Row, text: &mut Vec<u8>) -> Result<(), Status>
    ensures tells { W.tells → TellsPiece (row_line row.now) (W.state core.old.site) (W.state core.new.site) result }
    ensures rest { core.new ≡ record core.old { site = core.new.site } }
    ensures works { W.tells → (m : Machine) → WorksFor W.state core.old m → WorksFor W.state core.new m }
    ensures cause { IfErr result (HasTellCause (W.counts core.old.site) (W.counts core.new.site)) }
    ensures none_fell { NoneFell (W.counts core.old.site) (W.counts core.new.site) }
{
    text.clear();
    if row_line(row, text).is_err() {
        return Err(Status::OutOfMemory);
    }
    tell(core, text.as_slice())
}
