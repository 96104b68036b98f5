ghost use Rattle.std.specs.Prelude.{◌≡◌, ◌+◌, ◌^◌, ◌<◌, ℕ, [], Some, IfErr, IfSome, IsErrOf, OnErr, OnOk};
ghost use Rattle.px_held.specs.Linking.{step_of};
ghost use Rattle.px_held.specs.Serving.{HasSameForm, HeldTables};
ghost use Rattle.px_held.specs.Unlinking.{unlink_from};
ghost use Rattle.px_history.specs.Fitting.{IsStoredNumber};
ghost use Rattle.px_history.specs.Steps.{after_step};
ghost use Rattle.px_history.specs.Store.{Store};
ghost use Rattle.px_history.specs.Written.{change_of};
ghost use Rattle.px_log.specs.Errors.{HasLogCause, IsFaultOf, LeavesUntouched, OnShortage};
ghost use Rattle.px_log.specs.Log.{full_at};
ghost use Rattle.px_log.specs.Touching.{TouchesLog};
ghost use Rattle.px_site.specs.Cause.{HasCause, IsOwn, NoneFell, Rose};
ghost use Rattle.px_site.specs.State.{OnShort};
ghost use Rattle.px_tidying.specs.Opening.{HasStore, opening};
ghost use Rattle.px_appending.specs.Appending.{AddsOn, GoesOn, HasSameShape, IsFlushed, LastsAdding, LastsOn, LastsThere};
ghost use Rattle.px_appending.specs.Ends.{IsDue, end_step};
ghost use Rattle.px_appending.specs.Unlinks.{GoesFrom, MayBeUnlinked, sweeping};
ghost use Rattle.px_appending.specs.Versions.{FitsFields, MayBeAppended};

use crate::fields::fits_fields;
use px_cells::CellList;
use px_change::{Change, ChangeKind};
use px_held::{Held, Prepared, PreparedUnlink};
use px_log::{LogError, Xlog};
use px_site::{Fault, Site, SiteError};
use std::alloc::Global;

/// Appends the frame of a version that is prepared, and then lays its cells over its table. LogFull where the log takes no frame more;
/// OutOfMemory where the call or the site wants memory. Both leave the site, the tables and the log as they were; a fault leaves the
/// tables and the log so.
pub fn append_version<W: Site>(
    site: &mut W,
    held: &mut Held,
    log: &mut Xlog,
    prepared: Prepared,
) -> Result<(), LogError>
    requires store { (store : Store) × HasStore store (opening (W.state site.old) held.old log.old) }
    requires ready { MayBeAppended held.old prepared }
    ensures appended { OnOk result (GoesOn W.tells (step_of prepared) (opening (W.state site.old) held.old log.old) (opening (W.state site.new) held.new log.new)) }
    ensures store { (store : Store) → HasStore store (opening (W.state site.old) held.old log.old)
        → OnOk result (HasStore (after_step store (step_of prepared)) (opening (W.state site.new) held.new log.new)) }
    ensures store_stays { (store : Store) → HasStore store (opening (W.state site.old) held.old log.old)
        → OnErr result (HasStore store (opening (W.state site.new) held.new log.new)) }
    ensures moments { LastsOn W.tells (step_of prepared) (opening (W.state site.old) held.old log.old) (opening (W.state site.new) held.new log.new) }
    ensures touches { W.tells → TouchesLog 1 (W.state site.old) (W.state site.new) }
    ensures fits { FitsFields prepared }
    ensures frames { OnOk result (log.new.frames ≡ log.old.frames + 1) }
    ensures shape { HasSameShape log.old log.new }
    ensures form { HasSameForm held.old held.new }
    ensures as_before { OnErr result ((held.new ≡ held.old) × (log.new ≡ log.old)) }
    ensures untouched { W.tells → IfErr result (LeavesUntouched (W.state site.old) (W.state site.new)) }
    ensures full { full_at log.old ≡ Some log.old.frames → IsErrOf result (LogError.LogFull log.old.frames) }
    ensures cause { IfErr result (HasLogCause log.old (W.counts site.old) (W.counts site.new)) }
    ensures own { IfErr result (IsFaultOf Fault.Write) }
    ensures none_fell { NoneFell (W.counts site.old) (W.counts site.new) }
{
    fits_fields(&prepared);
    if let Some(frame) = log.full() {
        return Err(LogError::LogFull(frame));
    }
    log.append(site, &held.version_of(&prepared))?;
    held.lay(prepared);
    Ok(())
}

/// Appends the frame of a sweep with the stored number of the write that is swept, and then lays the cells of the versions that go over
/// their table. LogFull where the log takes no frame more; OutOfMemory where the call or the site wants memory. Both leave the site, the
/// tables and the log as they were; a fault leaves the tables and the log so.
pub fn append_unlinked<W: Site>(
    site: &mut W,
    held: &mut Held,
    log: &mut Xlog,
    prepared: PreparedUnlink,
    swept: u64,
) -> Result<(), LogError>
    requires store { (store : Store) × (from : ℕ) × GoesFrom store prepared from (opening (W.state site.old) held.old log.old) }
    requires ready { MayBeUnlinked held.old prepared swept }
    ensures appended { (store : Store) (from : ℕ) → GoesFrom store prepared from (opening (W.state site.old) held.old log.old)
        → OnOk result (AddsOn W.tells (unlink_from prepared from) (sweeping prepared from swept) (opening (W.state site.old) held.old log.old) (opening (W.state site.new) held.new log.new)) }
    ensures store { (store : Store) (from : ℕ) → GoesFrom store prepared from (opening (W.state site.old) held.old log.old)
        → OnOk result (HasStore (after_step store (unlink_from prepared from)) (opening (W.state site.new) held.new log.new)) }
    ensures store_stays { (store : Store) → HasStore store (opening (W.state site.old) held.old log.old)
        → OnErr result (HasStore store (opening (W.state site.new) held.new log.new)) }
    ensures moments { (store : Store) (from : ℕ) → GoesFrom store prepared from (opening (W.state site.old) held.old log.old)
        → LastsAdding W.tells (unlink_from prepared from) (sweeping prepared from swept) (opening (W.state site.old) held.old log.old) (opening (W.state site.new) held.new log.new) }
    ensures touches { W.tells → TouchesLog 1 (W.state site.old) (W.state site.new) }
    ensures frames { OnOk result (log.new.frames ≡ log.old.frames + 1) }
    ensures shape { HasSameShape log.old log.new }
    ensures form { HasSameForm held.old held.new }
    ensures as_before { OnErr result ((held.new ≡ held.old) × (log.new ≡ log.old)) }
    ensures untouched { W.tells → IfErr result (LeavesUntouched (W.state site.old) (W.state site.new)) }
    ensures full { full_at log.old ≡ Some log.old.frames → IsErrOf result (LogError.LogFull log.old.frames) }
    ensures cause { IfErr result (HasLogCause log.old (W.counts site.old) (W.counts site.new)) }
    ensures own { IfErr result (IsFaultOf Fault.Write) }
    ensures none_fell { NoneFell (W.counts site.old) (W.counts site.new) }
{
    if let Some(frame) = log.full() {
        return Err(LogError::LogFull(frame));
    }
    let sweep = Change {
        kind: ChangeKind::Sweep,
        xn: swept,
        commit: 0,
        cells: held.cells_unlinked(&prepared)?,
    };
    log.append(site, &sweep)?;
    held.lay_unlinked(prepared);
    Ok(())
}

/// Appends the Commit of a transaction, with its number among the commits, or else its Rollback. LogFull where the log takes no frame
/// more; OutOfMemory where the site wants memory. Both leave the site and the log as they were; a fault leaves the log so.
pub fn append_end<W: Site>(
    alloc: Global,
    site: &mut W,
    log: &mut Xlog,
    xn: u64,
    commit: Option<u64>,
) -> Result<(), LogError>
    requires stored { IsStoredNumber xn }
    requires due { IfSome commit (IsDue log.old) }
    ensures appended { (held : HeldTables)
        → OnOk result (GoesOn W.tells (end_step xn commit) (opening (W.state site.old) held log.old) (opening (W.state site.new) held log.new)) }
    ensures store { (held : HeldTables) (store : Store) → HasStore store (opening (W.state site.old) held log.old)
        → OnOk result (HasStore (after_step store (end_step xn commit)) (opening (W.state site.new) held log.new)) }
    ensures store_stays { (held : HeldTables) (store : Store) → HasStore store (opening (W.state site.old) held log.old)
        → OnErr result (HasStore store (opening (W.state site.new) held log.new)) }
    ensures moments { (held : HeldTables)
        → LastsOn W.tells (end_step xn commit) (opening (W.state site.old) held log.old) (opening (W.state site.new) held log.new) }
    ensures touches { W.tells → TouchesLog 1 (W.state site.old) (W.state site.new) }
    ensures frames { OnOk result (log.new.frames ≡ log.old.frames + 1) }
    ensures shape { HasSameShape log.old log.new }
    ensures as_before { OnErr result (log.new ≡ log.old) }
    ensures untouched { W.tells → IfErr result (LeavesUntouched (W.state site.old) (W.state site.new)) }
    ensures full { full_at log.old ≡ Some log.old.frames → IsErrOf result (LogError.LogFull log.old.frames) }
    ensures room { IfErr result (λ error. OnShortage error (Rose (W.counts site.old).shorts (W.counts site.new).shorts)) }
    ensures cause { IfErr result (HasLogCause log.old (W.counts site.old) (W.counts site.new)) }
    ensures own { IfErr result (IsFaultOf Fault.Write) }
    ensures none_fell { NoneFell (W.counts site.old) (W.counts site.new) }
{
    let end = change_of_end(alloc, xn, commit);
    log.append(site, &end)?;
    Ok(())
}

/// Makes each frame durable: from then on each commit is acknowledged. Where each is, nothing is done. OutOfMemory where the site wants
/// memory, which leaves it as it was; a fault may not. The log is as it was after both.
pub fn flush<W: Site>(site: &mut W, log: &mut Xlog) -> Result<(), SiteError>
    ensures flushed { (held : HeldTables) → OnOk result (IsFlushed W.tells (opening (W.state site.old) held log.old) (opening (W.state site.new) held log.new)) }
    ensures store { (held : HeldTables) (store : Store) → HasStore store (opening (W.state site.old) held log.old)
        → HasStore store (opening (W.state site.new) held log.new) }
    ensures moments { (held : HeldTables) → LastsThere W.tells (opening (W.state site.old) held log.old) (opening (W.state site.new) held log.new) }
    ensures touches { W.tells → TouchesLog 1 (W.state site.old) (W.state site.new) }
    ensures marks { OnOk result (log.new ≡ record log.old { durable = log.old.frames }) }
    ensures as_before { OnErr result (log.new ≡ log.old) }
    ensures idle { W.tells → log.old.durable ≡ log.old.frames → W.state site.new ≡ W.state site.old }
    ensures untouched { W.tells → OnShort result (W.state site.new ≡ W.state site.old) }
    ensures none_fell { NoneFell (W.counts site.old) (W.counts site.new) }
    ensures cause { IfErr result (HasCause (W.counts site.old) (W.counts site.new)) }
    ensures own { IfErr result (IsOwn Fault.Sync) }
{
    log.flush(site)
}

/// What the frame of an end says.
fn change_of_end(alloc: Global, xn: u64, commit: Option<u64>) -> Change
    ensures is { (short : ℕ) (store : Store) → result ≡ change_of short store (end_step xn commit) }
    ensures cells { result.cells ≡ [] }
    ensures small { result.commit < 2 ^ 64 }
{
    let cells = CellList::new(alloc);
    match commit {
        Some(number) => Change {
            kind: ChangeKind::Commit,
            xn,
            commit: number,
            cells,
        },
        None => Change {
            kind: ChangeKind::Rollback,
            xn,
            commit: 0,
            cells,
        },
    }
}
