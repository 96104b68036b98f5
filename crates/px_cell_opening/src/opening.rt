ghost use Rattle.std.specs.Prelude.{◌+◌, ◌<◌, ◌≤◌, ℕ, IfErr, IfOk, List};
ghost use Rattle.px_history.specs.Store.{Store};
ghost use Rattle.px_laid.specs.Places.{none_laid};
ghost use Rattle.px_log.specs.Contents.{Scans, log_text};
ghost use Rattle.px_log.specs.Log.{IsLogOf, OnlyGrew, ReadsAsBefore};
ghost use Rattle.px_log.specs.Touching.{TouchesLog};
ghost use Rattle.px_model.specs.declared.limits.TheConstants.{STORED_NUMBERS_END};
ghost use Rattle.px_model.specs.declared.row.Row.{Row};
ghost use Rattle.px_opened.specs.Damage.{IsErrorIn};
ghost use Rattle.px_opened.specs.Opened.{changes_over};
ghost use Rattle.px_restart.specs.Restart.{CanRestart};
ghost use Rattle.px_site.specs.Cause.{NoneFell};
ghost use Rattle.px_site.specs.Disk.{at_rest};
ghost use Rattle.px_site.specs.State.{EachMoment, OnFile, Stands};
ghost use Rattle.px_tidying.specs.Opening.{HasStore, opening};
ghost use Rattle.px_xlog.specs.Contents.{the_log};
ghost use Rattle.px_cell_standing.specs.Images.{KeepsStanding};
ghost use Rattle.px_cell_standing.specs.Settled.{Settled};
ghost use Rattle.px_cell_opening.specs.Errors.{HasCellsCause, HasRefusal, IsFileFault, IsPassing, LeavesDamaged};
ghost use Rattle.px_cell_opening.specs.Found.{HasFound, HoldsTables, Rests};
ghost use Rattle.px_cell_opening.specs.Opened.{IsTidiedOf, MayOpen, OpensAs, TouchesAsOpened, WorksFrom, store_of, tidied_count};

use crate::counts::{commits_of, redone_of};
use crate::error::CellsError;
use crate::laws::{
    tables_that_open_may_be_tidied, what_stands_has_no_damage, what_was_found_rests,
    what_was_read_has_its_life, what_was_tidied_goes_on,
};
use px_cell_standing::{a_cut_leaves_what_stands, what_lasts_stands, what_was_opened_can_be_found};
use px_change::Change;
use px_held::Held;
use px_log::{ChangeList, Xlog, scan_log};
use px_opened::{OpenedError, lay_all, open_tables};
use px_restart::Restart;
use px_site::Site;
use px_tidying::{done_by, next_number, tidy};
use std::alloc::Global;

/// What was opened of a store, without its site.
#[derive(Drop)]
pub struct Cells {
    pub held: Held,
    pub log: Xlog,
    /// The greatest stored number that was given out before: at most 2^62 - 1. With that one no transaction can begin any more.
    pub base: u64,
    /// How many transactions have committed.
    pub commits: u64,
    /// How many frames were read from the restart's `redo` on, before any version was unlinked.
    pub redone: u64,
}

/// Opens the store of this restart, whose file is on the disk: its log is read, the cells of all frames are laid over each other, the tables
/// are read and surveyed, what is torn behind the log's last frame is cut, and what nobody will see is unlinked.
///
/// Damaged where the log is, at the frame that holds no change or is missing; else at the first cell that its table can't have or that
/// isn't sound; else at a version without a stored number: the store is left as it was. LogFull where a version has to be unlinked and the
/// log takes no frame with that number. OutOfMemory where the opening itself or the site wants memory; a fault is one that a call of the
/// site answered, and counted. After these three the store is as it was, but for what is torn and for versions that nobody will see: the
/// opening may be tried again.
pub fn open_cells<W: Site>(
    alloc: Global,
    site: &mut W,
    restart: &Restart,
) -> Result<Cells, CellsError>
    requires bounds { CanRestart restart.now }
    ensures opened { W.tells → (commits : ℕ) (rows : List Row) → MayOpen restart.now commits rows (W.state site.old)
        → IfOk result (WorksFrom restart.now commits rows (W.state site.new)) }
    ensures moments { W.tells → (commits : ℕ) (rows : List Row) → MayOpen restart.now commits rows (W.state site.old)
        → Settled (W.state site.old) commits rows → EachMoment (KeepsStanding commits rows (W.state site.old).now) (W.state site.old) (W.state site.new) }
    ensures report { W.tells → IfOk result (λ cells. OpensAs restart.now ((W.state site.old).content the_log) cells (W.state site.new)) }
    ensures store { IfOk result (λ cells. (store : Store) × HasStore store (opening (W.state site.new) cells.held cells.log)) }
    ensures base { IfOk result (λ cells. cells.base < STORED_NUMBERS_END) }
    ensures commits { IfOk result (λ cells. cells.commits ≤ cells.log.frames) }
    ensures sound { W.tells → (commits : ℕ) (rows : List Row) → MayOpen restart.now commits rows (W.state site.old) → IfErr result IsPassing }
    ensures refused { W.tells → IfErr result (HasRefusal restart.now ((W.state site.old).content the_log)) }
    ensures kept { W.tells → IfErr result (LeavesDamaged (W.state site.old) (W.state site.new)) }
    ensures touches { W.tells → TouchesAsOpened restart.now ((W.state site.old).content the_log) (W.state site.old) (W.state site.new) }
    ensures own { IfErr result IsFileFault }
    ensures cause { IfErr result (HasCellsCause (W.counts site.old) (W.counts site.new)) }
    ensures none_fell { NoneFell (W.counts site.old) (W.counts site.new) }
{
    what_was_found_rests();
    a_cut_leaves_what_stands();
    what_stands_has_no_damage();
    let found = find_cells(alloc, site, restart)?;
    tidy_found(alloc, site, restart, found)
}

/// What was found before anything is tidied.
#[derive(Drop)]
struct Found {
    log: Xlog,
    held: Held,
    changes: ChangeList,
    /// The stored number of the next transaction.
    next: u64,
}

/// Reads the log, and finds the tables and the next number. Then it cuts what is torn behind the log: a damaged store is left as it was.
fn find_cells<W: Site>(alloc: Global, site: &mut W, restart: &Restart) -> Result<Found, CellsError>
    requires bounds { CanRestart restart.now }
    ensures found { IfOk result (HasFound restart.now) }
    ensures read { W.tells → IfOk result (λ found. Scans restart.now ((W.state site.old).content the_log) found.changes) }
    ensures logged { W.tells → IfOk result (λ found. IsLogOf found.log found.changes (W.state site.new)) }
    ensures left { W.tells → IfOk result (λ found.
        Stands the_log (W.state site.old) (at_rest (log_text found.changes)) (log_text found.changes) (W.state site.new)) }
    ensures moments { W.tells → OnlyGrew ((W.state site.old).now.files the_log) ((W.state site.old).content the_log)
        → EachMoment (OnFile the_log (W.state site.old).now (ReadsAsBefore ((W.state site.old).now.files the_log))) (W.state site.old) (W.state site.new) }
    ensures refused { W.tells → IfErr result (HasRefusal restart.now ((W.state site.old).content the_log)) }
    ensures kept { W.tells → IfErr result (LeavesDamaged (W.state site.old) (W.state site.new)) }
    ensures touches { W.tells → TouchesLog 2 (W.state site.old) (W.state site.new) }
    ensures own { IfErr result IsFileFault }
    ensures cause { IfErr result (HasCellsCause (W.counts site.old) (W.counts site.new)) }
    ensures none_fell { NoneFell (W.counts site.old) (W.counts site.new) }
{
    let scan = scan_log(alloc, site, restart)?;
    let mut held = open_held(alloc, restart, scan.changes.as_slice())?;
    let next = next_number(site, &mut held, restart, scan.changes.as_slice())?;
    let (log, changes) = scan.open(alloc, site, restart)?;
    Ok(Found {
        log,
        held,
        changes,
        next,
    })
}

/// The tables that the cells of all changes leave.
fn open_held(alloc: Global, restart: &Restart, changes: &[Change]) -> Result<Held, OpenedError>
    requires bounds { CanRestart restart.now }
    ensures holds { IfOk result (HoldsTables restart.now.short restart.now.tables changes.now) }
    ensures error { IfErr result (IsErrorIn restart.now.short restart.now.tables (changes_over none_laid changes.now)) }
{
    let laid = lay_all(alloc, changes)?;
    let tables = open_tables(alloc, restart.tables, restart.short, &laid)?;
    Ok(Held::new(restart.short, tables))
}

/// Unlinks what nobody will see of what was found, and counts.
fn tidy_found<W: Site>(
    alloc: Global,
    site: &mut W,
    restart: &Restart,
    found: Found,
) -> Result<Cells, CellsError>
    requires bounds { CanRestart restart.now }
    requires found { HasFound restart.now found }
    ensures opened { W.tells → (commits : ℕ) (rows : List Row) → Rests restart.now commits rows found (W.state site.old)
        → IfOk result (WorksFrom restart.now commits rows (W.state site.new)) }
    ensures moments { W.tells → (commits : ℕ) (rows : List Row) → Rests restart.now commits rows found (W.state site.old)
        → EachMoment (KeepsStanding commits rows (W.state site.old).now) (W.state site.old) (W.state site.new) }
    ensures tidied { IfOk result (IsTidiedOf restart.now found (W.state site.new)) }
    ensures refused { W.tells → (bytes : List ℕ) → Scans restart.now bytes found.changes → IfErr result (HasRefusal restart.now bytes) }
    ensures sound { W.tells → IfErr result IsPassing }
    ensures touches { (has : HasFound restart.now found)
        → W.tells → TouchesLog (tidied_count restart.now.tables (store_of restart.now found.changes found.next has.holds.found has.holds.layouts) + 1)
        (W.state site.old) (W.state site.new) }
    ensures own { IfErr result IsFileFault }
    ensures cause { IfErr result (HasCellsCause (W.counts site.old) (W.counts site.new)) }
    ensures none_fell { NoneFell (W.counts site.old) (W.counts site.new) }
{
    tables_that_open_may_be_tidied();
    what_was_read_has_its_life();
    what_was_tidied_goes_on();
    what_lasts_stands();
    what_was_opened_can_be_found();
    let Found {
        mut log,
        mut held,
        changes,
        next,
    } = found;
    let changes = changes.as_slice();
    let done = done_by(alloc, restart, changes)?;
    tidy(site, &mut held, &mut log, restart.tables, &done)?;
    Ok(Cells {
        held,
        log,
        base: next - 1,
        commits: commits_of(restart, changes),
        redone: redone_of(restart, changes),
    })
}
