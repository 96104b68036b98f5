// A store is opened.
ghost use Rattle.std.specs.Prelude.{◌≡◌, ◌<◌, ◌≤◌, ℕ, true, List, length, None, IfOk, IfErr};
ghost use Rattle.px_site.specs.Cause.{NoneFell};
ghost use Rattle.px_site.specs.State.{EachMoment};
ghost use Rattle.px_model.specs.declared.row.Row.{Row};
ghost use Rattle.px_cell_standing.specs.Found.{Found, IsFoundOn};
ghost use Rattle.px_cell_standing.specs.Images.{KeepsStanding};
ghost use Rattle.px_cell_standing.specs.Settled.{Settled};
ghost use Rattle.px_standing.specs.Files.{HasNoRestart};
ghost use Rattle.px_recovery.specs.Errors.{CountsFault, FindsNoRoom, HasRefusal, IsAbsence, IsPassing, KeepsContent, SaysNothing};
ghost use Rattle.px_recovery.specs.Opening.{BeginsWith, OpensAs, OpensTo, TellsNothing, core_of, site_after};
ghost use Rattle.px_recovery.specs.Touching.{SettlesLater, TouchesOwnFiles};
ghost use Rattle.px_active.specs.Active.{AreStored, IsActiveOf};
ghost use Rattle.px_cell_opening.specs.Opened.{WorksFrom};
ghost use Rattle.px_core.specs.Working.{MayBegin, WorksFor};
ghost use Rattle.px_history.specs.Store.{Store};
ghost use Rattle.px_life.specs.Life.{Life};
ghost use Rattle.px_model.specs.Machine.{Machine, fresh};
ghost use Rattle.px_model.specs.Rows.{in_order};
ghost use Rattle.px_model.specs.declared.limits.TheConstants.{STORED_NUMBERS_END};
ghost use Rattle.px_reached.specs.Reachable.{Marks};
ghost use Rattle.px_restart.specs.Restart.{CanRestart};
ghost use Rattle.px_restart.specs.declared.restart.Restart.{Restart};
ghost use Rattle.px_tidying.specs.Opening.{HasStore, opening};
ghost use Rattle.px_xacts.specs.Transactions as transactions;

use crate::OpenError;
use crate::counting::count_rows;
use crate::laws::{
    a_settled_site_may_be_opened, a_store_that_works_has_its_rows, what_is_found_has_room,
    what_is_found_is_not_refused, what_was_opened_was_found,
};
use crate::restarts::{read_restart, sync_restarts};
use px_active::Active;
use px_cell_opening::{Cells, open_cells};
use px_cell_standing::what_own_files_leave_is_settled;
use px_core::Core;
use px_held::Held;
use px_log::Xlog;
use px_restart::Restart;
use px_site::Site;
use std::alloc::Global;

/// What an opening found.
#[derive(Clone, Copy, Debug, PartialEq, Eq)]
pub struct OpenReport {
    /// How many transactions have committed.
    pub commits: u64,
    /// How many rows there are.
    pub rows: u64,
    /// How many of the log's frames stood behind the restart's `redo`, before any version was unlinked.
    pub redone: u64,
}

/// An opened store, and what was found.
#[derive(Drop)]
pub struct Opened<W: Site> {
    pub core: Core<W>,
    pub report: OpenReport,
}

/// The site comes back, and opening may be tried again.
#[derive(Drop)]
pub struct NotOpened<W: Site> {
    pub site: W,
    pub error: OpenError,
}

/// Opens the store that the site stands for, whatever a crash left of it.
///
/// Both restart files are read, and the one that counts is picked: NoStore where neither checks, before anything is changed. Then both are
/// synced, so that what was picked is what a crash from then on leaves. Then the log is read from its first frame on, and the cells of all
/// its frames are laid over each other: Damaged where the reading stops below the restart's `durable`, where a frame's payload is no change
/// that it may hold, or at the first cell that its table can't have or that isn't sound; no content was changed then. What is torn behind
/// the log's last frame is cut, and each version that nobody will see is unlinked by a frame of its own: LogFull where the log takes no
/// frame of that number. These are synced before the store is answered.
///
/// OutOfMemory where the opening itself or the site wants memory; a fault is one that a call of the site answered, and counted. After both
/// of these, and after LogFull, the store is as it was, but for what is torn and for versions that nobody will see: the opening may be tried
/// again.
pub fn open_store<W: Site>(alloc: Global, site: W) -> Result<Opened<W>, NotOpened<W>>
    ensures whole { IfOk result (λ opened. opened.core.error ≡ None) }
    ensures opened { W.tells → IfOk result (λ opened. OpensAs (W.state site).content opened.report) }
    ensures stored { W.tells → (found : Found) → IsFoundOn found (W.state site)
        → IfOk result (λ opened. OpensTo W.state found opened.core opened.report) }
    ensures moments { W.tells → (commits : ℕ) (rows : List Row) → Settled (W.state site) commits rows
        → EachMoment (KeepsStanding commits rows (W.state site).now) (W.state site) (W.state (site_after result)) }
    ensures quiet { W.tells → EachMoment (TellsNothing (W.state site).now) (W.state site) (W.state (site_after result)) }
    ensures touches { W.tells → TouchesOwnFiles (W.state site) (W.state (site_after result)) }
    ensures again { W.tells → (commits : ℕ) (rows : List Row) → Settled (W.state site) commits rows → SettlesLater commits rows (W.state (site_after result)).now }
    ensures told { W.tells → (W.state (site_after result)).now.told ≡ (W.state site).now.told }
    ensures refused { W.tells → IfErr result (λ refused. HasRefusal (W.state site).content refused.error) }
    ensures absent { W.tells → HasNoRestart (W.state site).content → IfErr result (λ refused. IsAbsence refused.error) }
    ensures sound { W.tells → (found : Found) → IsFoundOn found (W.state site) → IfErr result (λ refused. IsPassing refused.error) }
    ensures full { W.tells → (found : Found) → IsFoundOn found (W.state site) → IfErr result (λ refused. FindsNoRoom found refused.error) }
    ensures kept { W.tells → IfErr result (λ refused. KeepsContent (W.state site) (W.state refused.site) refused.error) }
    ensures fault { IfErr result (λ refused. CountsFault (W.counts site) (W.counts refused.site) refused.error) }
    ensures none_fell { NoneFell (W.counts site) (W.counts (site_after result)) }
{
    what_is_found_has_room();
    what_is_found_is_not_refused();
    what_own_files_leave_is_settled();
    let mut site = site;
    match open_parts(alloc, &mut site) {
        Ok(parts) => Ok(parts.over(alloc, site)),
        Err(error) => Err(NotOpened { site, error }),
    }
}

/// What is opened, without the site.
struct Parts {
    held: Held,
    active: Active,
    log: Xlog,
    report: OpenReport,
}

impl Parts {
    fn over<W: Site>(self, alloc: Global, site: W) -> Opened<W>
        requires store { (store : Store) × HasStore store (opening (W.state site) self.held self.log) }
        requires few { self.active.commits ≤ self.log.frames }
        requires stored { AreStored self.active.xacts }
        ensures core { result.core ≡ core_of alloc site self }
        ensures report { result.report ≡ self.report }
        ensures works { (m : Machine) (life : Life) (restart : Restart) (marks : Marks)
            → MayBegin m life restart marks (opening (W.state site) self.held self.log) self.active → WorksFor W.state result.core m }
    {
        let Parts {
            held,
            active,
            log,
            report,
        } = self;
        Opened {
            core: Core::new(alloc, site, held, active, log),
            report,
        }
    }
}

// The restart files are synced before anything else is changed: else a crash might leave the restart that wasn't picked, over a log that
// was cut for the other one.
fn open_parts<W: Site>(alloc: Global, site: &mut W) -> Result<Parts, OpenError>
    ensures opened { W.tells → IfOk result (λ parts. OpensAs (W.state site.old).content parts.report) }
    ensures stored { W.tells → (found : Found) → IsFoundOn found (W.state site.old)
        → IfOk result (λ parts. BeginsWith found (opening (W.state site.new) parts.held parts.log) parts.active parts.report) }
    ensures store { IfOk result (λ parts. (store : Store) × HasStore store (opening (W.state site.new) parts.held parts.log)) }
    ensures few { IfOk result (λ parts. parts.active.commits ≤ parts.log.frames) }
    ensures unswept { IfOk result (λ parts. AreStored parts.active.xacts) }
    ensures moments { W.tells → (commits : ℕ) (rows : List Row) → Settled (W.state site.old) commits rows
        → EachMoment (KeepsStanding commits rows (W.state site.old).now) (W.state site.old) (W.state site.new) }
    ensures quiet { W.tells → EachMoment (TellsNothing (W.state site.old).now) (W.state site.old) (W.state site.new) }
    ensures touches { W.tells → TouchesOwnFiles (W.state site.old) (W.state site.new) }
    ensures refused { W.tells → IfErr result (HasRefusal (W.state site.old).content) }
    ensures absent { W.tells → HasNoRestart (W.state site.old).content → IfErr result IsAbsence }
    ensures kept { W.tells → IfErr result (KeepsContent (W.state site.old) (W.state site.new)) }
    ensures fault { IfErr result (CountsFault (W.counts site.old) (W.counts site.new)) }
    ensures none_fell { NoneFell (W.counts site.old) (W.counts site.new) }
{
    a_settled_site_may_be_opened();
    what_was_opened_was_found();
    let Some(restart) = read_restart(site)? else {
        return Err(OpenError::NoStore);
    };
    sync_restarts(site)?;
    let cells = open_cells(alloc, site, &restart)?;
    let parts = parts_of(alloc, site, &restart, cells)?;
    Ok(parts)
}

// What the sessions have of a store that was just opened: nothing. Its rows are counted.
fn parts_of<W: Site>(
    alloc: Global,
    site: &mut W,
    restart: &Restart,
    cells: Cells,
) -> Result<Parts, OpenError>
    requires bounds { CanRestart restart.now }
    requires store { (store : Store) × HasStore store (opening (W.state site.old) cells.held cells.log) }
    requires base { cells.base < STORED_NUMBERS_END }
    requires commits { cells.commits ≤ cells.log.frames }
    ensures counted { IfOk result (λ parts. (parts.report.commits ≡ cells.commits) × (parts.report.redone ≡ cells.redone)) }
    ensures rows { W.tells → (commits : ℕ) (rows : List Row) → in_order rows ≡ true → WorksFrom restart.now commits rows (W.state site.old) cells
        → IfOk result (λ parts. parts.report.rows ≡ length rows) }
    ensures works { W.tells → (commits : ℕ) (rows : List Row) → WorksFrom restart.now commits rows (W.state site.old) cells
        → IfOk result (λ parts. WorksFrom restart.now commits rows (W.state site.new) (record cells { held = parts.held; log = parts.log })) }
    ensures active { (tables short : ℕ) (opening : List Row)
        → IfOk result (λ parts. IsActiveOf (fresh tables short opening cells.commits cells.base) parts.active) }
    ensures fresh { IfOk result (λ parts. parts.active.xacts ≡ transactions.fresh cells.base) }
    ensures log { IfOk result (λ parts. parts.log ≡ cells.log) }
    ensures store { IfOk result (λ parts. (store : Store) × HasStore store (opening (W.state site.new) parts.held parts.log)) }
    ensures few { IfOk result (λ parts. parts.active.commits ≤ parts.log.frames) }
    ensures unswept { IfOk result (λ parts. AreStored parts.active.xacts) }
    ensures same { W.tells → W.state site.new ≡ W.state site.old }
    ensures sound { W.tells → IfErr result SaysNothing }
    ensures fault { IfErr result (CountsFault (W.counts site.old) (W.counts site.new)) }
    ensures none_fell { NoneFell (W.counts site.old) (W.counts site.new) }
{
    a_store_that_works_has_its_rows();
    let Cells {
        mut held,
        log,
        base,
        commits,
        redone,
    } = cells;
    let rows = count_rows(site, &mut held, restart.tables as u8)?;
    let active = Active::new(alloc, base, commits)?;
    Ok(Parts {
        held,
        active,
        log,
        report: OpenReport {
            commits,
            rows,
            redone,
        },
    })
}
