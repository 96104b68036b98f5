ghost use Rattle.std.specs.Prelude.{◌≡◌, ◌≤◌, None};
ghost use Rattle.px_active.specs.Active.{AreStored};
ghost use Rattle.px_cell_standing.specs.Found.{HoldsStore};
ghost use Rattle.px_history.specs.Store.{Store};
ghost use Rattle.px_model.specs.Machine.{Machine};
ghost use Rattle.px_site.specs.Cause.{TellCounted};
ghost use Rattle.px_site.specs.State.{Tells};
ghost use Rattle.px_tidying.specs.Opening.{HasStore, opening};
ghost use Rattle.px_life.specs.Life.{Life};
ghost use Rattle.px_reached.specs.Reachable.{Marks};
ghost use Rattle.px_restart.specs.declared.restart.Restart.{Restart};
ghost use Rattle.px_core.specs.Working.{MayBegin, WorksFor};

mod calls;
mod counting;
mod ending;
mod logging;
mod reading;
mod rows;
mod sweeping;
mod writing;

use px_active::Active;
use px_held::Held;
use px_log::Xlog;
use px_site::{Site, SiteError};
use std::alloc::Global;
use std::marker::Model;

/// What a core keeps.
#[derive(Drop)]
pub struct Kept<W: Site> {
    pub alloc: Global,
    pub site: W,
    /// The rows, in cells.
    pub held: Held,
    /// What the sessions have in memory.
    pub active: Active,
    pub log: Xlog,
    /// The error of an earlier call, after which the site may have what the machine doesn't.
    pub error: Option<SiteError>,
}

/// The state behind all session calls. It owns the site. Contracts see what it keeps.
///
/// A write appends its frame to the transaction log, and then lays its cells over the tables. A commit with writes appends one,
/// syncs the log, and then answers; a rollback with writes appends one and syncs nothing. After an error by which the site may
/// have what the machine doesn't, the core keeps that error and answers `Broken` from then on: the store is to be opened again.
/// Every other error leaves the core as it was.
#[derive(Drop)]
pub struct Core<W: Site> {
    kept: Kept<W>,
}

impl<W: Site> Model for Core<W> {
    ghost use Rattle.std.specs.Coded.{codes};
    ghost use Rattle.px_locks.specs.Holders.{holders_code};
    ghost use Rattle.px_core.specs.Core.{IsWell};
    ghost use Rattle.px_core.specs.declared.state.Kept.{Kept};

    ghost Value = { Kept W };

    ghost coded = { Prim.hlevel (codes, holders_code) };

    ghost view = { λ c. c.kept };

    // Whatever the site has.
    ghost invariant = { λ c. IsWell W.state c.kept };
}

impl<W: Site> Core<W> {
    /// The core of a store that was just opened, over its site, with its tables and its log, where the sessions have this.
    pub fn new(alloc: Global, site: W, held: Held, active: Active, log: Xlog) -> Core<W>
        requires store { (store : Store) × HasStore store (opening (W.state site) held log) }
        requires few { active.commits ≤ log.frames }
        requires stored { AreStored active.xacts }
        ensures is { result ≡ record { alloc = alloc; site = site; held = held; active = active; log = log; error = None } }
        ensures works { (m : Machine) (life : Life) (restart : Restart) (marks : Marks)
            → MayBegin m life restart marks (opening (W.state site) held log) active → WorksFor W.state result m }
    {
        Core {
            kept: Kept {
                alloc,
                site,
                held,
                active,
                log,
                error: None,
            },
        }
    }

    /// The error that the core keeps from an earlier call. None exactly where it keeps none.
    pub fn kept(&self) -> Option<SiteError>
        ensures { result ≡ self.now.error }
    {
        self.kept.error
    }

    /// The site, where no call is to follow. It is a settled store with all that the machine has committed.
    pub fn close(self) -> W
        ensures site { result ≡ self.site }
        ensures stored { W.tells → (m : Machine) → WorksFor W.state self m → HoldsStore m (W.state result) }
    {
        let Core { kept } = self;
        let Kept { site, .. } = kept;
        site
    }

    /// The site's `tell`, on a broken core too. The core keeps no error of it, and works on for each machine.
    pub fn tell(&mut self, bytes: &[u8]) -> Result<(), SiteError>
        ensures told { W.tells → Tells bytes.now (W.state self.old.site) (W.state self.new.site) result }
        ensures rest { self.new ≡ record self.old { site = self.new.site } }
        ensures works { W.tells → (m : Machine) → WorksFor W.state self.old m → WorksFor W.state self.new m }
        ensures counted { TellCounted (W.counts self.old.site) (W.counts self.new.site) result }
    {
        self.kept.site.tell(bytes)
    }
}
