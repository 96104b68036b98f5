// The restart that counts, as the two restart files of a site read.
ghost use Rattle.std.specs.Prelude.{◌≡◌, ℕ, List, IfOk, IfErr, IfSome, IfNone, OnOk};
ghost use Rattle.px_site.specs.Cause.{HasCause, IsOwn, NoneFell};
ghost use Rattle.px_site.specs.State.{EachMoment};
ghost use Rattle.px_model.specs.declared.row.Row.{Row};
ghost use Rattle.px_restart.specs.Restart.{CanRestart, IsPicked};
ghost use Rattle.px_cell_standing.specs.Images.{KeepsStanding};
ghost use Rattle.px_cell_standing.specs.Settled.{IsAlone, Settled};
ghost use Rattle.px_cell_standing.specs.Touching.{TouchesOwn};
ghost use Rattle.px_log.specs.Touching.{ChangesAtMost};
ghost use Rattle.px_standing.specs.Files.{HasNoRestart, first_restart, second_restart};
ghost use Rattle.px_standing.specs.Resting.{RestartsRest};
ghost use Rattle.px_recovery.specs.Errors.{IsOfFile};
ghost use Rattle.px_recovery.specs.Opening.{TellsNothing};

use px_cell_standing::a_sync_leaves_what_stands;
use px_restart::{RESTART_SIZE, Restart, pick};
use px_site::{Fault, FileName, Site, SiteError};

/// The restart file that `make` writes.
pub(crate) const FIRST_RESTART: FileName = FileName::Restart(0);

/// The other one.
pub(crate) const SECOND_RESTART: FileName = FileName::Restart(1);

/// The restart that counts. None exactly where neither restart file checks.
pub(crate) fn read_restart<W: Site>(site: &mut W) -> Result<Option<Restart>, SiteError>
    ensures found { W.tells → IfOk result (λ found. IfSome found (IsPicked (first_restart (W.state site.old).content) (second_restart (W.state site.old).content))) }
    ensures bounds { IfOk result (λ found. IfSome found CanRestart) }
    ensures none { W.tells → IfOk result (λ found. IfNone found (HasNoRestart (W.state site.old).content)) }
    ensures same { W.tells → W.state site.new ≡ W.state site.old }
    ensures none_fell { NoneFell (W.counts site.old) (W.counts site.new) }
    ensures cause { IfErr result (HasCause (W.counts site.old) (W.counts site.new)) }
    ensures own { IfErr result IsOfFile }
    ensures reads { IfErr result (IsOwn Fault.Read) }
{
    let mut first = [0u8; RESTART_SIZE];
    let mut second = [0u8; RESTART_SIZE];
    let first_size = site.read_at(FIRST_RESTART, 0, &mut first)?;
    let second_size = site.read_at(SECOND_RESTART, 0, &mut second)?;
    Ok(pick(&first[..first_size], &second[..second_size]))
}

/// Makes both restart files durable: what is read of them is what a crash from then on leaves.
pub(crate) fn sync_restarts<W: Site>(site: &mut W) -> Result<(), SiteError>
    ensures rests { W.tells → OnOk result (RestartsRest (W.state site.new).now (W.state site.new).content) }
    ensures content { W.tells → (W.state site.new).content ≡ (W.state site.old).content }
    ensures settled { W.tells → (commits : ℕ) (rows : List Row) → Settled (W.state site.old) commits rows
        → OnOk result (Settled (W.state site.new) commits rows) }
    ensures alone { W.tells → IsAlone (W.state site.old) → OnOk result (IsAlone (W.state site.new)) }
    ensures standing { W.tells → (commits : ℕ) (rows : List Row) → Settled (W.state site.old) commits rows
        → EachMoment (KeepsStanding commits rows (W.state site.old).now) (W.state site.old) (W.state site.new) }
    ensures quiet { W.tells → EachMoment (TellsNothing (W.state site.old).now) (W.state site.old) (W.state site.new) }
    ensures own_files { W.tells → EachMoment (TouchesOwn (W.state site.old)) (W.state site.old) (W.state site.new) }
    ensures few { W.tells → ChangesAtMost 2 (W.state site.old) (W.state site.new) }
    ensures none_fell { NoneFell (W.counts site.old) (W.counts site.new) }
    ensures cause { IfErr result (HasCause (W.counts site.old) (W.counts site.new)) }
    ensures own { IfErr result IsOfFile }
{
    a_sync_leaves_what_stands();
    site.sync(FIRST_RESTART)?;
    site.sync(SECOND_RESTART)
}
