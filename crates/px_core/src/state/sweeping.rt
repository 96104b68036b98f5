//! A step of the sweeper.

ghost use Rattle.std.specs.Prelude.{◌≡◌, ⊤, None, Some, IfErr, IfOk, IsErrOf, OnOk};
ghost use Rattle.px_model.specs.Machine.{Machine};
ghost use Rattle.px_site.specs.Cause.{NoneFell};
ghost use Rattle.px_site.specs.State.{EachMoment};
ghost use Rattle.px_site.specs.declared.error.SiteError.{SiteError};
ghost use Rattle.px_standing.specs.Images.{LeavesOthers};
ghost use Rattle.px_working.specs.Follows.{last_store};
ghost use Rattle.px_xacts.specs.Transactions as xacts;
ghost use Rattle.px_core.specs.Core.{IsWell};
ghost use Rattle.px_core.specs.Errors.{IsPassing};
ghost use Rattle.px_core.specs.Sweeping.{AnswersSweep, FindsFullSweep, FindsGone, IsUnlinkOf, MaySweep, RefusesSweep, StandsWithinSweep, Sweeps};
ghost use Rattle.px_core.specs.Working.{WorksFor};

use super::{Core, Kept};
use crate::CoreError;
use px_appending::append_unlinked;
use px_calls::Reply;
use px_held::{HeldError, PreparedUnlink};
use px_site::Site;
use px_xacts::Due;

impl<W: Site> Core<W> {
    /// A step of the sweeper: the next write that no snapshot holds back is swept, and the versions that nobody will see any more
    /// are unlinked, in a frame of the log that no sync follows. Idle where no write is due.
    ///
    /// - `OutOfMemory`: the step or the site wanted memory.
    /// - `Fault`: a read failed, which leaves the core as it was; or the append failed, by which the core is broken from then on.
    /// - `LogFull`: the step had a frame to append, for which the log has no number left.
    /// - `Damaged`: a cell isn't what a store may have there. Never on a site that tells its files, where the core works for a machine.
    /// - `Broken`: exactly where the core keeps an error of an earlier call.
    pub fn sweep(&mut self) -> Result<Reply, CoreError>
        ensures answered { W.tells → (m : Machine) → WorksFor W.state self.old m → IfOk result (AnswersSweep W.state m self.old self.new) }
        ensures moments { W.tells → (m : Machine) → WorksFor W.state self.old m → StandsWithinSweep W.state m self.old self.new }
        ensures others { W.tells → (m : Machine) → WorksFor W.state self.old m
            → EachMoment (LeavesOthers (W.state self.old.site).now) (W.state self.old.site) (W.state self.new.site) }
        ensures refused { IfErr result (RefusesSweep W.tells W.state W.counts self.old self.new) }
        ensures full { W.tells → (m : Machine) → WorksFor W.state self.old m → IfErr result (FindsFullSweep m self.old) }
        ensures sound { W.tells → (m : Machine) → WorksFor W.state self.old m → IfErr result IsPassing }
        ensures broken { (error : SiteError) → self.old.error ≡ Some error → IsErrOf result (CoreError.Broken error) }
        ensures steady { OnOk result (self.new.error ≡ None) }
        ensures none_fell { NoneFell (W.counts self.old.site) (W.counts self.new.site) }
    {
        if let Some(error) = self.kept.error {
            return Err(CoreError::Broken(error));
        }
        self.kept.sweep_next()
    }
}

impl<W: Site> Kept<W> {
    // The same where no error is kept.
    fn sweep_next(&mut self) -> Result<Reply, CoreError>
        requires well { IsWell W.state self.old }
        requires whole { self.old.error ≡ None }
        ensures { Sweeps W.tells W.state W.counts self.old self.new (λ m works. ⊤) result }
    {
        let Some(due) = self.active.due() else {
            return Ok(Reply::Idle);
        };
        match self.versions_with(&due)? {
            Some(prepared) => self.unlink(&due, prepared),
            None => {
                self.active.swept();
                Ok(Reply::Swept(due.number))
            }
        }
    }

    // What goes with a write that is due, prepared. None where its sweep takes nothing.
    fn versions_with(&mut self, due: &Due) -> Result<Option<PreparedUnlink>, HeldError>
        requires well { IsWell W.state self.old }
        requires due { xacts.due self.old.active.xacts ≡ Some due.now }
        ensures { FindsGone W.tells W.state W.counts due.now self.old self.new result }
    {
        let Some(run) = self.held.versions_to_sweep(&mut self.site, due)? else {
            return Ok(None);
        };
        let prepared = self.held.prepare_unlink(
            &mut self.site,
            due.table,
            due.row,
            run.newer,
            run.first,
            run.count,
        )?;
        Ok(Some(prepared))
    }

    // Appends the frame of the sweep and lays its cells, and notes then that the write is swept.
    fn unlink(&mut self, due: &Due, prepared: PreparedUnlink) -> Result<Reply, CoreError>
        requires well { IsWell W.state self.old }
        requires whole { self.old.error ≡ None }
        requires due { xacts.due self.old.active.xacts ≡ Some due.now }
        requires ready { IsUnlinkOf W.state self.old due.now prepared }
        ensures { Sweeps W.tells W.state W.counts self.old self.new (λ m works. MaySweep m (last_store works.life) due.now prepared) result }
    {
        let xn = self.active.xacts.base() + due.number;
        if let Err(error) = append_unlinked(
            &mut self.site,
            &mut self.held,
            &mut self.log,
            prepared,
            xn,
        ) {
            return Err(self.after_log_error(error));
        }
        self.active.swept();
        Ok(Reply::Swept(due.number))
    }
}
