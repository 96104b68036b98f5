//! Commit and rollback.

ghost use Rattle.std.specs.Prelude.{◌≡◌, None};
ghost use Rattle.px_calls.specs.declared.call.Call.{Call};
ghost use Rattle.px_core.specs.Core.{IsWell};
ghost use Rattle.px_core.specs.Serving.{Serves};

use super::Kept;
use crate::CoreError;
use px_appending::append_end;
use px_calls::Reply;
use px_model::Session;
use px_site::Site;

impl<W: Site> Kept<W> {
    // The writes stand once the Commit frame is durable.
    pub(super) fn commit(&mut self, session: Session) -> Result<Reply, CoreError>
        requires well { IsWell W.state self.old }
        requires whole { self.old.error ≡ None }
        ensures { Serves W.tells W.state W.counts session Call.Commit self.old self.new result }
    {
        let Some(xn) = self.active.writer(session) else {
            return Ok(self.active.end(session, true));
        };
        let number = self.active.commits + 1;
        if let Err(error) = append_end(
            self.alloc,
            &mut self.site,
            &mut self.log,
            xn,
            Some(number),
        ) {
            return Err(self.after_log_error(error));
        }
        self.sync()?;
        Ok(self.active.end(session, true))
    }

    pub(super) fn roll_back(&mut self, session: Session) -> Result<Reply, CoreError>
        requires well { IsWell W.state self.old }
        requires whole { self.old.error ≡ None }
        ensures { Serves W.tells W.state W.counts session Call.Rollback self.old self.new result }
    {
        let Some(xn) = self.active.writer(session) else {
            return Ok(self.active.end(session, false));
        };
        if let Err(error) = append_end(self.alloc, &mut self.site, &mut self.log, xn, None) {
            return Err(self.after_log_error(error));
        }
        Ok(self.active.end(session, false))
    }
}
