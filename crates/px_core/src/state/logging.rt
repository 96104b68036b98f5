ghost use Rattle.std.specs.Prelude.{◌≡◌, IfErr, OnOk};
ghost use Rattle.px_appending.specs.Appending.{IsFlushed, LastsThere};
ghost use Rattle.px_log.specs.Touching.{TouchesLog};
ghost use Rattle.px_history.specs.Store.{Store};
ghost use Rattle.px_site.specs.Cause.{HasCause, IsOwn, NoneFell};
ghost use Rattle.px_tidying.specs.Opening.{HasStore};
ghost use Rattle.px_core.specs.Core.{durable_of, frames_of, opening_of};
ghost use Rattle.px_core.specs.Errors.{kept_after, of_log};
ghost use Rattle.px_core.specs.Working.{Breaks};

use super::Kept;
use crate::CoreError;
use px_appending::flush;
use px_log::LogError;
use px_site::{Fault, Site, SiteError};

impl<W: Site> Kept<W> {
    // What the core answers where a frame isn't appended. It keeps a fault: it is broken by it.
    pub(super) fn after_log_error(&mut self, error: LogError) -> CoreError
        ensures answer { result ≡ of_log error }
        ensures keeps { self.new ≡ record self.old { error = kept_after error self.old.error } }
    {
        match error {
            LogError::OutOfMemory => CoreError::OutOfMemory,
            LogError::LogFull(number) => CoreError::LogFull(number),
            LogError::Fault(fault) => {
                self.error = Some(SiteError::Fault(fault));
                CoreError::Fault(fault)
            }
        }
    }

    // Makes all frames durable. Where that fails the core is broken: it can't know which frames a crash would leave.
    pub(super) fn sync(&mut self) -> Result<(), SiteError>
        ensures flushed { OnOk result (IsFlushed W.tells (opening_of W.state self.old) (opening_of W.state self.new)) }
        ensures store { (store : Store) → HasStore store (opening_of W.state self.old) → HasStore store (opening_of W.state self.new) }
        ensures moments { LastsThere W.tells (opening_of W.state self.old) (opening_of W.state self.new) }
        ensures touches { W.tells → TouchesLog 1 (W.state self.old.site) (W.state self.new.site) }
        ensures frames { frames_of self.new ≡ frames_of self.old }
        ensures marks { OnOk result (durable_of self.new ≡ frames_of self.old) }
        ensures rest { self.new ≡ record self.old { site = self.new.site; log = self.new.log; error = self.new.error } }
        ensures still { OnOk result (self.new.error ≡ self.old.error) }
        ensures breaks { IfErr result (λ error. Breaks error self.new) }
        ensures cause { IfErr result (HasCause (W.counts self.old.site) (W.counts self.new.site)) }
        ensures own { IfErr result (IsOwn Fault.Sync) }
        ensures none_fell { NoneFell (W.counts self.old.site) (W.counts self.new.site) }
    {
        match flush(&mut self.site, &mut self.log) {
            Ok(()) => Ok(()),
            Err(error) => {
                self.error = Some(error);
                Err(error)
            }
        }
    }
}
