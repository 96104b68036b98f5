// The current log made durable.
ghost use Rattle.std.specs.Prelude.{◌≡◌, false, List, None, IfErr, OnOk, OnErr};
ghost use Rattle.std.specs.List.{AllByRecursion};
ghost use Rattle.px_site.specs.Cause.{HasCause, IsOwn, NoneFell};
ghost use Rattle.px_site.specs.State.{EachMoment};
ghost use Rattle.px_site.specs.declared.error.Fault.{Fault};
ghost use Rattle.px_site.specs.declared.name.FileName.{FileName};
ghost use Rattle.px_dlog.specs.Errors.{HasCauseOf, UnlessFault};
ghost use Rattle.px_dlog.specs.Inventory.{logs_of};
ghost use Rattle.px_dlog.specs.Logs.{IsDlogOf, KeepsParts, Rests, Stored, SyncsLog, all_synced};

use crate::{Dlogs, LogError};
use px_site::{FileName, Site, SiteError};

impl Dlogs {
    /// Makes each part durable. Where each is, nothing is done. OutOfMemory where the site wants memory. After an error the logs,
    /// their contents and what rests are as before.
    pub fn sync_current<W: Site>(&mut self, site: &mut W) -> Result<(), LogError>
        ensures logs { OnOk result (logs_of self.new ≡ all_synced (logs_of self.old)) }
        ensures as_before { OnErr result (self.new ≡ self.old) }
        ensures kept { W.tells → (parts : List Stored) → IsDlogOf (logs_of self.old) parts (W.state site.old)
            → OnOk result (IsDlogOf (logs_of self.new) parts (W.state site.new)) }
        ensures synced { W.tells → (parts : List Stored) → IsDlogOf (logs_of self.old) parts (W.state site.old)
            → OnOk result (AllByRecursion (Rests (W.state site.new).now) parts) }
        ensures idle { W.tells → (logs_of self.old).unsynced ≡ false → W.state site.new ≡ W.state site.old }
        ensures untouched { W.tells → IfErr result (UnlessFault (W.state site.new ≡ W.state site.old)) }
        ensures contents { W.tells → (name : FileName) → (W.state site.new).content name ≡ (W.state site.old).content name }
        ensures moments { W.tells → EachMoment (KeepsParts (W.state site.old).now) (W.state site.old) (W.state site.new) }
        ensures none_fell { NoneFell (W.counts site.old) (W.counts site.new) }
        ensures cause { IfErr result (HasCauseOf Fault.Sync (W.counts site.old) (W.counts site.new)) }
    {
        sync_log(site, self.inventory.unsynced())?;
        self.inventory.set_synced();
        Ok(())
    }
}

/// Makes the content of a log durable, where there is one to sync.
pub(super) fn sync_log<W: Site>(site: &mut W, log: Option<u32>) -> Result<(), SiteError>
    ensures syncs { W.tells → SyncsLog log (W.state site.old) (W.state site.new) result }
    ensures contents { W.tells → (name : FileName) → (W.state site.new).content name ≡ (W.state site.old).content name }
    ensures moments { W.tells → EachMoment (KeepsParts (W.state site.old).now) (W.state site.old) (W.state site.new) }
    ensures none_fell { NoneFell (W.counts site.old) (W.counts site.new) }
    ensures cause { IfErr result (HasCause (W.counts site.old) (W.counts site.new)) }
    ensures own { IfErr result (IsOwn Fault.Sync) }
{
    match log {
        Some(log) => site.sync(FileName::Dlog(log)),
        None => Ok(()),
    }
}
