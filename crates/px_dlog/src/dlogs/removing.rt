// A log removed.
ghost use Rattle.std.specs.Prelude.{◌≡◌, false, List, IfErr, OnOk, OnErr};
ghost use Rattle.px_site.specs.Cause.{NoneFell};
ghost use Rattle.px_site.specs.Names.{same_file};
ghost use Rattle.px_site.specs.State.{EachMoment};
ghost use Rattle.px_site.specs.declared.error.Fault.{Fault};
ghost use Rattle.px_site.specs.declared.name.FileName.{FileName};
ghost use Rattle.px_dlog.specs.Errors.{HasCauseOf, UnlessFault};
ghost use Rattle.px_dlog.specs.Inventory.{logs_of};
ghost use Rattle.px_dlog.specs.Logs.{IsClosed, IsDlogOf, IsWithout, KeepsOutside, Stored, outside};

use crate::{Dlogs, LogError};
use px_site::{FileName, Site};

impl Dlogs {
    /// Removes a closed log with its parts; those of the others stay. OutOfMemory where the site wants memory. After an error the
    /// logs are as before, and the site is too, unless the removal failed: then this log may have lost its parts.
    pub fn remove<W: Site>(&mut self, site: &mut W, log: u32) -> Result<(), LogError>
        requires { IsClosed (logs_of self.old) log }
        ensures logs { OnOk result (IsWithout log (logs_of self.old) (logs_of self.new)) }
        ensures as_before { OnErr result (self.new ≡ self.old) }
        ensures removed { W.tells → (parts : List Stored) → IsDlogOf (logs_of self.old) parts (W.state site.old)
            → OnOk result (IsDlogOf (logs_of self.new) (outside log parts) (W.state site.new)) }
        ensures untouched { W.tells → IfErr result (UnlessFault (W.state site.new ≡ W.state site.old)) }
        ensures others { W.tells → (name : FileName) → same_file (FileName.Dlog log) name ≡ false
            → (W.state site.new).content name ≡ (W.state site.old).content name }
        ensures moments { W.tells → EachMoment (KeepsOutside log (W.state site.old).now) (W.state site.old) (W.state site.new) }
        ensures none_fell { NoneFell (W.counts site.old) (W.counts site.new) }
        ensures cause { IfErr result (HasCauseOf Fault.Remove (W.counts site.old) (W.counts site.new)) }
    {
        site.remove(FileName::Dlog(log))?;
        self.inventory.remove(log);
        Ok(())
    }
}
