// The data logs of a store that was left.
ghost use Rattle.std.specs.Prelude.{◌≡◌, List, None, IfErr, IfOk};
ghost use Rattle.std.specs.List.{AllByRecursion};
ghost use Rattle.px_site.specs.Cause.{NoneFell};
ghost use Rattle.px_dlog.specs.Errors.{HasListCause};
ghost use Rattle.px_dlog.specs.Inventory.{logs_of};
ghost use Rattle.px_dlog.specs.Logs.{IsDlogOf, IsPast, Rests, Stored};

use crate::finding::find_logs;
use crate::inventory::Inventory;
use crate::{Dlogs, LogError};
use px_site::Site;
use std::alloc::Global;

impl Dlogs {
    /// The data logs that are there, each of them closed. Of their parts those count that rest. The next log has the least number
    /// past theirs and past `named`, the greatest that a slot names. OutOfMemory where the call or the site wants memory. The site
    /// stays as it is.
    pub fn load<W: Site>(alloc: Global, site: &mut W, named: u32) -> Result<Dlogs, LogError>
        ensures found { W.tells → (parts : List Stored) → AllByRecursion (Rests (W.state site.old).now) parts
            → IfOk result (λ dlogs. IsDlogOf (logs_of dlogs) parts (W.state site.new)) }
        ensures closed { IfOk result (λ dlogs. (logs_of dlogs).current ≡ None) }
        ensures past { IfOk result (λ dlogs. IsPast named (logs_of dlogs)) }
        ensures same { W.tells → W.state site.new ≡ W.state site.old }
        ensures none_fell { NoneFell (W.counts site.old) (W.counts site.new) }
        ensures cause { IfErr result (HasListCause (W.counts site.old) (W.counts site.new)) }
    {
        let closed = find_logs(alloc, site)?;
        Ok(Dlogs {
            inventory: Inventory::of_closed(closed, named),
            buffer: Vec::new(alloc),
        })
    }
}
