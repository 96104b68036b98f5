ghost use Rattle.std.specs.Prelude.{◌≡◌, ◌≤◌, ℕ, [], IfNone, IfSome, IsTrue, ◌↔◌};
ghost use Rattle.px_site.specs.State.{State};
ghost use Rattle.px_site.specs.declared.name.FileName.{FileName};
ghost use Rattle.px_dlog.specs.Inventory.{logs_of};
ghost use Rattle.px_dlog.specs.Logs.{HasNonePast, IsClosed, IsDlogOf, IsLogPast, extent_of, full_at};

use crate::inventory::Inventory;
use std::alloc::Global;
use std::marker::Model;

mod appending;
mod loading;
mod reading;
mod removing;
mod syncing;

/// The data logs of a store. Contracts see them as the lengths of the logs, the current one, and the number of the next one;
/// `IsDlogOf` says which parts they have on a site. Its owner gives them up after a fault of a call that changes the site.
#[derive(Debug, Drop)]
pub struct Dlogs {
    inventory: Inventory,
    /// The bytes of the part that is appended.
    buffer: Vec<u8>,
}

impl Model for Dlogs {
    ghost use Rattle.px_dlog.specs.Inventory.{Kept, IsSound, kept_of};

    ghost Value = { Kept };

    ghost view = { λ dlogs. kept_of dlogs.inventory };

    ghost invariant = { λ dlogs. IsSound (kept_of dlogs.inventory) };
}

impl Dlogs {
    /// The data logs of a store that has none yet.
    pub fn new(alloc: Global) -> Dlogs
        ensures { (s : State) → ((n : ℕ) → 1 ≤ n → s.content (FileName.Dlog n) ≡ []) → IsDlogOf (logs_of result) [] s }
    {
        Dlogs {
            inventory: Inventory {
                closed: Vec::new(alloc),
                current: None,
                next: 1,
            },
            buffer: Vec::new(alloc),
        }
    }

    /// The number with which the next part is refused by LogFull. None exactly where it isn't.
    pub fn full(&self) -> Option<u64>
        ensures { result ≡ full_at (logs_of self.now) }
    {
        match self.inventory.end() {
            Some(_) => None,
            None => Some(self.inventory.next),
        }
    }

    /// The least number past this one that a log has. None exactly where none has one. It takes no memory.
    pub fn next_log(&self, after: u32) -> Option<u32>
        ensures next { IfSome result (IsLogPast after (logs_of self.now)) }
        ensures none { IfNone result (HasNonePast after (logs_of self.now)) }
    {
        self.inventory.next_log(after)
    }

    /// The bytes of a log, and whether it is closed. None exactly where there is no such log. It takes no memory.
    pub fn extent(&self, log: u32) -> Option<(u64, bool)>
        ensures { result ≡ extent_of (logs_of self.now) log }
    {
        self.inventory.extent(log)
    }

    /// Whether there is such a log and it takes no part any more.
    pub fn is_closed(&self, log: u32) -> bool
        ensures { IsTrue result ↔ IsClosed (logs_of self.now) log }
    {
        matches!(self.inventory.extent(log), Some((_, true)))
    }
}
