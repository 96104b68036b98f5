ghost use Rattle.std.specs.Prelude.{◌≡◌, ◌<◌, ℕ, List, IfOk, OnErr, OnOk};
ghost use Rattle.px_active.specs.Active.{AreStored, IsActiveOf};
ghost use Rattle.px_calls.specs.declared.call.Call.{Call};
ghost use Rattle.px_calls.specs.Steps.{reply_of, state_after};
ghost use Rattle.px_chain_laws.specs.Kept.{IsKept};
ghost use Rattle.px_model.specs.declared.limits.TheConstants.{STORED_NUMBERS_END};
ghost use Rattle.px_model.specs.declared.row.Row.{Row};
ghost use Rattle.px_model.specs.Machine.{Machine, fresh};
ghost use Rattle.px_xacts.specs.Transactions as transactions;
ghost use Rattle.px_xacts_laws.specs.Mirrors.{begun_reply};

mod counting;
mod ending;
mod sweeping;
mod writing;

use px_answers::Tickets;
use px_calls::Reply;
use px_locks::Locks;
use px_model::Session;
use px_xacts::{Begun, Xacts};
use std::alloc::{AllocError, Global};
pub use writing::NewWrite;

/// What the sessions have: their transactions, the keys that these hold, the rows that their tickets keep, and how many commits the
/// store has made.
#[derive(Drop)]
pub struct Active {
    pub xacts: Xacts,
    pub locks: Locks,
    pub tickets: Tickets,
    pub commits: u64,
}

impl Active {
    /// That of a store that was just opened, where `base` is the last stored number that was given out: nobody has begun. Fails only
    /// for want of memory.
    pub fn new(alloc: Global, base: u64, commits: u64) -> Result<Active, AllocError>
        requires { base < STORED_NUMBERS_END }
        ensures is { (tables short : ℕ) (opening : List Row) → IfOk result (IsActiveOf (fresh tables short opening commits base)) }
        ensures xacts { IfOk result (λ active. active.xacts ≡ transactions.fresh base) }
        ensures stored { IfOk result (λ active. AreStored active.xacts) }
        ensures commits { IfOk result (λ active. active.commits ≡ commits) }
    {
        Ok(Active {
            xacts: Xacts::new(alloc, base)?,
            locks: Locks::new(alloc)?,
            tickets: Tickets::new(alloc)?,
            commits,
        })
    }

    /// A transaction of the session begins, while the log has so many frames. Without memory all stays as it was.
    pub fn begin(&mut self, session: Session, frames: u64) -> Result<Reply, AllocError>
        ensures reply { (m : Machine) → IsActiveOf m self.old → IfOk result (λ reply. reply ≡ reply_of m session Call.Begin) }
        ensures active { (m : Machine) → IsKept m → IsActiveOf m self.old → OnOk result (IsActiveOf (state_after m session Call.Begin) self.new) }
        ensures xacts { OnOk result (self.new.xacts ≡ transactions.after_begin self.old.xacts session frames) }
        ensures answer { IfOk result (λ reply. reply ≡ begun_reply (transactions.begin_answer self.old.xacts session)) }
        ensures stored { AreStored self.old.xacts → AreStored self.new.xacts }
        ensures commits { self.new.commits ≡ self.old.commits }
        ensures err { OnErr result (self.new ≡ self.old) }
    {
        let begun = self.xacts.begin(session, frames)?;
        Ok(begun_reply(begun))
    }
}

/// What a begin is answered, as a reply.
fn begun_reply(begun: Begun) -> Reply
    ensures { result ≡ begun_reply begun }
{
    match begun {
        Begun::Number(number) => Reply::Began(number),
        Begun::OpenAlready => Reply::OpenAlready,
        Begun::LimitBegins => Reply::LimitBegins,
    }
}
