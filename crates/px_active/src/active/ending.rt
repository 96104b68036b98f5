ghost use Rattle.std.specs.Prelude.{◌≡◌, ◌<◌, ◌≤◌, ◌+◌, ◌^◌, ℕ, IfSome, MatchOption};
ghost use Rattle.px_active.specs.Active.{AreReleased, AreStored, HasNoWrites, IsActiveOf, IsWriterIn, commits_after, counted, end_call, end_reply, writer_in};
ghost use Rattle.px_calls.specs.Steps.{reply_of, state_after};
ghost use Rattle.px_chain_laws.specs.Kept.{IsKept};
ghost use Rattle.px_machine_laws.specs.Writers.{writer_of};
ghost use Rattle.px_model.specs.declared.limits.TheConstants.{STORED_NUMBERS_END};
ghost use Rattle.px_model.specs.Machine.{Machine};
ghost use Rattle.px_xacts.specs.Transactions as transactions;

use super::Active;
use px_calls::Reply;
use px_locks::Locks;
use px_model::Session;
use px_xacts::{WriteAt, Xacts};

impl Active {
    /// The stored number of the session's open transaction, where it has writes.
    pub fn writer(&self, session: Session) -> Option<u64>
        ensures is { result ≡ writer_in self.now.xacts session }
        ensures machine { (m : Machine) → IsActiveOf m self.now → result ≡ writer_of m session }
        ensures who { (m : Machine) → IsActiveOf m self.now → MatchOption result (HasNoWrites m session) (IsWriterIn m session) }
        ensures stored { IfSome result (λ xn. (1 ≤ xn) × (xn < STORED_NUMBERS_END)) }
    {
        writer(&self.xacts, session)
    }

    /// Ends the session's transaction, if one is open: its keys are released and its tickets cleared, and a commit with writes is
    /// counted. It takes no memory, and the time of its writes.
    pub fn end(&mut self, session: Session, committed: bool) -> Reply
        requires { self.old.commits < 2 ^ 63 }
        ensures reply { (m : Machine) → IsActiveOf m self.old → result ≡ reply_of m session (end_call committed) }
        ensures active { (m : Machine) → IsKept m → IsActiveOf m self.old → IsActiveOf (state_after m session (end_call committed)) self.new }
        ensures xacts { self.new.xacts ≡ transactions.ended self.old.xacts session committed }
        ensures stored { AreStored self.old.xacts → AreStored self.new.xacts }
        ensures commits { self.new.commits ≡ commits_after self.old session committed }
        ensures few { self.new.commits ≤ self.old.commits + 1 }
    {
        let Some(transaction) = self.xacts.open_of(session) else {
            return Reply::NoTransaction;
        };
        let writes = transaction.writes.as_slice();
        let has_writes = !writes.is_empty();
        release(&mut self.locks, writes, transaction.number);
        self.xacts.end(session, committed);
        self.tickets.clear(session);
        answer(&mut self.commits, committed, has_writes)
    }
}

/// What an end is answered. A commit with writes is counted.
fn answer(commits: &mut u64, committed: bool, has_writes: bool) -> Reply
    requires { commits.old < 2 ^ 63 }
    ensures reply { result ≡ end_reply committed has_writes commits.old }
    ensures counted { commits.new ≡ counted committed has_writes commits.old }
{
    if !committed {
        return Reply::RolledBack;
    }
    if !has_writes {
        return Reply::EndedEmpty;
    }
    *commits += 1;
    Reply::Committed(*commits)
}

/// The stored number of the session's open transaction, where it has writes.
fn writer(xacts: &Xacts, session: Session) -> Option<u64>
    ensures is { result ≡ writer_in xacts.now session }
    ensures stored { IfSome result (λ xn. (1 ≤ xn) × (xn < STORED_NUMBERS_END)) }
{
    let transaction = xacts.open_of(session)?;
    if transaction.writes.as_slice().is_empty() {
        return None;
    }
    Some(xacts.base() + transaction.number)
}

/// Takes the keys of these writes from the transaction of that number, where it holds them.
fn release(locks: &mut Locks, writes: &[WriteAt], number: u64)
    ensures { AreReleased writes.now number locks.old locks.new }
{
    for write in writes {
        locks.release(write.table, write.key.as_slice(), number);
    }
}
