ghost use Rattle.std.specs.Prelude.{◌≡◌, ◌<◌, ◌≤◌, ◌+◌, length, IsSomeAnd, OnOk, OnErr};
ghost use Rattle.px_model.specs.declared.limits.TheConstants.{MOST_WRITES};
ghost use Rattle.px_xacts.specs.declared.write.WriteAt.{WriteAt};
ghost use Rattle.px_xacts.specs.Transactions.{Transactions, open_of, with_write, without_last};

use super::Xacts;
use crate::write::WriteAt;
use px_model::Session;
use std::alloc::AllocError;

impl Xacts {
    /// Adds a write to the session's own. Without memory all stays as it was.
    pub fn add_write(&mut self, session: Session, write: WriteAt) -> Result<(), AllocError>
        requires { IsSomeAnd (open_of self.old session) (λ transaction. length transaction.writes < MOST_WRITES) }
        ensures ok { OnOk result (self.new ≡ with_write self.old session write) }
        ensures err { OnErr result (self.new ≡ self.old) }
    {
        self.queue.reserve(self.open_writes + 1)?;
        if let Some(transaction) = &mut self.active[session.index() as usize] {
            transaction.writes.push(write)?;
            self.open_writes += 1;
        }
        Ok(())
    }

    /// Takes out the write that the session's transaction made last. It takes no memory.
    pub fn unwrite(&mut self, session: Session)
        requires { IsSomeAnd (open_of self.old session) (λ transaction. 0 < length transaction.writes) }
        ensures state { self.new ≡ without_last self.old session }
        ensures takes_back { (before : Transactions) (write : WriteAt) → self.old ≡ with_write before session write → self.new ≡ before }
    {
        self.drop_last_write(session);
    }

    fn drop_last_write(&mut self, session: Session)
        requires { IsSomeAnd (open_of self.old session) (λ transaction. 0 < length transaction.writes) }
        ensures { self.new ≡ without_last self.old session }
    {
        if let Some(transaction) = &mut self.active[session.index() as usize] {
            transaction.writes.drop_last();
            self.open_writes -= 1;
        }
    }
}
