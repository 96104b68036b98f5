ghost use Rattle.std.specs.Prelude.{◌≡◌, ◌<◌, ◌+◌, ◌^◌, ℕ, length, None, IfOk, OnOk, OnErr};
ghost use Rattle.px_model.specs.declared.limits.TheConstants.{SESSIONS};
ghost use Rattle.px_xacts.specs.Transactions.{Transactions, open_of, begin_answer, after_begin, opened, BeganLast, without_begin};

use super::Xacts;
use crate::answers::Begun;
use crate::transaction::Transaction;
use crate::write::WriteAtList;
use px_model::{MOST_BEGINS, SESSIONS, STORED_NUMBERS_END, Session, Standing};
use std::alloc::AllocError;

impl Xacts {
    /// Opens a transaction of the session, while the log has so many frames. Its snapshot is what has ended by now. Without
    /// memory all stays as it was.
    #[tactic(auto, unfolding(crate::specs::Transactions::begins_spent, crate::specs::Transactions::begin_answer))]
    pub fn begin(&mut self, session: Session, frames: u64) -> Result<Begun, AllocError>
        ensures answer { IfOk result (λ begun. begun ≡ begin_answer self.old session) }
        ensures state { OnOk result (self.new ≡ after_begin self.old session frames) }
        ensures err { OnErr result (self.new ≡ self.old) }
        ensures stored { self.new.base + self.new.begun < 2 ^ 62 }
        ensures sessions { length self.new.active ≡ SESSIONS }
        ensures place { session < length self.new.active }
    {
        let at = session.index() as usize;
        if self.active[at].is_some() {
            return Ok(Begun::OpenAlready);
        }
        if self.begun == MOST_BEGINS || self.base + self.begun + 1 == STORED_NUMBERS_END {
            return Ok(Begun::LimitBegins);
        }
        let writes = WriteAtList::new(self.allocator());
        self.outcomes.reserve(SESSIONS as usize)?;
        self.standings.push(Standing::Open)?;
        let number = self.begun + 1;
        self.begun = number;
        self.active[at] = Some(Transaction {
            number,
            snap: self.outcomes.len() as u64,
            frames,
            writes,
        });
        Ok(Begun::Number(number))
    }

    /// Takes back the begin of the session's transaction, where it was the last one and nothing was written yet, as where
    /// the caller then lacks memory for it. It takes no memory.
    pub fn unbegin(&mut self, session: Session)
        requires { BeganLast self.old session }
        ensures state { self.new ≡ without_begin self.old session }
        ensures takes_back { (before : Transactions) (frames : ℕ) → open_of before session ≡ None → self.old ≡ opened before session frames → self.new ≡ before }
    {
        self.take_back_begin(session);
    }

    fn take_back_begin(&mut self, session: Session)
        requires { BeganLast self.old session }
        ensures { self.new ≡ without_begin self.old session }
    {
        self.active[session.index() as usize] = None;
        let _open = self.standings.pop();
        self.begun -= 1;
    }
}
