ghost use Rattle.std.specs.Prelude.{◌≡◌, ◌<◌, ◌≤◌, ◌+◌, IfOk, IfSome, length, option_map};
ghost use Rattle.std.specs.Option.{option_copied};
ghost use Rattle.px_model.specs.declared.limits.TheConstants.{STORED_NUMBERS_END};
ghost use Rattle.px_xacts.specs.Sound.{IsOpen};
ghost use Rattle.px_xacts.specs.Transactions.{fresh, open_of};

mod beginning;
mod counting;
mod ending;
mod low;
mod standing;
mod sweeping;
mod writing;

use crate::transaction::{Outcome, Transaction, Unswept};
use px_model::{SESSIONS, Session, Standing};
use std::alloc::{AllocError, Global};
use std::collections::VecDeque;
use std::marker::Model;

/// The transactions since a store was opened. Contracts see them as specs/Transactions has them.
///
/// What stays of a transaction that ended is one small entry, and a second one where it had writes: a slot may still be met
/// that it wrote, and a reader needs the exact place at which it committed. The keys of writes that are swept aren't kept.
///
/// There is room among the outcomes for each open transaction, and in the queue for each of its writes, so that an end
/// takes no memory.
#[derive(Drop)]
pub struct Xacts {
    /// The last stored number that was given out before the opening.
    base: u64,
    /// How many transactions have begun since.
    begun: u64,
    /// The transactions that ended with writes, in the order of their ends.
    outcomes: Vec<Outcome>,
    /// What became of each that began; `Open` too where nothing is kept of its end.
    standings: Vec<Standing>,
    /// The writes of ended transactions that aren't swept.
    queue: VecDeque<Unswept>,
    /// For each session its open transaction.
    active: Vec<Option<Transaction>>,
    /// How many writes the open transactions have.
    open_writes: usize,
}

impl Model for Xacts {
    ghost use Rattle.std.specs.Vec.{vec_capacity};
    ghost use Rattle.std.specs.VecDeque.{deque_capacity};
    ghost use Rattle.px_xacts.specs.Transactions.{Transactions};
    ghost use Rattle.px_xacts.specs.Sound.{IsKept};

    ghost Value = { Transactions };

    ghost view = { λ x. record { base = x.base; begun = x.begun; outcomes = x.outcomes.items; queue = x.queue.items; active = x.active.items } };

    ghost invariant = { λ x. IsKept x.base x.begun x.outcomes.items x.standings.items x.queue.items x.active.items x.open_writes (vec_capacity x.outcomes) (deque_capacity x.queue) };
}

impl Xacts {
    /// No transaction has begun, and the first has the stored number `base + 1`.
    pub fn new(alloc: Global, base: u64) -> Result<Xacts, AllocError>
        requires { base < STORED_NUMBERS_END }
        ensures { IfOk result (λ all. all ≡ fresh base) }
    {
        let mut active = Vec::new(alloc);
        for _slot in 0..SESSIONS {
            active.push(None)?;
        }
        Ok(Xacts {
            base,
            begun: 0,
            outcomes: Vec::new(alloc),
            standings: Vec::new(alloc),
            queue: VecDeque::new(alloc),
            active,
            open_writes: 0,
        })
    }

    /// The last stored number that was given out before the opening.
    pub fn base(&self) -> u64
        ensures is { result ≡ self.now.base }
        ensures stored { self.now.base + self.now.begun < STORED_NUMBERS_END }
    {
        self.base
    }

    /// The number of the session's open transaction.
    pub fn number(&self, session: Session) -> Option<u64>
        ensures is { result ≡ option_map (λ transaction. transaction.number) (open_of self.now session) }
        ensures bounds { IfSome result (λ number. (1 ≤ number) × (number ≤ self.now.begun)) }
        ensures stored { IfSome result (λ number. self.now.base + number < STORED_NUMBERS_END) }
    {
        Some(self.open_of(session)?.number)
    }

    /// The snapshot of the session's open transaction: how many had ended when it began.
    pub fn snapshot(&self, session: Session) -> Option<u64>
        ensures is { result ≡ option_map (λ transaction. transaction.snap) (open_of self.now session) }
        ensures bound { IfSome result (λ snap. snap ≤ length self.now.outcomes) }
    {
        Some(self.open_of(session)?.snap)
    }

    /// How many transactions have ended with writes.
    pub fn count(&self) -> u64
        ensures { result ≡ length self.now.outcomes }
    {
        self.outcomes.len() as u64
    }

    /// The session's open transaction.
    pub fn open_of(&self, session: Session) -> Option<&Transaction>
        ensures is { option_copied result ≡ open_of self.now session }
        ensures sound { IfSome (option_copied result) (IsOpen self.now.begun self.now.outcomes) }
        ensures stored { self.now.base + self.now.begun < STORED_NUMBERS_END }
    {
        self.active[session.index() as usize].as_ref()
    }

    fn allocator(&self) -> Global {
        *self.outcomes.allocator()
    }
}
