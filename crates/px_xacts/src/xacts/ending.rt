ghost use Rattle.std.specs.Prelude.{◌≡◌, ◌<◌, ◌≤◌, ◌+◌, ◌++◌, ◌∷◌, [], map, length, IsSome, vec_len};
ghost use Rattle.std.specs.Vec.{vec_capacity};
ghost use Rattle.std.specs.VecDeque.{deque_len, deque_capacity};
ghost use Rattle.px_xacts.specs.Transactions.{open_of, ended, unswept, standing_at};

use super::Xacts;
use crate::transaction::{Outcome, Transaction, Unswept};
use px_model::{Session, Standing};
use std::collections::VecDeque;

impl Xacts {
    /// Ends the session's transaction. One with writes is now the last of those that ended, and its writes wait for the
    /// sweeper; nothing is kept of one without. It takes no memory.
    pub fn end(&mut self, session: Session, committed: bool)
        requires { IsSome (open_of self.old session) }
        ensures { self.new ≡ ended self.old session committed }
    {
        let Some(transaction) = self.active[session.index() as usize].take() else {
            return;
        };
        if transaction.writes.as_slice().is_empty() {
            return;
        }
        let place = self.outcomes.len() as u64;
        let number = transaction.number;
        self.open_writes -= transaction.writes.as_slice().len();
        self.standings[(number - 1) as usize] = standing_at(place, committed);
        push_in_room(&mut self.outcomes, Outcome { number, committed });
        enqueue(&mut self.queue, place, committed, transaction);
    }
}

fn standing_at(place: u64, committed: bool) -> Standing
    ensures { result ≡ standing_at place committed }
{
    if committed {
        Standing::Committed(place)
    } else {
        Standing::RolledBack
    }
}

/// Appends an outcome for which there is room.
fn push_in_room(outcomes: &mut Vec<Outcome>, outcome: Outcome)
    requires { vec_len outcomes.old < vec_capacity outcomes.old }
    ensures items { outcomes.new.items ≡ outcomes.old.items ++ outcome ∷ [] }
    ensures len { vec_len outcomes.new ≡ vec_len outcomes.old + 1 }
    ensures capacity { vec_capacity outcomes.old ≤ vec_capacity outcomes.new }
{
    let _pushed = outcomes.push(outcome);
}

/// Appends the transaction's writes, for which there is room.
fn enqueue(queue: &mut VecDeque<Unswept>, place: u64, committed: bool, transaction: Transaction)
    requires { deque_len queue.old + length transaction.writes ≤ deque_capacity queue.old }
    ensures items { queue.new.items ≡ queue.old.items ++ map (unswept place committed transaction) transaction.writes }
    ensures len { deque_len queue.new ≡ deque_len queue.old + length transaction.writes }
    ensures capacity { deque_capacity queue.old ≤ deque_capacity queue.new }
{
    let Transaction {
        number,
        snap: _,
        frames,
        writes,
    } = transaction;
    for write in writes.into_vec() {
        let _pushed = queue.push_back(Unswept {
            place,
            number,
            committed,
            frames,
            write,
        });
    }
}
