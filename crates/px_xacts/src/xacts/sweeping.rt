ghost use Rattle.std.specs.Prelude.{◌≡◌, ◌≤◌, ℕ, None, Some, drop, length, IsSome};
ghost use Rattle.px_model.specs.Machine.{lower_of};
ghost use Rattle.px_xacts.specs.declared.transaction.Transaction.{Transaction};
ghost use Rattle.px_xacts.specs.Transactions.{open_of, horizon, least_snap, due, due_from};

use super::Xacts;
use crate::answers::Due;
use crate::transaction::{Transaction, Unswept};

impl Xacts {
    /// The least snapshot of the open transactions, else the number of ended ones.
    #[tactic(auto, using(crate::proofs::Marks::horizon_below_each), unfolding(crate::specs::Transactions::horizon))]
    pub fn horizon(&self) -> u64
        ensures is { result ≡ horizon self.now }
        ensures bound { result ≤ length self.now.outcomes }
        ensures below_each { (session : ℕ) (transaction : Transaction) → open_of self.now session ≡ Some transaction → result ≤ transaction.snap }
    {
        least_snap(&self.active).unwrap_or(self.outcomes.len() as u64)
    }

    /// The next write to sweep. None exactly where its transaction isn't below the horizon, or none is left.
    #[tactic(auto, unfolding(crate::specs::Transactions::due))]
    pub fn due(&self) -> Option<Due>
        ensures { result ≡ due self.now }
    {
        let first = self.queue.front()?;
        if first.place < self.horizon() {
            Some(due_from(first))
        } else {
            None
        }
    }

    /// Notes that the next write to sweep is swept: the queue loses it.
    pub fn swept(&mut self)
        requires { IsSome (due self.old) }
        ensures { self.new ≡ record self.old { queue = drop 1 self.old.queue } }
    {
        let _first = self.queue.pop_front();
    }
}

/// The least snapshot of the open transactions, none where there is none.
fn least_snap(active: &[Option<Transaction>]) -> Option<u64>
    ensures { result ≡ least_snap None active.now }
{
    let mut least = None;
    for slot in active {
        if let Some(transaction) = slot {
            least = Some(lower_of(least, transaction.snap));
        }
    }
    least
}

fn lower_of(least: Option<u64>, snap: u64) -> u64
    ensures { result ≡ lower_of least snap }
{
    match least {
        Some(least) => least.min(snap),
        None => snap,
    }
}

fn due_from(entry: &Unswept) -> Due
    ensures { result ≡ due_from entry.now }
{
    Due {
        number: entry.number,
        committed: entry.committed,
        table: entry.write.table,
        row: entry.write.row,
        slot: entry.write.slot,
    }
}
