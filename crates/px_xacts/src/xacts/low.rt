ghost use Rattle.std.specs.Prelude.{◌≡◌, ◌≤◌, ◌<◌, ◌+◌, ◌^◌, None, IfSome};
ghost use Rattle.px_xacts.specs.Transactions.{older_of, oldest_open, oldest_undone, oldest, low, floor};

use super::Xacts;
use crate::transaction::{Start, Transaction, Unswept};

impl Xacts {
    /// The least stored number among the open transactions and the rolled-back ones with an unswept write, else the next
    /// stored number. It goes over all unswept writes.
    #[tactic(auto, unfolding(crate::specs::Transactions::low))]
    pub fn low(&self) -> u64
        ensures is { result ≡ low self.now }
        ensures above { self.now.base < result }
        ensures bound { result ≤ self.now.base + self.now.begun + 1 }
    {
        match self.oldest() {
            Some(start) => self.base + start.number,
            None => self.base + self.begun + 1,
        }
    }

    /// How many frames the log had when the transaction began whose stored number is `low`. None exactly where there is no
    /// such transaction. It goes over all unswept writes.
    #[tactic(auto, unfolding(crate::specs::Transactions::floor))]
    pub fn floor(&self) -> Option<u64>
        ensures { result ≡ floor self.now }
    {
        Some(self.oldest()?.frames)
    }

    #[tactic(auto, using(crate::proofs::Marks::marks), unfolding(crate::specs::Transactions::oldest))]
    fn oldest(&self) -> Option<Start>
        ensures is { result ≡ oldest self.now }
        ensures bounds { IfSome result (λ start. (1 ≤ start.number) × (start.number ≤ self.now.begun)) }
    {
        let (front, back) = self.queue.as_slices();
        oldest_undone(oldest_undone(oldest_open(&self.active), front), back)
    }
}

fn oldest_open(active: &[Option<Transaction>]) -> Option<Start>
    ensures { result ≡ oldest_open None active.now }
{
    let mut oldest = None;
    for slot in active {
        if let Some(transaction) = slot {
            oldest = Some(older_of(
                oldest,
                Start {
                    number: transaction.number,
                    frames: transaction.frames,
                },
            ));
        }
    }
    oldest
}

fn oldest_undone(oldest: Option<Start>, queue: &[Unswept]) -> Option<Start>
    ensures { result ≡ oldest_undone oldest queue.now }
{
    let mut oldest = oldest;
    for entry in queue {
        if !entry.committed {
            oldest = Some(older_of(
                oldest,
                Start {
                    number: entry.number,
                    frames: entry.frames,
                },
            ));
        }
    }
    oldest
}

fn older_of(oldest: Option<Start>, start: Start) -> Start
    ensures { result ≡ older_of oldest start }
{
    match oldest {
        Some(oldest) => {
            if start.number < oldest.number {
                start
            } else {
                oldest
            }
        }
        None => start,
    }
}
