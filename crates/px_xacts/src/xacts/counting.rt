ghost use Rattle.std.specs.Prelude.{◌≡◌, count_by, is_some, length};

use super::Xacts;
use crate::transaction::Transaction;

impl Xacts {
    /// How many transactions are open.
    pub fn open_count(&self) -> u64
        ensures { result ≡ count_by is_some self.now.active }
    {
        open_count(&self.active)
    }

    /// How many writes of ended transactions aren't swept.
    pub fn unswept_count(&self) -> u64
        ensures { result ≡ length self.now.queue }
    {
        self.queue.len() as u64
    }
}

fn open_count(active: &[Option<Transaction>]) -> u64
    ensures { result ≡ count_by is_some active.now }
{
    let mut count = 0;
    for slot in active {
        if slot.is_some() {
            count += 1;
        }
    }
    count
}
