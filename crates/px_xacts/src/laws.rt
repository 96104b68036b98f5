ghost use Rattle.std.specs.Prelude.{◌≡◌, ◌≤◌, ◌+◌, ℕ, All, Some, false};
ghost use Rattle.px_xacts.specs.declared.transaction.Transaction.{Transaction};
ghost use Rattle.px_xacts.specs.Transactions.{Transactions, open_of, low};

/// No open transaction has a stored number below the low mark, and no rolled-back one with an unswept write.
pub fn low_is_least()
    ensures of_open { (all : Transactions) (session : ℕ) (transaction : Transaction) → open_of all session ≡ Some transaction → low all ≤ all.base + transaction.number }
    ensures of_undone { (all : Transactions) → All (λ entry. entry.committed ≡ false → low all ≤ all.base + entry.number) all.queue }
{}
