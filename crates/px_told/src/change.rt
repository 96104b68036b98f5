ghost use Rattle.std.specs.Prelude.{◌≡◌};
ghost use Rattle.px_told.specs.Changes.{is_end};

use px_model::Write;

/// What a call tells that changes something: a write of a transaction, or how one ended. The numbers of transactions are
/// stored ones, from 1 to 2^62 - 1.
#[derive(Debug, Drop)]
pub enum Change {
    Put { xn: u64, write: Write },
    Commit { xn: u64, commit: u64 },
    Rollback { xn: u64 },
}

impl Change {
    /// That it ends a transaction: it carries no row.
    pub fn is_end(&self) -> bool
        ensures { result ≡ is_end self.now }
    {
        match self {
            Change::Put { .. } => false,
            Change::Commit { .. } => true,
            Change::Rollback { .. } => true,
        }
    }
}
