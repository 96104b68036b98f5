ghost use Rattle.std.specs.Prelude.{◌≡◌, OnErr, OnOk};
ghost use Rattle.px_shown.specs.Shown.{done_with};
ghost use Rattle.px_tidy.specs.Numbers.{done_below, done_of};

use std::alloc::{AllocError, Global};
use std::collections::BTreeSet;
use std::marker::Model;

/// The stored numbers of transactions that are done: those below the low mark of a restart, and those that were added because
/// a Commit frame of theirs was read.
#[derive(Drop)]
pub struct Done {
    low: u64,
    added: BTreeSet<u64>,
}

impl Model for Done {
    ghost use Rattle.px_tidy.specs.Numbers.{Numbers};

    ghost Value = { Numbers };

    ghost view = { λ done. record { low = done.low; added = done.added.keys } };
}

impl Done {
    /// The numbers below a low mark.
    pub fn new(alloc: Global, low: u64) -> Done
        ensures { done_of result ≡ done_below low }
    {
        Done {
            low,
            added: BTreeSet::new(alloc),
        }
    }

    /// Adds the number. Without memory all is as it was.
    pub fn add(&mut self, xn: u64) -> Result<(), AllocError>
        ensures ok { OnOk result (done_of self.new ≡ done_with xn (done_of self.old)) }
        ensures err { OnErr result (self.new ≡ self.old) }
    {
        self.added.insert(xn)?;
        Ok(())
    }

    /// Whether the number is done.
    pub fn is_done(&self, xn: u64) -> bool
        ensures { result ≡ done_of self.now xn }
    {
        self.added.contains(&xn) || xn < self.low
    }
}
