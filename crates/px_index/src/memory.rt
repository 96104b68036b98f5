ghost use Rattle.std.specs.Prelude.{◌≡◌, List, [], not, IfOk, IfErr, OnOk, OnErr, IsOk, MatchOption};
ghost use Rattle.px_site.specs.Cause.{NoneFell, no_counts};
ghost use Rattle.px_index.specs.Errors.{HasReadCause, IsPassing};
ghost use Rattle.px_index.specs.Listed.{HasNoneFrom, IsLeastFrom, IsListed, IsNextFrom, has, with_entry, without_entry};
ghost use Rattle.px_index.specs.declared.entry.Entry.{Entry};

use crate::{Entries, EntriesError, Entry};
use std::alloc::{AllocError, Global};
use std::collections::BTreeSet;
use std::marker::Model;
use std::ops::Bound;

/// Entries in memory. Contracts see their list, in order. Its calls answer want of memory alone, and `remove` doesn't even that.
#[derive(Drop)]
pub struct MemEntries {
    entries: BTreeSet<Entry>,
}

impl Model for MemEntries {
    ghost use Rattle.std.specs.Prelude.{List};
    ghost use Rattle.px_index.specs.declared.entry.Entry.{Entry};

    ghost Value = { List Entry };

    ghost view = { λ it. it.entries.keys };
}

impl MemEntries {
    /// No entries.
    pub fn new(alloc: Global) -> Result<MemEntries, AllocError>
        ensures { IfOk result (λ entries. IsListed entries []) }
    {
        Ok(MemEntries {
            entries: BTreeSet::new(alloc),
        })
    }

    /// The least entry that isn't below this one.
    fn least_from(&self, entry: &Entry) -> Option<&Entry>
        ensures { MatchOption result (HasNoneFrom self.now entry.now) (λ found. IsLeastFrom self.now entry.now found.now) }
    {
        let mut from = self
            .entries
            .range((Bound::Included(entry), Bound::Unbounded));
        from.next()
    }
}

impl Entries for MemEntries {
    ghost lists = { IsListed };

    ghost counts = { λ _. no_counts };

    fn add(&mut self, entry: Entry) -> Result<bool, EntriesError> {
        match self.entries.insert(entry) {
            Ok(added) => Ok(added),
            Err(_) => Err(EntriesError::OutOfMemory),
        }
    }

    fn remove(&mut self, entry: &Entry) -> Result<bool, EntriesError>
        ensures never_fails { IsOk result }
        ensures removed { (entries : List Entry) → IsListed self.old entries → IfOk result (λ removed. removed ≡ has entries entry.now) }
        ensures lists { (entries : List Entry) → IsListed self.old entries → OnOk result (IsListed self.new (without_entry entries entry.now)) }
        ensures as_before { (entries : List Entry) → IsListed self.old entries → OnErr result (IsListed self.new entries) }
        ensures sound { (entries : List Entry) → IsListed self.old entries → IfErr result IsPassing }
        ensures fault { IfErr result (HasReadCause no_counts no_counts) }
        ensures none_fell { NoneFell no_counts no_counts }
    {
        Ok(self.entries.remove(entry))
    }

    fn next_from(&mut self, entry: &Entry) -> Result<Option<Entry>, EntriesError> {
        match self.least_from(entry) {
            Some(next) => Ok(Some(next.copy()?)),
            None => Ok(None),
        }
    }

    ghost in_order = { λ it entries listed. listed.in_order };
}
