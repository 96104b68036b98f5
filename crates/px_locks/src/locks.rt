ghost use Rattle.std.specs.Prelude.{◌≡◌, ◌⊎◌, Some, None, if◌then◌else◌, IfOk, OnOk, OnErr};
ghost use Rattle.px_model.specs.Rows.{Key, same_key};
ghost use Rattle.px_locks.specs.Holders.{holder_of, unless_held_by};

use crate::tables;
use crate::tables::Table;
use std::alloc::{AllocError, Global};
use std::marker::Model;

/// The keys that open transactions hold. Contracts see a finite map from each key that is held to the
/// number of the transaction that holds it.
///
/// Each table has a map by the key's bytes, so a holder is found by one look-up. Which keys a transaction took isn't
/// kept: it is for the transaction to know what it wrote, and each key of it is released by itself.
#[derive(Debug, Drop)]
pub struct Locks {
    tables: Vec<Table>,
}

impl Model for Locks {
    ghost use Rattle.std.specs.Prelude.{ℕ};
    ghost use Rattle.std.specs.Coded.{coded_ℕ};
    ghost use Rattle.std.specs.FinMap as map;
    ghost use Rattle.px_model.specs.Rows.{key_cmp};
    ghost use Rattle.px_locks.specs.Holders.{holders_code};
    ghost use Rattle.px_locks.specs.Tables.{entries_from};

    ghost Value = { map.FinMap key_cmp ℕ };

    ghost coded = { holders_code };

    ghost view = { λ a. map.from_entries (entries_from 0 a.tables.items) };
}

impl Locks {
    /// No key is held.
    pub fn new(alloc: Global) -> Result<Locks, AllocError>
        ensures { IfOk result (λ locks. (q : Key) → holder_of q locks ≡ None) }
    {
        Ok(Locks {
            tables: Vec::new(alloc),
        })
    }

    /// The number of the transaction that holds the key.
    pub fn holder(&self, table: u8, key: &[u8]) -> Option<u64>
        ensures { result ≡ holder_of (table, key.now) self.now }
    {
        tables::holder(&self.tables, table, key)
    }

    /// Gives the key to the transaction of that number; fails only for want of memory, and not where
    /// it holds the key already.
    pub fn take(&mut self, table: u8, key: &[u8], number: u64) -> Result<(), AllocError>
        requires { (holder_of (table, key.now) self.old ≡ None) ⊎ (holder_of (table, key.now) self.old ≡ Some number) }
        ensures held { OnOk result ((q : Key) → holder_of q self.new
            ≡ (if same_key q (table, key.now) then Some number else holder_of q self.old)) }
        ensures err { OnErr result (self.new ≡ self.old) }
        ensures only_new { OnErr result (holder_of (table, key.now) self.old ≡ None) }
    {
        if self.holder(table, key).is_some() {
            return Ok(());
        }
        let stored = Vec::from_slice(*self.tables.allocator(), key)?;
        tables::insert(&mut self.tables, table, stored, number)?;
        Ok(())
    }

    /// Takes the key from the transaction that holds it, if there is one.
    pub fn free(&mut self, table: u8, key: &[u8])
        ensures { (q : Key) → holder_of q self.new
            ≡ (if same_key q (table, key.now) then None else holder_of q self.old) }
    {
        tables::remove(&mut self.tables, table, key);
    }

    /// Takes the key from the transaction of that number, where it holds it.
    pub fn release(&mut self, table: u8, key: &[u8], number: u64)
        ensures { (q : Key) → holder_of q self.new
            ≡ (if same_key q (table, key.now) then unless_held_by number (holder_of q self.old) else holder_of q self.old) }
    {
        let Some(holder) = self.holder(table, key) else {
            return;
        };
        if holder == number {
            self.free(table, key);
        }
    }
}
