ghost use Rattle.std.specs.Prelude.{◌≡◌, ◌≢◌, ℕ, List, [], MatchOption, OnOk, Some, if◌then◌else◌, is_some, option_map, true};
ghost use Rattle.std.specs.Ordering.{nat_cmp};
ghost use Rattle.std.specs.Cmp.Lexicographic.{slice_cmp};
ghost use Rattle.std.specs.BTreeMap.{UpdatesBy, get_by};
ghost use Rattle.px_tables.specs.Keys.{IsEntered, entry_in, row_named};
ghost use Rattle.px_tables.specs.Order.{IsNextName, NamesNonePast};

use std::alloc::{AllocError, Global};
use std::collections::BTreeMap;
use std::marker::Model;
use std::ops::Bound;

/// The rows that keys name. A key can be entered without a row, so that naming one then takes no memory.
#[derive(Drop)]
pub(crate) struct Keys {
    /// The row of each key, 0 for none.
    rows: BTreeMap<Vec<u8>, u32>,
}

impl Model for Keys {
    ghost use Rattle.std.specs.Prelude.{List, ℕ, map};

    ghost Value = { List (List ℕ × ℕ) };

    ghost view = { λ keys. map (λ entry. (entry.0.items, entry.1)) keys.rows.entries };
}

impl Keys {
    /// No keys.
    pub(crate) fn new(alloc: Global) -> Keys
        ensures { result ≡ [] }
    {
        Keys {
            rows: BTreeMap::new(alloc),
        }
    }

    /// The row that the key names.
    pub(crate) fn row_of(&self, key: &[u8]) -> Option<u32>
        ensures { MatchOption result (row_named self.now key.now ≡ 0) (λ row. row ≢ 0 × (row_named self.now key.now ≡ row)) }
    {
        let row = self.entry(key)?;
        if row == 0 {
            return None;
        }
        Some(row)
    }

    /// The least key past another one that names a row, with that row; the least of all after None.
    pub(crate) fn past(&self, after: Option<&Vec<u8>>) -> Option<(&[u8], u32)>
        ensures { MatchOption result (NamesNonePast self.now (option_map (λ key. key.now.items) after.entry)) (λ found. IsNextName self.now (option_map (λ key. key.now.items) after.entry) found.0.now found.1) }
    {
        let start = match after {
            Some(key) => Bound::Excluded(key),
            None => Bound::Unbounded,
        };
        for (key, row) in self.rows.range((start, Bound::Unbounded)) {
            if *row != 0 {
                return Some((key.as_slice(), *row));
            }
        }
        None
    }

    /// What the key is entered with.
    fn entry(&self, key: &[u8]) -> Option<u32>
        ensures { result ≡ entry_in self.now key.now }
    {
        self.rows.get(key).copied()
    }

    /// Enters the key, without a row where it has no entry yet. No key names another row than before.
    pub(crate) fn enter(&mut self, alloc: Global, key: &[u8]) -> Result<(), AllocError>
        ensures entered { OnOk result (IsEntered self.new key.now) }
        ensures same { (q : List ℕ) → row_named self.new q ≡ row_named self.old q }
    {
        if self.entry(key).is_some() {
            return Ok(());
        }
        let key = Vec::from_slice(alloc, key)?;
        self.rows.insert(key, 0)?;
        Ok(())
    }

    /// Enters the key with this row. It fails only for want of memory.
    pub(crate) fn add(&mut self, alloc: Global, key: &[u8], row: u32) -> Result<(), AllocError>
        ensures named { OnOk result (row_named self.new key.now ≡ row) }
        ensures others { OnOk result ((q : List ℕ) → q ≢ key.now → row_named self.new q ≡ row_named self.old q) }
    {
        let key = Vec::from_slice(alloc, key)?;
        self.rows.insert(key, row)?;
        Ok(())
    }

    /// The key, which is entered, names this row. It takes no memory.
    pub(crate) fn name(&mut self, key: &[u8], row: u32)
        requires { IsEntered self.old key.now }
        ensures named { row_named self.new key.now ≡ row }
        ensures others { (q : List ℕ) → q ≢ key.now → row_named self.new q ≡ row_named self.old q }
    {
        name_in(&mut self.rows, key, row);
    }

    /// Where its row is gone, the key names none. It takes no memory.
    pub(crate) fn forget_if(&mut self, gone: bool, key: &[u8])
        ensures named { row_named self.new key.now ≡ (if gone then 0 else row_named self.old key.now) }
        ensures others { (q : List ℕ) → q ≢ key.now → row_named self.new q ≡ row_named self.old q }
    {
        if gone {
            self.forget(key);
        }
    }

    fn forget(&mut self, key: &[u8])
        ensures named { row_named self.new key.now ≡ 0 }
        ensures others { (q : List ℕ) → q ≢ key.now → row_named self.new q ≡ row_named self.old q }
    {
        let _row = self.rows.remove(key);
    }
}

fn name_in(rows: &mut BTreeMap<Vec<u8>, u32>, key: &[u8], row: u32)
    requires { is_some (get_by (λ stored. slice_cmp nat_cmp key.now stored.items) rows.old) ≡ true }
    ensures { UpdatesBy (λ a b. slice_cmp nat_cmp a.items b.items) (λ stored. slice_cmp nat_cmp key.now stored.items) rows.old rows.new (Some row) }
{
    if let Some(named) = rows.get_mut(key) {
        *named = row;
    }
}
