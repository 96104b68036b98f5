ghost use Rattle.std.specs.Prelude.{◌≡◌, IfOk};
ghost use Rattle.std.specs.Ordering.{as_partial_cmp};
ghost use Rattle.std.specs.Cmp.{eq_by_cmp_equiv, partial_equiv_from_equiv, partial_order_from_own_ties, partial_order_from_total};
ghost use Rattle.std.proofs.Common.{rules};
ghost use Rattle.px_index.specs.Order.{entry_cmp, entry_cmp_total, place_cmp, same_entry, same_place};

use crate::Field;
use std::alloc::AllocError;
use std::cmp::Ordering;

/// That a version in this slot of this table has this key, or this tag. Entries are in order of their tables, then of their fields,
/// then of their slots.
#[derive(Debug, Drop)]
pub struct Entry {
    /// From 1.
    pub table: u8,
    pub field: Field,
    /// From 1.
    pub slot: u32,
}

impl Entry {
    /// An equal one; fails only for want of memory.
    pub fn copy(&self) -> Result<Entry, AllocError>
        ensures { IfOk result (λ copy. copy ≡ self.now) }
    {
        let field = self.field.copy()?;
        Ok(Entry {
            table: self.table,
            field,
            slot: self.slot,
        })
    }

    /// Whether it stands under the same field of the same table as the other.
    pub(crate) fn is_beside(&self, other: &Entry) -> bool
        ensures { result ≡ same_place self.now other.now }
    {
        self.place_cmp(other).is_eq()
    }

    fn place_cmp(&self, other: &Entry) -> Ordering
        ensures { result ≡ place_cmp self.now other.now }
    {
        let tables = self.table.cmp(&other.table);
        let kinds = self.field.kind().cmp(&other.field.kind());
        let keys = self.field.bytes().cmp(other.field.bytes());
        let tags = self.field.tag().cmp(&other.field.tag());
        tables.then(kinds.then(keys.then(tags)))
    }
}

impl PartialEq for Entry {
    ghost eq = { same_entry };

    ghost laws = { partial_equiv_from_equiv (eq_by_cmp_equiv entry_cmp_total) };

    fn eq(&self, other: &Entry) -> bool {
        self.cmp(other).is_eq()
    }
}

impl Eq for Entry {
    ghost laws = { eq_by_cmp_equiv entry_cmp_total };
}

impl PartialOrd for Entry {
    ghost partial_cmp = { as_partial_cmp entry_cmp };

    ghost laws = { partial_order_from_own_ties (partial_order_from_total entry_cmp_total) (Prim.search rules) };

    fn partial_cmp(&self, other: &Entry) -> Option<Ordering> {
        Some(self.cmp(other))
    }
}

impl Ord for Entry {
    ghost cmp = { entry_cmp };

    ghost total = { entry_cmp_total };

    ghost matches_partial_cmp = { Prim.search rules };

    ghost matches_eq = { Prim.search rules };

    fn cmp(&self, other: &Entry) -> Ordering {
        self.place_cmp(other).then(self.slot.cmp(&other.slot))
    }
}
