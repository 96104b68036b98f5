ghost use Rattle.std.specs.Prelude.{◌≡◌, ◌≤◌, All, IfErr, IfOk, MatchOption, map};
ghost use Rattle.px_chain.specs.Sound.{IsSlot, IsUsedRow};
ghost use Rattle.px_history.specs.Store.{Store, versions_of};
ghost use Rattle.px_model.specs.declared.limits.TheConstants.{STORED_NUMBERS_END};
ghost use Rattle.px_site.specs.Cause.{NoneFell};
ghost use Rattle.px_tidy.specs.Kept.{tidied_away};
ghost use Rattle.px_tidy.specs.Numbers.{done_of};
ghost use Rattle.px_tidy.specs.Rows.{HasNoRowPast, IsNextRow};
ghost use Rattle.px_tidy.specs.Unneeded.{unneeded_at};
ghost use Rattle.px_held.specs.Errors.{HasReadCause, IfDamage, IsPassing};
ghost use Rattle.px_held.specs.Numbers.{IsPastVersions, IsUnstoredAt};
ghost use Rattle.px_held.specs.Serving.{HasSameForm, Serves};
ghost use Rattle.px_held.specs.Unlinking.{HasVersions};

use super::Held;
use crate::error::HeldError;
use crate::walking;
use px_cells::CellKind;
use px_site::Site;
use px_tidy::{Done, Unneeded, next_row, versions_to_tidy};

impl Held {
    /// The least used row past another one. None exactly where no row past it is used.
    pub fn next_row<W: Site>(
        &mut self,
        site: &mut W,
        table: u8,
        after: u32,
    ) -> Result<Option<u32>, HeldError>
        ensures next { (store : Store) → Serves (W.state site.old) self.old store
            → IfOk result (λ row. MatchOption row (HasNoRowPast (store.tables table) after) (IsNextRow (store.tables table) after)) }
        ensures form { HasSameForm self.old self.new }
        ensures keeps { (store : Store) → Serves (W.state site.old) self.old store → Serves (W.state site.new) self.new store }
        ensures same { W.tells → W.state site.new ≡ W.state site.old }
        ensures sound { W.tells → (store : Store) → Serves (W.state site.old) self.old store → IfErr result IsPassing }
        ensures fault { IfErr result (HasReadCause (W.counts site.old) (W.counts site.new)) }
        ensures none_fell { NoneFell (W.counts site.old) (W.counts site.new) }
    {
        match self.table(table) {
            Some(table) => Ok(next_row(table, after)),
            None => Ok(None),
        }
    }

    /// The versions of a row that go: all but the newest one that is done, and that one too where it is a deletion. The oldest
    /// comes first.
    pub fn versions_to_tidy<W: Site>(
        &mut self,
        site: &mut W,
        table: u8,
        row: u32,
        done: &Done,
    ) -> Result<Vec<Unneeded>, HeldError>
        ensures versions { (store : Store) → Serves (W.state site.old) self.old store → IsUsedRow (store.tables table) row
            → IfOk result (λ versions. versions.items ≡ map (unneeded_at ((store.layouts table).chain row)) (tidied_away (done_of done.now) (versions_of store table row))) }
        ensures stand { (store : Store) → Serves (W.state site.old) self.old store → IsUsedRow (store.tables table) row
            → IfOk result (λ versions. All (λ version. HasVersions store table row version.newer version.slot 1) versions.items) }
        ensures form { HasSameForm self.old self.new }
        ensures keeps { (store : Store) → Serves (W.state site.old) self.old store → Serves (W.state site.new) self.new store }
        ensures same { W.tells → W.state site.new ≡ W.state site.old }
        ensures sound { W.tells → (store : Store) → Serves (W.state site.old) self.old store → IsUsedRow (store.tables table) row → IfErr result IsPassing }
        ensures fault { IfErr result (HasReadCause (W.counts site.old) (W.counts site.new)) }
        ensures none_fell { NoneFell (W.counts site.old) (W.counts site.new) }
    {
        let alloc = *self.tables.allocator();
        let table = self.table_with(table, row)?;
        Ok(versions_to_tidy(alloc, table, row, done)?)
    }

    /// The stored number of the transaction that wrote the version in this slot.
    pub fn writer_of<W: Site>(
        &mut self,
        site: &mut W,
        table: u8,
        slot: u32,
    ) -> Result<u64, HeldError>
        ensures writer { (store : Store) → Serves (W.state site.old) self.old store → IsSlot (store.tables table) slot
            → IfOk result (λ xn. xn ≡ ((store.tables table).slot slot).xn) }
        ensures form { HasSameForm self.old self.new }
        ensures keeps { (store : Store) → Serves (W.state site.old) self.old store → Serves (W.state site.new) self.new store }
        ensures same { W.tells → W.state site.new ≡ W.state site.old }
        ensures sound { W.tells → (store : Store) → Serves (W.state site.old) self.old store → IsSlot (store.tables table) slot → IfErr result IsPassing }
        ensures fault { IfErr result (HasReadCause (W.counts site.old) (W.counts site.new)) }
        ensures none_fell { NoneFell (W.counts site.old) (W.counts site.new) }
    {
        let table = self.table_with_slot(table, slot)?;
        Ok(table.slot(slot).xn)
    }

    /// The least number from this one on past the stored numbers of all versions of a table. Damaged where a version has none, at
    /// the first of these.
    pub fn number_past<W: Site>(
        &mut self,
        site: &mut W,
        table: u8,
        first: u64,
    ) -> Result<u64, HeldError>
        requires { first ≤ STORED_NUMBERS_END }
        ensures past { (store : Store) → Serves (W.state site.old) self.old store → IfOk result (IsPastVersions first (store.tables table)) }
        ensures stored { IfOk result (λ next. next ≤ STORED_NUMBERS_END) }
        ensures unstored { W.tells → (store : Store) → Serves (W.state site.old) self.old store
            → IfErr result (IfDamage (IsUnstoredAt self.old.short table (store.tables table))) }
        ensures form { HasSameForm self.old self.new }
        ensures keeps { (store : Store) → Serves (W.state site.old) self.old store → Serves (W.state site.new) self.new store }
        ensures same { W.tells → W.state site.new ≡ W.state site.old }
        ensures fault { IfErr result (HasReadCause (W.counts site.old) (W.counts site.new)) }
        ensures none_fell { NoneFell (W.counts site.old) (W.counts site.new) }
    {
        let Some(versions) = self.table(table) else {
            return Ok(first);
        };
        match walking::number_past(versions, first) {
            Ok(next) => Ok(next),
            Err(slot) => Err(self.damage(CellKind::Slot, table, slot)),
        }
    }
}
