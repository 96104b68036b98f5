ghost use Rattle.std.specs.Prelude.{◌≡◌, IfErr, IfOk, MatchOption, option_map};
ghost use Rattle.px_cell_laws.specs.Reading.{slot_seen};
ghost use Rattle.px_chain.specs.Sound.{IsSlot, IsUsedRow};
ghost use Rattle.px_history.specs.Store.{Store};
ghost use Rattle.px_site.specs.Cause.{NoneFell};
ghost use Rattle.px_tables.specs.Keys.{HasNoRow, IsRowOf};
ghost use Rattle.px_tables.specs.Order.{HasNoKeyPast, IsNextKey};
ghost use Rattle.px_held.specs.Errors.{HasReadCause, IsPassing};
ghost use Rattle.px_held.specs.Reading.{newest_committed};
ghost use Rattle.px_held.specs.Serving.{HasSameForm, Serves};

use super::Held;
use crate::error::HeldError;
use crate::reader::Reader;
use crate::walking;
use px_cells::{CellKind, Slot};
use px_chain::SlotView;
use px_model::Bytes;
use px_site::Site;
use px_xacts::Xacts;

impl Held {
    /// The used row with this key. None exactly where there is none.
    pub fn row_of<W: Site>(
        &mut self,
        site: &mut W,
        table: u8,
        key: &[u8],
    ) -> Result<Option<u32>, HeldError>
        ensures row { W.tells → (store : Store) → Serves (W.state site.old) self.old store
            → IfOk result (λ found. MatchOption found (HasNoRow (store.tables table) key.now) (λ row. IsRowOf (store.tables table) key.now row)) }
        ensures form { HasSameForm self.old self.new }
        ensures keeps { (store : Store) → Serves (W.state site.old) self.old store → Serves (W.state site.new) self.new store }
        ensures same { W.tells → W.state site.new ≡ W.state site.old }
        ensures sound { W.tells → (store : Store) → Serves (W.state site.old) self.old store → IfErr result IsPassing }
        ensures fault { IfErr result (HasReadCause (W.counts site.old) (W.counts site.new)) }
        ensures none_fell { NoneFell (W.counts site.old) (W.counts site.new) }
    {
        match self.table(table) {
            Some(table) => Ok(table.row_of(key)),
            None => Ok(None),
        }
    }

    /// The least key of a row past another one, and its row; the least of all after None. None exactly where there is none.
    pub fn key_past<W: Site>(
        &mut self,
        site: &mut W,
        table: u8,
        after: Option<&[u8]>,
    ) -> Result<Option<(Bytes, u32)>, HeldError>
        ensures next { W.tells → (store : Store) → Serves (W.state site.old) self.old store
            → IfOk result (λ next. MatchOption next (HasNoKeyPast (store.tables table) (option_map (λ key. key.now) after.entry))
            (λ found. IsNextKey (store.tables table) (option_map (λ key. key.now) after.entry) found.0 found.1)) }
        ensures form { HasSameForm self.old self.new }
        ensures keeps { (store : Store) → Serves (W.state site.old) self.old store → Serves (W.state site.new) self.new store }
        ensures same { W.tells → W.state site.new ≡ W.state site.old }
        ensures sound { W.tells → (store : Store) → Serves (W.state site.old) self.old store → IfErr result IsPassing }
        ensures fault { IfErr result (HasReadCause (W.counts site.old) (W.counts site.new)) }
        ensures none_fell { NoneFell (W.counts site.old) (W.counts site.new) }
    {
        let Some(table) = self.table(table) else {
            return Ok(None);
        };
        let Some((key, row)) = table.key_past(after)? else {
            return Ok(None);
        };
        let key = Bytes::from_slice(*self.tables.allocator(), key)?;
        Ok(Some((key, row)))
    }

    /// The slot of the version of a row that the reader sees. None exactly where it sees none.
    pub fn seen<W: Site>(
        &mut self,
        site: &mut W,
        table: u8,
        row: u32,
        reader: &Reader<'_>,
    ) -> Result<Option<u32>, HeldError>
        ensures seen { W.tells → (store : Store) → Serves (W.state site.old) self.old store → IsUsedRow (store.tables table) row
            → IfOk result (λ slot. slot ≡ slot_seen reader.now.xacts.now store reader.now.own reader.now.snapshot table row) }
        ensures form { HasSameForm self.old self.new }
        ensures keeps { (store : Store) → Serves (W.state site.old) self.old store → Serves (W.state site.new) self.new store }
        ensures same { W.tells → W.state site.new ≡ W.state site.old }
        ensures sound { W.tells → (store : Store) → Serves (W.state site.old) self.old store → IsUsedRow (store.tables table) row → IfErr result IsPassing }
        ensures fault { IfErr result (HasReadCause (W.counts site.old) (W.counts site.new)) }
        ensures none_fell { NoneFell (W.counts site.old) (W.counts site.new) }
    {
        let table = self.table_with(table, row)?;
        Ok(walking::seen(table, row, reader))
    }

    /// The newest version of a row whose transaction committed since the opening. None exactly where there is none.
    pub fn newest_committed<W: Site>(
        &mut self,
        site: &mut W,
        table: u8,
        row: u32,
        xacts: &Xacts,
    ) -> Result<Option<SlotView>, HeldError>
        ensures newest { W.tells → (store : Store) → Serves (W.state site.old) self.old store → IsUsedRow (store.tables table) row
            → IfOk result (λ view. view ≡ newest_committed xacts.now store table row) }
        ensures form { HasSameForm self.old self.new }
        ensures keeps { (store : Store) → Serves (W.state site.old) self.old store → Serves (W.state site.new) self.new store }
        ensures same { W.tells → W.state site.new ≡ W.state site.old }
        ensures sound { W.tells → (store : Store) → Serves (W.state site.old) self.old store → IsUsedRow (store.tables table) row → IfErr result IsPassing }
        ensures fault { IfErr result (HasReadCause (W.counts site.old) (W.counts site.new)) }
        ensures none_fell { NoneFell (W.counts site.old) (W.counts site.new) }
    {
        let table = self.table_with(table, row)?;
        Ok(walking::newest_committed(table, row, xacts))
    }

    /// A copy of the slot with this number.
    pub fn slot<W: Site>(&mut self, site: &mut W, table: u8, slot: u32) -> Result<Slot, HeldError>
        ensures slot { W.tells → (store : Store) → Serves (W.state site.old) self.old store → IsSlot (store.tables table) slot
            → IfOk result (λ copy. copy ≡ (store.tables table).slot slot) }
        ensures form { HasSameForm self.old self.new }
        ensures keeps { (store : Store) → Serves (W.state site.old) self.old store → Serves (W.state site.new) self.new store }
        ensures same { W.tells → W.state site.new ≡ W.state site.old }
        ensures sound { W.tells → (store : Store) → Serves (W.state site.old) self.old store → IsSlot (store.tables table) slot → IfErr result IsPassing }
        ensures fault { IfErr result (HasReadCause (W.counts site.old) (W.counts site.new)) }
        ensures none_fell { NoneFell (W.counts site.old) (W.counts site.new) }
    {
        let table = self.table_with_slot(table, slot)?;
        Ok(table.slot(slot).copy()?)
    }
}
