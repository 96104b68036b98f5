ghost use Rattle.std.specs.Prelude.{◌≡◌, ◌↔◌, IfErr, IfOk, IfSome, IsNone, IsTrue};
ghost use Rattle.px_history.specs.Steps.{after_step};
ghost use Rattle.px_history.specs.Store.{Store};
ghost use Rattle.px_history.specs.Written.{change_of};
ghost use Rattle.px_site.specs.Cause.{NoneFell};
ghost use Rattle.px_site.specs.State.{State};
ghost use Rattle.px_tables.specs.Linking.{IsFull};
ghost use Rattle.px_held.specs.Errors.{HasReadCause, IsPassing};
ghost use Rattle.px_held.specs.Linking.{HasPlaceFor, HasTable, IsNextPlace, IsReady, step_of};
ghost use Rattle.px_held.specs.Serving.{HasSameForm, Serves};

use super::Held;
use crate::error::HeldError;
use crate::prepared::Prepared;
use px_cells::CellKind;
use px_change::Version;
use px_site::Site;
use px_tables::Place;

impl Held {
    /// Takes the memory for one more version of a key's row, and says where it goes. It changes no cell. None exactly where the
    /// table is full for the key.
    pub fn place_for<W: Site>(
        &mut self,
        site: &mut W,
        table: u8,
        key: &[u8],
    ) -> Result<Option<Place>, HeldError>
        ensures full { W.tells → (store : Store) → Serves (W.state site.old) self.old store
            → IfOk result (λ found. IsNone found ↔ IsFull (store.tables table) key.now) }
        ensures next { W.tells → (store : Store) → Serves (W.state site.old) self.old store
            → IfOk result (λ found. IfSome found (IsNextPlace (store.tables table) key.now)) }
        ensures place { IfOk result (λ found. IfSome found (HasPlaceFor self.new table key.now)) }
        ensures form { HasSameForm self.old self.new }
        ensures keeps { (store : Store) → Serves (W.state site.old) self.old store → Serves (W.state site.new) self.new store }
        ensures same { W.tells → W.state site.new ≡ W.state site.old }
        ensures sound { W.tells → (store : Store) → Serves (W.state site.old) self.old store → HasTable self.old table → IfErr result IsPassing }
        ensures fault { IfErr result (HasReadCause (W.counts site.old) (W.counts site.new)) }
        ensures none_fell { NoneFell (W.counts site.old) (W.counts site.new) }
    {
        if !self.has_table(table) {
            return Err(self.damage(CellKind::Header, table, 0));
        }
        let place = self.tables[table as usize - 1].place_for(key)?;
        Ok(place)
    }

    fn has_table(&self, number: u8) -> bool
        ensures { IsTrue result ↔ HasTable self.now number }
    {
        number >= 1 && number as usize <= self.tables.len()
    }

    /// What the frame of what was prepared carries. It takes no memory.
    pub fn version_of<'a>(&self, prepared: &'a Prepared) -> Version<'a>
        requires { IsReady self.now prepared.now }
        ensures { (site : State) (store : Store) → Serves site self.now store
            → result ≡ change_of self.now.short store (step_of prepared.now) }
    {
        let linking = &prepared.linking;
        Version::new(
            self.short,
            prepared.table,
            linking.header,
            linking.number,
            &linking.slot,
        )
    }

    /// Lays what was prepared over its table. It takes no memory, and can't fail.
    pub fn lay(&mut self, prepared: Prepared)
        requires { IsReady self.old prepared }
        ensures step { (site : State) (store : Store) → Serves site self.old store → Serves site self.new (after_step store (step_of prepared)) }
        ensures form { HasSameForm self.old self.new }
    {
        let Prepared { table, linking } = prepared;
        self.tables[table as usize - 1].lay(linking);
    }
}
