ghost use Rattle.std.specs.Prelude.{◌≡◌, length, true};
ghost use Rattle.px_cell_laws.specs.Holding.{HoldsChains};
ghost use Rattle.px_counted.specs.Counts.{slots_in_all_chains};
ghost use Rattle.px_history.specs.Store.{Store};
ghost use Rattle.px_model.specs.Chains.{variations};
ghost use Rattle.px_model.specs.Machine.{Machine};
ghost use Rattle.px_model.specs.Rows.{in_order};
ghost use Rattle.px_shown.specs.Parts.{Parts};
ghost use Rattle.px_site.specs.State.{State};
ghost use Rattle.px_held.specs.Serving.{Serves};

use super::Held;

impl Held {
    /// How many versions there are in all tables. The sum fits, since tables have different numbers of one byte.
    pub fn version_count(&self) -> u64
        ensures chains { (site : State) (store : Store) → Serves site self.now store → result ≡ slots_in_all_chains (length self.now.tables) store }
        ensures machine { (site : State) (store : Store) (parts : Parts) (m : Machine) → Serves site self.now store → HoldsChains parts m store
            → in_order m.opening ≡ true → result ≡ variations m }
    {
        let mut count = 0;
        for table in &self.tables {
            let _number = table.number();
            count += u64::from(table.version_count());
        }
        count
    }
}
