ghost use Rattle.std.specs.Prelude.{◌≡◌, ℕ, All, Bool, List, Some, option_map};
ghost use Rattle.px_cell_laws.specs.Holding.{HoldsChains, variation_in};
ghost use Rattle.px_cell_laws.specs.Locating.{AreWrittenAt};
ghost use Rattle.px_chain.specs.Sound.{IsUsedRow, key_of, no_layout, no_places};
ghost use Rattle.px_chain_laws.specs.Reading as machine;
ghost use Rattle.px_history.specs.Steps.{Step, after_step};
ghost use Rattle.px_history.specs.Store.{Store};
ghost use Rattle.px_laid.specs.Places.{Places};
ghost use Rattle.px_model.specs.Machine.{Machine};
ghost use Rattle.px_model.specs.declared.machine.Flat.{Flat};
ghost use Rattle.px_opened.specs.Opened.{AreOpened, Opens, tables_of};
ghost use Rattle.px_shown.specs.Parts.{Parts};
ghost use Rattle.px_shown.specs.Shown.{Done};
ghost use Rattle.px_shown.specs.Tables.{AreSound, Layouts};
ghost use Rattle.px_site.specs.State.{State};
ghost use Rattle.px_tables.specs.Held.{Held};
ghost use Rattle.px_xacts.specs.Transactions as xacts;
ghost use Rattle.px_xacts.specs.Transactions.{Transactions};
ghost use Rattle.px_xacts.specs.declared.answers.Due.{Due};
ghost use Rattle.px_xacts_laws.specs.Mirrors.{Mirrors};
ghost use Rattle.px_held.specs.Linking.{HasTable};
ghost use Rattle.px_held.specs.Reading.{newest_committed};
ghost use Rattle.px_held.specs.Serving.{AreNumbered, HasSameTables, HeldTables, Serves};
ghost use Rattle.px_held.specs.Sweeping.{IsSweepOf};

use px_cell_laws::{a_swept_write_has_its_version, what_is_due_is_found_in_its_row};
use px_chain_laws::a_sweep_moves_the_base;

/// What serves a store asks of the site only the contents of the tables' files.
pub fn serves_elsewhere()
    ensures { (site other : State) (held : HeldTables) (store : Store) → HasSameTables site other → Serves site held store
        → Serves other held store }
{}

/// All tables are in memory whole, so what serves a store serves it whatever the files have.
pub fn no_file_is_asked()
    ensures { (site other : State) (held : HeldTables) (store : Store) → Serves site held store → Serves other held store }
{}

/// Of a store only its tables and their layouts are asked: what serves one serves each other one with these.
pub fn only_tables_are_asked()
    ensures { (site : State) (held : HeldTables) (store other : Store) → other.tables ≡ store.tables → other.layouts ≡ store.layouts
        → Serves site held store → Serves site held other }
{}

/// A store that is served is sound. It has used rows in the tables that are held alone.
pub fn what_is_served_is_sound()
    ensures sound { (site : State) (held : HeldTables) (store : Store) → Serves site held store → AreSound held.short store.tables store.layouts }
    ensures tables { (site : State) (held : HeldTables) (store : Store) (t row : ℕ) → Serves site held store → IsUsedRow (store.tables t) row → HasTable held t }
{}

/// Two stores that are served have the same tables.
pub fn what_is_served_is_one()
    ensures { (site : State) (held : HeldTables) (one other : Store) → Serves site held one → Serves site held other
        → (t : ℕ) → one.tables t ≡ other.tables t }
{}

/// A commit and a rollback change no table: what served the store serves the one after them.
pub fn an_end_changes_no_table()
    ensures commit { (site : State) (held : HeldTables) (store : Store) (xn number : ℕ) → Serves site held store
        → Serves site held (after_step store (Step.commit xn number)) }
    ensures rollback { (site : State) (held : HeldTables) (store : Store) (xn : ℕ) → Serves site held store
        → Serves site held (after_step store (Step.rollback xn)) }
{}

/// The tables that places open to are in order of their numbers.
pub fn tables_that_open_are_numbered()
    ensures { (short tables : ℕ) (places : Places) (opened : List Held) → AreOpened short tables places opened
        → AreNumbered short opened }
{}

/// Tables that were just made, or that places open to, serve a store, whichever transactions are done there.
pub fn tables_that_open_serve()
    ensures made { (site : State) (short : ℕ) (made : List Held) (done : Done) (over : ℕ → Bool)
        → All (λ table. table.cells.header ≡ no_places) made
        → Serves site (record { short = short; tables = made })
        (record { tables = tables_of made; layouts = λ t. no_layout; done = done; over = over }) }
    ensures opened { (site : State) (short tables : ℕ) (places : Places) (opened : List Held) (layouts : Layouts) (done : Done) (over : ℕ → Bool)
        → Opens short tables places (tables_of opened) layouts
        → Serves site (record { short = short; tables = opened })
        (record { tables = tables_of opened; layouts = layouts; done = done; over = over }) }
{}

/// The newest version of a row whose transaction committed since the opening holds the machine's newest committed version of
/// the row's key: the one that tells whom a write would meet.
pub fn the_newest_commit_stands_in_the_cells()
    ensures { (parts : Parts) (m : Machine) (all : Transactions) (store : Store) (t row : ℕ) → HoldsChains parts m store → Mirrors m all
        → IsUsedRow (store.tables t) row
        → option_map (λ view. variation_in parts m.base t ((store.tables t).slot view.slot)) (newest_committed all store t row)
        ≡ machine.newest_committed m (t, key_of (store.tables t) row) }
{}

/// What is due stands at one place of its row, with at most one version behind it, and there the write is swept that the machine sweeps next.
/// What goes with it is the unlink of that sweep.
pub fn a_due_write_is_swept()
    ensures { (parts : Parts) (m : Machine) (all : Transactions) (store : Store) (due : Due) → Mirrors m all → HoldsChains parts m store
        → AreWrittenAt all store → xacts.due all ≡ Some due → (w : Flat) × (place : ℕ) × IsSweepOf m store due w place }
{
    a_swept_write_has_its_version();
    what_is_due_is_found_in_its_row();
    a_sweep_moves_the_base();
}
