ghost use Rattle.std.specs.Prelude.{◌≡◌, ◌↔◌, ℕ, List};
ghost use Rattle.px_change.specs.declared.change.Change.{Change};
ghost use Rattle.px_history.specs.Fitting.{AreWritten, IsWritten};
ghost use Rattle.px_history.specs.Steps.{AreSteps, IsStep, Step, after_step, after_steps};
ghost use Rattle.px_history.specs.Store.{Store, nothing};
ghost use Rattle.px_history.specs.Written.{AreChangesOf, IsChangeOf};
ghost use Rattle.px_laid.specs.Places.{Places, laid_over, none_laid};
ghost use Rattle.px_model.specs.declared.row.Row.{Row};
ghost use Rattle.px_shown.specs.Parts.{Parts};
ghost use Rattle.px_shown.specs.Shown.{Done, Shows};
ghost use Rattle.px_shown.specs.Tables.{Layouts, Tables};
ghost use Rattle.px_site.specs.declared.name.FileName.{FileName};
ghost use Rattle.px_opened.specs.Damage.{IsDamage};
ghost use Rattle.px_opened.specs.Kept.{HoldsStore};
ghost use Rattle.px_opened.specs.Opened.{IsSameLayout, IsSameTable, Opens, changes_over};

use px_history::a_link_leaves_one_layout;
use px_recs::one_reading;

/// Places open to one table of each number, up to what its header counts, and to one layout; and whatever transactions are done,
/// these show one list of rows.
pub fn what_opens_is_one()
    ensures tables { (short tables : ℕ) (places : Places) (a b : Tables) (of_a of_b : Layouts) (t : ℕ)
        → Opens short tables places a of_a → Opens short tables places b of_b → IsSameTable (a t) (b t) }
    ensures layouts { (short tables : ℕ) (places : Places) (a b : Tables) (of_a of_b : Layouts) (t : ℕ)
        → Opens short tables places a of_a → Opens short tables places b of_b → IsSameLayout (of_a t) (of_b t) }
    ensures shows { (parts : Parts) (short tables : ℕ) (places : Places) (a b : Tables) (of_a of_b : Layouts) (done : Done) (rows : List Row)
        → Opens short tables places a of_a → Opens short tables places b of_b → Shows parts a of_a done rows → Shows parts b of_b done rows }
{
    one_reading();
}

/// Where the places open there is no damage, so of the two answers of `open_tables` one alone can come.
pub fn what_opens_has_no_damage()
    ensures { (short tables : ℕ) (places : Places) (found : Tables) (layouts : Layouts) (file : FileName) (place : ℕ)
        → Opens short tables places found layouts → ¬ IsDamage short tables places file place }
{
    one_reading();
}

/// There is one first damage.
pub fn a_damage_is_one()
    ensures { (short tables : ℕ) (places : Places) (file other : FileName) (place at : ℕ) → IsDamage short tables places file place
        → IsDamage short tables places other at → (file ≡ other) × (place ≡ at) }
{
    one_reading();
}

/// Places that hold a store open to it.
pub fn what_is_held_opens()
    ensures { (short tables : ℕ) (store : Store) (places : Places) → HoldsStore short tables store places
        → Opens short tables places store.tables store.layouts }
{}

/// Where nothing is laid, the places hold the store of which nothing was ever used. Where they hold a store, and a change that the
/// log may have for a step is laid over them, they hold the store after it; and so after any number of steps.
pub fn a_step_keeps_what_is_held()
    ensures nothing { (short tables : ℕ) → HoldsStore short tables nothing none_laid }
    ensures step { (parts : Parts) (short tables : ℕ) (store : Store) (step : Step) (change : Change) (places : Places) → HoldsStore short tables store places
        → IsStep parts short store step → IsWritten tables step → IsChangeOf short store step change
        → HoldsStore short tables (after_step store step) (laid_over places change.cells) }
    ensures steps { (parts : Parts) (short tables : ℕ) (store : Store) (steps : List Step) (changes : List Change) (places : Places) → HoldsStore short tables store places
        → AreSteps parts short store steps → AreWritten tables steps → AreChangesOf short store steps changes
        → HoldsStore short tables (after_steps store steps) (changes_over places changes) }
{
    a_link_leaves_one_layout();
}

/// The changes of steps that lead from nothing to a store, laid one after the other, open to this store: with its tables and its
/// layouts, and whatever they open to shows just the rows that the store shows, whichever transactions are done and whatever lies
/// in the data logs. So an opening of them fails only for want of memory.
pub fn a_history_opens_to_its_store()
    ensures opens { (parts : Parts) (short tables : ℕ) (steps : List Step) (changes : List Change)
        → AreSteps parts short nothing steps → AreWritten tables steps → AreChangesOf short nothing steps changes
        → let store = after_steps nothing steps in
        Opens short tables (changes_over none_laid changes) store.tables store.layouts }
    ensures shows { (parts others : Parts) (short tables : ℕ) (steps : List Step) (changes : List Change) (found : Tables) (layouts : Layouts) (done : Done) (rows : List Row)
        → AreSteps parts short nothing steps → AreWritten tables steps → AreChangesOf short nothing steps changes
        → Opens short tables (changes_over none_laid changes) found layouts
        → let store = after_steps nothing steps in
        Shows others found layouts done rows ↔ Shows others store.tables store.layouts done rows }
    ensures no_damage { (parts : Parts) (short tables : ℕ) (steps : List Step) (changes : List Change) (file : FileName) (place : ℕ)
        → AreSteps parts short nothing steps → AreWritten tables steps → AreChangesOf short nothing steps changes
        → ¬ IsDamage short tables (changes_over none_laid changes) file place }
{
    what_opens_is_one();
    what_opens_has_no_damage();
    what_is_held_opens();
    a_step_keeps_what_is_held();
}
