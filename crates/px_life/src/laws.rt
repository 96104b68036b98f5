ghost use Rattle.std.specs.Prelude.{◌≡◌, ◌<◌, ◌≤◌, ◌+◌, ◌-◌, [], ℕ, All, List, drop, false, length, take, true};
ghost use Rattle.px_change.specs.Grammar.{may_hold};
ghost use Rattle.px_change.specs.declared.change.Change.{Change};
ghost use Rattle.px_history.specs.Fitting.{IsWritten};
ghost use Rattle.px_history.specs.Written.{IsChangeOf};
ghost use Rattle.px_history.specs.Steps.{IsStep, Step};
ghost use Rattle.px_history.specs.Store.{Store};
ghost use Rattle.px_history.specs.Told.{IsNumberedOn, last_after, told_by};
ghost use Rattle.px_history.specs.Writers.{IsAlone};
ghost use Rattle.px_laid.specs.Places.{Places};
ghost use Rattle.px_model.specs.declared.row.Row.{Row};
ghost use Rattle.px_opened.specs.Kept.{HoldsStore};
ghost use Rattle.px_opened.specs.Opened.{Opens, changes_over};
ghost use Rattle.px_restart.specs.declared.restart.Restart.{Restart};
ghost use Rattle.px_shown.specs.Parts.{Parts};
ghost use Rattle.px_shown.specs.Shown.{Done, Shows};
ghost use Rattle.px_shown.specs.Tables.{Layouts, Tables};
ghost use Rattle.px_told.specs.Writes.{rows_over};
ghost use Rattle.px_life.specs.Example.{first_run, new_life, new_restart, opened_again, row_of_3, second_run};
ghost use Rattle.px_life.specs.Extends.{Extends};
ghost use Rattle.px_life.specs.Found.{AreBelow, life_found};
ghost use Rattle.px_life.specs.Front.{AreStored, IsFrom, KnowsDone, commits_at, done_at, done_by};
ghost use Rattle.px_life.specs.Life.{IsLife, Life, MayStand, committed_by, end_of, grown, places_at, store_at};

use px_history::a_history_shows_what_it_tells;
use px_opened::{a_step_keeps_what_is_held, what_opens_is_one};
use px_shown::only_numbers_in_chains_are_asked;

/// Places that have all that those of a store have open to it, whatever else lies there.
pub fn more_places_open_to_the_same()
    ensures { (short tables : ℕ) (store : Store) (below above : Places) → HoldsStore short tables store below → Extends below above
        → Opens short tables above store.tables store.layouts }
{}

/// Each front of a life is a store, at its own places.
pub fn fronts_hold()
    ensures { (parts : Parts) (short tables next : ℕ) (rows : List Row) (life : Life) (frame : ℕ) → IsLife parts short tables next rows life
        → life.start ≤ frame → frame ≤ end_of life → HoldsStore short tables (store_at life frame) (places_at life frame) }
{
    a_step_keeps_what_is_held();
}

/// Each front of a life shows the rows after what its frames tell, over those that the opening found.
pub fn a_front_shows()
    ensures { (parts : Parts) (short tables next : ℕ) (rows : List Row) (life : Life) (frame : ℕ) → IsLife parts short tables next rows life
        → let store = store_at life frame in
        Shows parts store.tables store.layouts store.done (rows_over rows (told_by parts (take (frame - life.start) life.steps))) }
{
    a_history_shows_what_it_tells();
}

/// A life goes on with a step that may follow.
pub fn a_life_grows()
    ensures { (parts : Parts) (short tables next : ℕ) (rows : List Row) (life : Life) (step : Step) (change : Change) → IsLife parts short tables next rows life
        → let store = store_at life (end_of life) in
        IsStep parts short store step → IsAlone store step → IsWritten tables step → IsChangeOf short store step change
        → may_hold tables (end_of life) short change ≡ true → IsLife parts short tables next rows (grown life step change) }
{}

/// A store that was just made is a life without steps.
pub fn a_new_store_is_a_life()
    ensures { (parts : Parts) (short tables : ℕ) → IsLife parts short tables 1 [] new_life }
{}

/// What an opening found is a life without steps: the changes that it read from a restart's first frame on, the tables that these from
/// the frame `redo` on open to over the cells of the files, and who is done. Its own cells are those that the headers count; what else
/// lies in the files is no part of it.
pub fn a_life_begins()
    ensures { (parts : Parts) (short tables next first redo : ℕ) (rows : List Row) (changes : List Change) (files : Places) (found : Tables) (layouts : Layouts) (done : Done)
        → first ≤ redo → redo ≤ first + length changes → MayStand tables first short changes → All (λ xn. xn < next) (committed_by changes)
        → Opens short tables (changes_over files (drop (redo - first) changes)) found layouts → Shows parts found layouts done rows
        → AreBelow next found layouts → IsLife parts short tables next rows (life_found next first redo changes files found layouts done) }
{
    what_opens_is_one();
    only_numbers_in_chains_are_asked();
    more_places_open_to_the_same();
}

/// Where a restart takes as done just who is done, it does so a step later too, if no version is put by a number below its low mark.
/// Unlinks and moves put none.
pub fn done_goes_on()
    ensures { (parts : Parts) (short tables next : ℕ) (rows : List Row) (life : Life) (restart : Restart) (step : Step) (change : Change)
        → IsLife parts short tables next rows (grown life step change) → life.first ≤ restart.first → restart.first ≤ end_of life
        → IsFrom restart.low step → KnowsDone restart life (end_of life) → KnowsDone restart (grown life step change) (end_of life + 1) }
{}

/// The number of commits that a restart has goes on with a commit's number, where this is the next one; nothing else has any.
pub fn commits_go_on()
    ensures { (short : ℕ) (life : Life) (restart : Restart) (step : Step) (change : Change) → life.first ≤ restart.first → restart.first ≤ end_of life
        → IsChangeOf short (store_at life (end_of life)) step change → IsNumberedOn (commits_at restart life (end_of life)) [] step
        → commits_at restart (grown life step change) (end_of life + 1) ≡ last_after (commits_at restart life (end_of life)) step }
{}

/// An opening takes as done who is below its restart's low mark, and whose Commit it read. In the life that it found the restart
/// knows who is done at its start, where the chains have stored numbers below the next one.
pub fn an_opening_knows_who_is_done()
    ensures { (short tables next redo : ℕ) (restart : Restart) (changes : List Change) (files : Places) (found : Tables) (layouts : Layouts)
        → Opens short tables (changes_over files (drop (redo - restart.first) changes)) found layouts → AreBelow next found layouts → AreStored found layouts
        → let life = life_found next restart.first redo changes files found layouts (done_by restart changes) in
        KnowsDone restart life life.start }
{}

/// In a new store 3 writes a row and commits, and the store is opened again; there 5 writes the row once more, and stops before it
/// commits. Both are lives, whatever lies in the data logs. Each of the two fronts of the second one shows what 3 wrote, after one
/// commit: there the restart of the new store takes 3 as done and 5 not, as it is.
pub fn a_life_in_two_runs()
    ensures first { (parts : Parts) → IsLife parts 16 2 1 [] first_run }
    ensures opened { (parts : Parts) → IsLife parts 16 2 4 row_of_3 opened_again }
    ensures second { (parts : Parts) → IsLife parts 16 2 4 row_of_3 second_run }
    ensures at_start { (parts : Parts) → let store = store_at second_run 2 in Shows parts store.tables store.layouts store.done row_of_3 }
    ensures at_end { (parts : Parts) → let store = store_at second_run 3 in Shows parts store.tables store.layouts store.done row_of_3 }
    ensures known { KnowsDone new_restart second_run 2 × KnowsDone new_restart second_run 3 }
    ensures done { (done_at new_restart second_run 3 3 ≡ true) × (done_at new_restart second_run 3 5 ≡ false) }
    ensures commits { (commits_at new_restart second_run 2 ≡ 1) × (commits_at new_restart second_run 3 ≡ 1) }
{
    a_step_keeps_what_is_held();
    a_history_shows_what_it_tells();
    what_opens_is_one();
    only_numbers_in_chains_are_asked();
    more_places_open_to_the_same();
}
