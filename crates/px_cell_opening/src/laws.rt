ghost use Rattle.std.specs.Prelude.{◌≡◌, ◌-◌, ℕ, List};
ghost use Rattle.px_beginning.specs.Found.{life_of, marks_of};
ghost use Rattle.px_beginning.specs.Tidied.{tidied};
ghost use Rattle.px_life.specs.Front.{done_by};
ghost use Rattle.px_log.specs.Contents.{Scans, log_text};
ghost use Rattle.px_log.specs.Log.{IsLogOf};
ghost use Rattle.px_model.specs.declared.row.Row.{Row};
ghost use Rattle.px_reached.specs.Reachable.{Marks};
ghost use Rattle.px_restart.specs.Restart.{CanRestart, IsPicked};
ghost use Rattle.px_restart.specs.declared.restart.Restart.{Restart};
ghost use Rattle.px_shown.specs.Parts.{no_parts};
ghost use Rattle.px_site.specs.Disk.{at_rest};
ghost use Rattle.px_site.specs.State.{Moment, Stands, State};
ghost use Rattle.px_standing.specs.Files.{Files, first_restart, second_restart};
ghost use Rattle.px_standing.specs.Resting.{ReadsImages};
ghost use Rattle.px_tidying.specs.Opening.{HasLife, HasStore, opening};
ghost use Rattle.px_working.specs.Lasts.{Lasts};
ghost use Rattle.px_working.specs.Works.{Works};
ghost use Rattle.px_xlog.specs.Contents.{the_log};
ghost use Rattle.px_cell_standing.specs.Settled.{IsOneFile};
ghost use Rattle.px_cell_standing.specs.Standing.{StandsFor};
ghost use Rattle.px_cell_opening.specs.Errors.{HasRefusal, IsPassing};
ghost use Rattle.px_cell_opening.specs.Found.{HasFound, Rests, reading_of};
ghost use Rattle.px_cell_opening.specs.Opened.{MayOpen, machine_of, store_of};
ghost use Rattle.px_cell_opening.specs.declared.error.CellsError.{CellsError};
ghost use Rattle.px_cell_opening.specs.declared.opening.Found.{Found};

use px_beginning::{what_was_read_lasts, what_was_tidied_works};
use px_opened::{what_opens_has_no_damage, what_opens_is_one};

/// Files that stand for a store, and in which all frames stand in one file, have no damage.
pub fn what_stands_has_no_damage()
    ensures { (restart : Restart) (commits : ℕ) (rows : List Row) (files : Files) (error : CellsError)
        → IsPicked (first_restart files) (second_restart files) restart → IsOneFile files → StandsFor files commits rows
        → HasRefusal restart (files the_log) error → IsPassing error }
{
    what_opens_is_one();
    what_opens_has_no_damage();
}

/// What was found of a store that may be opened rests there once its log was cut.
pub(crate) fn what_was_found_rests()
    ensures { (restart : Restart) (commits : ℕ) (rows : List Row) (found : Found) (before now : State) → MayOpen restart commits rows before → ReadsImages before
        → HasFound restart found → Scans restart (before.content the_log) found.changes → IsLogOf found.log found.changes now
        → Stands the_log before (at_rest (log_text found.changes)) (log_text found.changes) now → Rests restart commits rows found now }
{
    what_opens_is_one();
}

/// The tables that were found are those of a store, which may be tidied: in it are done just those of whom the restart or a Commit
/// tells it.
pub(crate) fn tables_that_open_may_be_tidied()
    ensures store { (restart : Restart) (found : Found) (site : State) → CanRestart restart → (has : HasFound restart found)
        → HasStore (store_of restart found.changes found.next has.holds.found has.holds.layouts) (opening site found.held found.log) }
    ensures done { (restart : Restart) (found : Found) → CanRestart restart → (has : HasFound restart found)
        → (store_of restart found.changes found.next has.holds.found has.holds.layouts).done ≡ done_by restart found.changes }
{}

/// What was found and rests begins a life, for the machine that starts there.
pub(crate) fn what_was_read_has_its_life()
    ensures { (restart : Restart) (commits : ℕ) (rows : List Row) (found : Found) (s : State) → CanRestart restart → (rests : Rests restart commits rows found s)
        → let read = reading_of restart found rests.has rows in
        HasLife no_parts commits (machine_of restart commits rows (found.next - 1)) (life_of read s.content) restart (marks_of read) (opening s found.held found.log) }
{
    what_was_read_lasts();
}

/// Once that life was tidied, the machine works in it.
pub(crate) fn what_was_tidied_goes_on()
    ensures { (restart : Restart) (commits : ℕ) (rows : List Row) (found : Found) (s : State) (rests : Rests restart commits rows found s) (least : ℕ) (marks : Marks) (now : Moment)
        → let life = life_of (reading_of restart found rests.has rows) s.content in
        Lasts no_parts least (machine_of restart commits rows (found.next - 1)) (tidied restart life) restart marks now
        → Works no_parts (machine_of restart commits rows (found.next - 1)) (tidied restart life) restart }
{
    what_was_tidied_works();
}
