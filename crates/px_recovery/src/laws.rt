//! What files stand for is one thing; what may be opened, and what of that was found; and which files are not refused.

ghost use Rattle.std.specs.Prelude.{◌≡◌, ◌<◌, ℕ, List, true};
ghost use Rattle.px_cell_opening.specs.Opened as cells;
ghost use Rattle.px_cell_opening.specs.Opened.{MayOpen};
ghost use Rattle.px_cell_opening.specs.declared.opening.Cells.{Cells};
ghost use Rattle.px_history.specs.Store.{Store};
ghost use Rattle.px_cell_laws.specs.Holding.{HoldsChains};
ghost use Rattle.px_model.specs.Machine.{fresh};
ghost use Rattle.px_model.specs.declared.row.Row.{Row};
ghost use Rattle.px_restart.specs.Restart.{IsPicked};
ghost use Rattle.px_restart.specs.declared.restart.Restart.{Restart};
ghost use Rattle.px_shown.specs.Parts.{no_parts};
ghost use Rattle.px_site.specs.State.{State};
ghost use Rattle.px_standing.specs.Files.{Files, first_restart, second_restart};
ghost use Rattle.px_standing.specs.Resting.{RestartsRest};
ghost use Rattle.px_xlog.specs.Contents.{the_log};
ghost use Rattle.px_model.specs.Rows.{in_order};
ghost use Rattle.px_cell_standing.specs.Found.{Found, IsFound, IsFoundOn};
ghost use Rattle.px_cell_standing.specs.Settled.{IsOneFile, Settled};
ghost use Rattle.px_recovery.specs.Counting.{HasRows};
ghost use Rattle.px_recovery.specs.Errors.{HasNoRoomIn, HasRefusal, IsPassing};
ghost use Rattle.px_recovery.specs.Opening.{FindsOne, OpensAs, StandsForOne};
ghost use Rattle.px_recovery.specs.Cells.{AreCellsOf};
ghost use Rattle.px_recovery.specs.declared.error.OpenError.{OpenError};
ghost use Rattle.px_recovery.specs.declared.opening.OpenReport.{OpenReport};

use px_cell_laws::a_key_has_the_chain_of_its_row;
use px_cell_standing::{a_settled_site_is_one_file, what_is_found_is_one, what_is_found_stands};
use px_opened::{what_opens_has_no_damage, what_opens_is_one};

/// What an opening finds in files is one store, and they stand for one number of commits and for one list of rows.
pub fn files_stand_for_one_store()
    ensures found { FindsOne }
    ensures stands { StandsForOne }
{
    what_is_found_is_one();
}

/// A site whose restart files are on the disk may be opened by the restart that counts there, where it is settled, or where something is
/// found.
pub(crate) fn a_settled_site_may_be_opened()
    ensures may { (s : State) (commits : ℕ) (rows : List Row) (restart : Restart) → Settled s commits rows → RestartsRest s.now s.content
        → IsPicked (first_restart s.content) (second_restart s.content) restart → MayOpen restart commits rows s }
    ensures found { (s : State) (found : Found) (restart : Restart) → IsFoundOn found s → RestartsRest s.now s.content
        → IsPicked (first_restart s.content) (second_restart s.content) restart → MayOpen restart found.commits found.rows s }
{
    a_settled_site_is_one_file();
    what_is_found_stands();
}

/// The cells that were opened of files in which something is found, and in which all frames stand in one file, are those of what is found.
pub(crate) fn what_was_opened_was_found()
    ensures cells { (files : Files) (found : Found) (restart : Restart) (opened : Cells) (s : State) → IsFound found files → IsOneFile files
        → IsPicked (first_restart files) (second_restart files) restart → cells.OpensAs restart (files the_log) opened s → AreCellsOf found restart opened }
    ensures order { (files : Files) (found : Found) → IsFound found files → in_order found.rows ≡ true }
{
    what_is_found_is_one();
    what_is_found_stands();
    what_opens_is_one();
}

/// Where a version can't be unlinked for want of room, the frame is one of those before the number of the next one, once the store is opened.
pub(crate) fn what_is_found_has_room()
    ensures { (files : Files) (found : Found) (frame : ℕ) → IsFound found files → IsOneFile files → HasNoRoomIn files frame → frame < found.frames }
{
    what_is_found_is_one();
    what_is_found_stands();
    what_opens_is_one();
}

/// Files of which an opening can say what it opened are not refused.
pub fn what_opens_is_not_refused()
    ensures { (files : Files) (report : OpenReport) (error : OpenError) → OpensAs files report → HasRefusal files error → IsPassing error }
{
    what_opens_is_one();
    what_opens_has_no_damage();
}

/// Neither are files in which something is found, and in which all frames stand in one file.
pub fn what_is_found_is_not_refused()
    ensures { (files : Files) (found : Found) (error : OpenError) → IsFound found files → IsOneFile files → HasRefusal files error → IsPassing error }
{
    what_is_found_stands();
    what_opens_is_one();
    what_opens_has_no_damage();
}

/// Files whose log has no room for what an opening is to unlink aren't refused either: they are no store that isn't there, nor a damaged one.
pub fn what_has_no_room_is_not_refused()
    ensures { (files : Files) (frame : ℕ) (error : OpenError) → HasRefusal files (OpenError.LogFull frame) → HasRefusal files error → IsPassing error }
{
    what_opens_is_one();
    what_opens_has_no_damage();
}

/// In a store that holds the chains of a machine that just started each used row pointer is that of one of its rows.
pub(crate) fn a_store_that_works_has_its_rows()
    ensures { (tables short : ℕ) (rows : List Row) (commits base : ℕ) (store : Store) → HoldsChains no_parts (fresh tables short rows commits base) store
        → in_order rows ≡ true → HasRows store rows }
{
    a_key_has_the_chain_of_its_row();
}
