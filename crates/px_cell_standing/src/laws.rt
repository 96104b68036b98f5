//! What files of cells stand for and what is found in them, what a crash leaves of a settled site, and what lasts on one.

ghost use Rattle.std.specs.Prelude.{◌≡◌, ◌<◌, [], ℕ, List};
ghost use Rattle.px_beginning.specs.Found as beginning;
ghost use Rattle.px_beginning.specs.Found.{HasNoCells, Reading, life_of};
ghost use Rattle.px_beginning.specs.Tidied.{tidied};
ghost use Rattle.px_life.specs.Life.{Life, end_of};
ghost use Rattle.px_logged.specs.Recounting.{rows_now};
ghost use Rattle.px_model.specs.Machine.{Machine, commits};
ghost use Rattle.px_model.specs.declared.limits.TheConstants.{STORED_NUMBERS_END};
ghost use Rattle.px_model.specs.declared.row.Row.{Row};
ghost use Rattle.px_reached.specs.Reachable.{Marks};
ghost use Rattle.px_restart.specs.Restart.{IsPicked};
ghost use Rattle.px_restart.specs.declared.restart.Restart.{Restart};
ghost use Rattle.px_shown.specs.Parts.{no_parts};
ghost use Rattle.px_site.specs.Disk.{at_rest};
ghost use Rattle.px_site.specs.State.{Moment, State};
ghost use Rattle.px_standing.specs.Images.{IsPlainImage, LeavesOthers};
ghost use Rattle.px_standing.specs.Files.{Files, first_restart, second_restart};
ghost use Rattle.px_standing.specs.Resting.{ReadsImages};
ghost use Rattle.px_tidying.specs.Opening.{HasLife, Opening};
ghost use Rattle.px_working.specs.Lasts.{IsValid, Lasts};
ghost use Rattle.px_working.specs.Works.{Works};
ghost use Rattle.px_xlog.specs.Contents.{the_log};
ghost use Rattle.px_cell_standing.specs.Found.{CanBeFound, Found, HoldsStore, IsFound, IsFoundOn, IsReadIn, IsSettledStore, found_in, machine_of};
ghost use Rattle.px_cell_standing.specs.Images.{ImagesStandFor, StandsBetween};
ghost use Rattle.px_cell_standing.specs.Settled.{HasNothing, IsAlone, IsAtRest, IsOneFile, KeepsOneFile, Settled};
ghost use Rattle.px_cell_standing.specs.Standing.{StandsFor};
ghost use Rattle.px_cell_standing.specs.Touching.{TouchesOwn};

use px_beginning::without_cells_files_rest;
use px_filed::files_lie_under_their_frames;
use px_life::{fronts_hold, more_places_open_to_the_same};
use px_opened::{a_step_keeps_what_is_held, what_opens_is_one};
use px_reached::a_new_store_is_reachable;
use px_shown::{no_cells_show_no_rows, only_numbers_in_chains_are_asked, rows_shown_are_one};
use px_working::{a_crash_leaves_what_lasts, the_log_keeps_its_fronts};

/// What an opening finds in files is one thing, and they stand for one number of commits and for one list of rows.
pub fn what_is_found_is_one()
    ensures found { (files : Files) (found other : Found) → IsFound found files → IsFound other files → found ≡ other }
    ensures stands { (files : Files) (commits counted : ℕ) (rows others : List Row) → StandsFor files commits rows → StandsFor files counted others
        → (commits ≡ counted) × (rows ≡ others) }
{
    what_opens_is_one();
    rows_shown_are_one();
}

/// What is found in files stands there, and its next number is at most the first past the stored ones. In files that stand for a store
/// something is found: these commits and rows.
pub fn what_is_found_stands()
    ensures stands { (files : Files) (found : Found) → IsFound found files → StandsFor files found.commits found.rows }
    ensures numbers { (files : Files) (found : Found) → IsFound found files → found.base < STORED_NUMBERS_END }
    ensures finds { (files : Files) (commits : ℕ) (rows : List Row) → StandsFor files commits rows
        → (found : Found) × IsFound found files × (found.commits ≡ commits) × (found.rows ≡ rows) }
{}

/// A site whose bytes are all on the disk, and all frames in one file, is settled where they stand for a store. So is what a crash leaves
/// of a settled site, once the machine is up again: it stands for the same commits and rows.
pub fn what_a_crash_leaves_is_settled()
    ensures rests { (s : State) (commits : ℕ) (rows : List Row) → IsAtRest s.content s → IsOneFile s.content → StandsFor s.content commits rows
        → Settled s commits rows }
    ensures crashed { (s later : State) (commits : ℕ) (rows : List Row) (image : Files) → Settled s commits rows → IsPlainImage s.now image
        → IsAtRest image later → Settled later commits rows }
{}

/// Where calls on a settled site have touched no file but its own, a crash leaves all frames in one file: so where that stands for a store, be
/// it another one by now, the site is settled once the machine is up again. A session's call touches the log alone.
pub fn what_own_files_leave_is_settled()
    ensures one_file { (before : State) (now : Moment) (commits : ℕ) (rows : List Row) → Settled before commits rows → TouchesOwn before now → KeepsOneFile now }
    ensures crashed { (now : Moment) (later : State) (image : Files) (commits : ℕ) (rows : List Row) → KeepsOneFile now → IsPlainImage now image
        → StandsFor image commits rows → IsAtRest image later → Settled later commits rows }
    ensures log_alone { (before : State) (now : Moment) → LeavesOthers before.now now → TouchesOwn before now }
{}

/// On a settled site all frames stand in one file, as it reads and on the disk. What is found in a settled store is found on its site.
pub fn a_settled_site_is_one_file()
    ensures alone { (s : State) (commits : ℕ) (rows : List Row) → Settled s commits rows → IsAlone s }
    ensures found { (s : State) (found : Found) → IsSettledStore found s → IsFoundOn found s }
    ensures content { (s : State) (commits : ℕ) (rows : List Row) → Settled s commits rows → IsOneFile s.content }
    ensures no_cells { (s : State) (commits : ℕ) (rows : List Row) → Settled s commits rows → HasNoCells s }
{}

/// What is read of a settled site, once its restart files and its log are on the disk, is what a life begins with. The machine that starts
/// is that of what is found, and the frame behind the tidying is the next one.
pub fn what_is_read_begins()
    ensures begins { (s : State) (commits : ℕ) (rows : List Row) (read : Reading) → Settled s commits rows → IsReadIn s.content read
        → IsValid read.restart s.now → s.now.files the_log ≡ at_rest (s.content the_log) → ReadsImages s → beginning.IsFound no_parts read s }
    ensures machine { (read : Reading) → machine_of (found_in read) ≡ beginning.machine_of read }
    ensures frames { (read : Reading) (files : Files) → end_of (tidied read.restart (life_of read files)) ≡ (found_in read).frames }
{
    without_cells_files_rest();
}

/// While the store lasts, whatever a crash leaves stands for what the machine published by a number of commits, no fewer than were
/// acknowledged: where all were, for all that it has committed. While the machine that starts in what was found does nothing, that is what
/// was found.
pub fn what_lasts_stands()
    ensures between { (least : ℕ) (m : Machine) (life : Life) (restart : Restart) (marks : Marks) (before now : Moment)
        → Lasts no_parts least m life restart marks now → now.told ≡ before.told → now.telling ≡ [] → StandsBetween least (commits m) m before now }
    ensures all { (m : Machine) (life : Life) (restart : Restart) (marks : Marks) (now : Moment) → Lasts no_parts (commits m) m life restart marks now
        → ImagesStandFor (commits m) (rows_now m) now }
    ensures found { (found : Found) (life : Life) (restart : Restart) (marks : Marks) (now : Moment)
        → Lasts no_parts found.commits (machine_of found) life restart marks now → ImagesStandFor found.commits found.rows now }
{
    a_crash_leaves_what_lasts();
}

/// A site on which a machine's store lasts, each commit acknowledged, and on which the machine works, is a settled store with all that the
/// machine has committed, where it can be found.
pub fn what_lasts_is_settled()
    ensures { (m : Machine) (life : Life) (restart : Restart) (marks : Marks) (o : Opening)
        → HasLife no_parts (commits m) m life restart marks o → Works no_parts m life restart → CanBeFound m life restart o.site.now
        → ReadsImages o.site → HoldsStore m o.site }
{
    a_crash_leaves_what_lasts();
    files_lie_under_their_frames();
    fronts_hold();
    more_places_open_to_the_same();
    only_numbers_in_chains_are_asked();
    the_log_keeps_its_fronts();
}

/// In a store that was just made nothing is found but its shape: no commit, no row, no number, no frame. Once all its bytes are on the disk
/// it is a settled site.
pub fn a_new_store_is_found()
    ensures found { (files : Files) (restart : Restart) → IsPicked (first_restart files) (second_restart files) restart → restart.next ≡ 1 → restart.durable ≡ 0
        → HasNothing files
        → IsFound (record { tables = restart.tables; short = restart.short; rows = []; commits = 0; base = 0; redone = 0; frames = 0 }) files }
    ensures stands { (files : Files) (restart : Restart) → IsPicked (first_restart files) (second_restart files) restart → restart.next ≡ 1 → restart.durable ≡ 0
        → HasNothing files → StandsFor files 0 [] }
    ensures settled { (s : State) (restart : Restart) → IsPicked (first_restart s.content) (second_restart s.content) restart → restart.next ≡ 1
        → restart.durable ≡ 0 → restart.segment ≡ 1 → HasNothing s.content → IsAtRest s.content s → Settled s 0 [] }
{
    a_new_store_is_reachable();
    a_step_keeps_what_is_held();
    more_places_open_to_the_same();
    no_cells_show_no_rows();
}
