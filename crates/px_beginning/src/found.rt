ghost use Rattle.px_beginning.specs.Found.{HasNoCells, IsFound, Reading, life_of, machine_of, marks_of};
ghost use Rattle.px_filed.specs.Filed.{KeepsFiles};
ghost use Rattle.px_life.specs.Front.{commits_by};
ghost use Rattle.px_shown.specs.Parts.{Parts};
ghost use Rattle.px_site.specs.State.{State};
ghost use Rattle.px_working.specs.Lasts.{Lasts};

use px_life::{a_life_begins, an_opening_knows_who_is_done};
use px_working::{the_log_keeps_its_fronts, what_is_found_lasts};

/// What an opening finds lasts, for the machine that starts there: each frame that was read is durable, and each commit acknowledged.
pub fn what_was_read_lasts()
    ensures { (parts : Parts) (read : Reading) (s : State) → IsFound parts read s
        → Lasts parts (commits_by read.restart read.changes) (machine_of read) (life_of read s.content) read.restart (marks_of read) s.now }
{
    a_life_begins();
    an_opening_knows_who_is_done();
    the_log_keeps_its_fronts();
    what_is_found_lasts();
}

/// Where no table file has a byte, each cell that was found is one of a frame that was read, so nothing has to rest there.
pub fn without_cells_files_rest()
    ensures { (read : Reading) (s : State) → HasNoCells s
        → KeepsFiles read.restart.short (life_of read s.content) read.restart.redo read.restart.redo s.now.files }
{}
